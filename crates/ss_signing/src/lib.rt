//! The runs that sign a log. Its messages are read to their end and given to an originator. What it emits is written as
//! frames or lines, or what has to be signed of it as lines.
#![tactic(auto)]

mod ahead;
mod blank;
mod calls;
mod fault;
pub mod laws;
mod log;
mod output;
mod plan;
mod preparing;
mod request;
mod send;
mod sign;
mod sign_run;
mod text;
mod want_writer;

pub use ahead::run_ahead;
pub use fault::SignFault;
pub use plan::{run_plan, run_plan_from};
pub use request::SendRequest;
pub use sign::{run_sign, run_sign_from};
pub use sign_run::SignRun;
