//! The engine of a signer that keeps no state: events of its driver go in, answers come out, and files are all that it
//! remembers.
#![tactic(auto)]

mod answer;
mod chain;
mod engine;
mod event;
mod fault;
mod life;
mod own;
mod run;
mod sealing;
mod settings;
mod turning;

pub use answer::{Answer, Reason};
pub use chain::Closed;
pub use engine::{Asked, Coming, Engine};
pub use event::{Event, event_in};
pub use life::run_live;
pub use run::{LiveFault, Reply};
pub use settings::Settings;
pub use turning::Turned;
