//! The runs over a stored log: it is read to its end, and a text about it, or frames from it, are written whole; and how
//! the run ended.
#![tactic(auto)]

mod fault;
mod forms;
pub mod laws;
mod lines;
mod log;
mod notation;
mod payloads;
mod records;
mod runs;
mod strangers;
mod texts;
mod verdict;

pub use fault::RunFault;
pub use forms::inspection_form::InspectionForm;
pub use forms::report_form::ReportForm;
pub use lines::detail::{Detail, Listing};
pub use log::ending::{Damage, Damages, Ending};
pub use log::log::{Log, read_log};
pub use log::output::{end_text, write_whole};
pub use log::read_options::ReadOptions;
pub use notation::Notation;
pub use payloads::Payloads;
pub use runs::beside::Beside;
pub use runs::counters::{
    run_counters, write_block_counter, write_counters_end, write_message_counter,
};
pub use runs::extract::run_extract;
pub use runs::extraction::{ExtractFault, Extraction, Selection};
pub use runs::inspect::run_inspect;
pub use runs::open_review::OpenReview;
pub use runs::questions::run_questions;
pub use runs::review::run_review;
pub use runs::review_as::run_review_as;
pub use runs::run::Run;
pub use verdict::verdict::Verdict;
