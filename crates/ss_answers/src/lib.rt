//! Files that hold the answers of a signature checker and the signatures of a signer, which are read and asked.
//! And files that hold counters, or places of messages.
#![tactic(auto)]

mod counters;
mod cut;
mod fault;
mod field;
mod file;
mod input;
mod key;
pub mod laws;
mod line;
mod lines;
mod place;
mod places;
mod reading;
mod room;
mod seals;
mod table;

pub use counters::fault::CounterFault;
pub use counters::file::{counters_from, open_counters, read_counters};
pub use counters::start::start_of;
pub use counters::start_fault::StartFault;
pub use fault::AnswerFault;
pub use file::{answers_from, open_answers, open_payloads, payloads_from, read_answers};
pub use places::fault::PlaceFault;
pub use places::file::{open_places, places_from, read_places};
pub use seals::GivenSeals;
pub use table::Answers;
