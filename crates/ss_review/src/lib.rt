//! The review of a stored log (RFC 5848, section 7): which messages its signature blocks announce, which of them are
//! stored, and what is missing or disputed.
#![tactic(auto)]

mod announced;
mod assign;
mod counted;
mod fault;
mod keep;
pub mod laws;
mod lists;
mod pinned;
mod questions;
mod report;
mod review;
mod sessions;

pub use counted::counted_report::CountedReport;
pub use counted::counted_session::{CountedSession, CountedSessions, Gbcs};
pub use counted::counter::{Counter, Counters, Counts};
pub use counted::log_shortfalls::log_shortfalls;
pub use counted::missing::{MissingRun, MissingRuns, missing_runs, next_gbc};
pub use counted::shortfall::{GroupTail, GroupTails, LogShortfalls, Shortfall, Shortfalls};
pub use fault::ReviewFault;
pub use keep::log_blocks::{LogBlock, LogBlocks};
pub use keep::reviewer::Reviewer;
pub use keep::spoilt::{SpoiltPlace, SpoiltPlaces};
pub use questions::asked::{AskedBlock, AskedSession, AskedSessions};
pub use questions::parameters::AskedParameters;
pub use questions::question::{Question, Questions};
pub use questions::questioner::Questioner;
pub use report::entry::{Entries, Entry, Why};
pub use report::group_report::{GroupReport, GroupReports};
pub use report::places::Places;
pub use report::report::Report;
pub use report::session_report::{SessionReport, SessionReports, SessionState};
pub use sessions::verifier::{Judge, Verifier};
