//! A signer's files, which are all that it remembers: their records, what a loss of power leaves of them, and what holds
//! over every list of events.
#![tactic(auto)]

mod disk;
mod journal;
mod kind;
pub mod laws;
mod live;
mod lossy;
mod reading;
mod record;
mod start;

pub use disk::{Disk, JournalError, Look};
pub use journal::Journal;
pub use live::Command;
pub use lossy::{Call, Lossy};
pub use record::{first_record, is_record};
