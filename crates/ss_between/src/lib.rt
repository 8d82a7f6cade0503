//! One night of a session that goes on: what a review of its log reports between two counters (RFC 5848, sections 4.2.4
//! and 4.2.5).
#![tactic(auto)]

mod bounds;
mod left;

pub use bounds::Bounds;
pub use left::{entry_left, run_left, tail_left};
