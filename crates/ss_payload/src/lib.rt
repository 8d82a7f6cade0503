//! Payload blocks (RFC 5848, section 5.2): read and written, cut into the fragments that certificate blocks send, and
//! joined from them again.
#![tactic(auto)]

mod cuts;
mod cutting;
mod joiner;
mod kind;
pub mod laws;
mod payload;
mod payload_reading;
mod payload_writing;
mod ranges;

pub use cuts::{Cut, Cuts};
pub use cutting::cut;
pub use joiner::{JoinState, Joined, Joiner};
pub use kind::Kind;
pub use payload::Payload;
pub use payload_reading::stamp_of;
pub use ranges::LONGEST_PAYLOAD;
