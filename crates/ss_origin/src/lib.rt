//! The originator of signed messages (RFC 5848, section 4). Messages go in, and the same messages come out in order.
//! The certificate blocks of the session stand in front, and a signature block after each run of a group.
#![tactic(auto)]

mod blocks;
mod config;
mod counters;
mod fault;
mod grouping;
pub mod laws;
mod not_started;
mod originator;
mod plain;
mod ranges;
mod sealer;
mod sealing;
mod slots;
mod unsigned;

pub use config::Config;
pub use counters::{Counters, NextNumber, NextNumbers};
pub use fault::OriginFault;
pub use grouping::{Bounds, Grouping};
pub use not_started::NotStarted;
pub use originator::{Emitted, Originator};
pub use plain::plain_pri;
pub use ranges::{are_bounds, has_group};
pub use sealer::{SealFault, Sealer, Seals};
