//! Laws that the program doesn't need: what holds of runs that sign, of chains of originators, and of the logs and
//! reports that come of them. Each module has a subject, and `cases` in it has small logs that are computed.
#![tactic(auto)]

pub mod ahead;
pub mod carry;
pub mod files;
pub mod nights;
pub mod parts;
pub mod plans;
pub mod runs;
pub mod strangers;
