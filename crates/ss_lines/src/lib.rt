//! Lines that are read octet by octet, so that one can be answered before more is read.
#![tactic(auto)]

mod reading;

pub use reading::{LineEnd, next_line};
