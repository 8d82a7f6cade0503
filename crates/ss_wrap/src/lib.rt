//! A message that can't be signed, inside a message of its own (RFC 5424, section 6): so that an originator (RFC 5848,
//! section 4) can sign every text that a log has.
#![tactic(auto)]

pub mod laws;
mod preparing;
mod unwrapping;
mod wrapping;

pub use preparing::needs_wrap;
pub use ss_message::NoMemory;
pub use unwrapping::original;
pub use wrapping::wrap;
