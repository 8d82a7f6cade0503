//! Messages (RFC 5424, section 6): the examples of its section 6.5, stamps, escapes and drafts.
pub mod drafts;
pub mod examples;
mod stamps;
