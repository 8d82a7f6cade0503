//! Blocks (RFC 5848, sections 4 and 5): blocks written, payloads, and fragments joined.
mod fields;
mod joining;
mod payloads;
mod room;
pub mod writing;
