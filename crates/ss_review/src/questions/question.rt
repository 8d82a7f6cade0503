//! What a review asks of a signature scheme.
use ss_octets::{Bytes, List};

/// A question to a signature scheme.
#[derive(Debug, Drop)]
pub enum Question {
    /// Whether it trusts the payload.
    Trust(Bytes),
    /// Whether, under the payload that stands first, the octets after it have the signature that stands last.
    Yes(Bytes, Bytes, Bytes),
}

/// Questions to a signature scheme, in their order. Contracts see the list alone.
pub type Questions = List<Question>;
