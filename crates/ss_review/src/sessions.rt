//! The sessions of a log: their blocks, their payloads, and which of their blocks are verified (RFC 5848, section 7).
pub(crate) mod accepting;
pub(crate) mod claim;
pub(crate) mod found_blocks;
pub(crate) mod joined_session;
pub(crate) mod joining;
pub(crate) mod sectioning;
pub(crate) mod span;
pub(crate) mod states;
pub(crate) mod verified;
pub(crate) mod verifier;
