//! The blocks of a log that are kept where payloads are known beforehand (RFC 5848, section 5.3).
pub(crate) mod agreeing;
pub(crate) mod candidates;
pub(crate) mod claimant;
pub(crate) mod claimed;
pub(crate) mod claiming;
pub(crate) mod keeping;
pub(crate) mod refusing;
