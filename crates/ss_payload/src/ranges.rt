//! How long a payload block may be (RFC 5848, section 5.3.2).

/// The most octets of a payload block: TPBL is a number of at most eight digits.
pub const LONGEST_PAYLOAD: u32 = 99_999_999;
