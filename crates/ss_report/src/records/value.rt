//! The value of a field.

/// The value of a field.
#[derive(Clone, Copy)]
pub(crate) enum Value<'v> {
    /// A number in decimal.
    Number(u64),
    /// A number of up to 128 bits in decimal.
    Wide(u128),
    /// A word in which no octet has to be escaped.
    Word(&'v [u8]),
    /// Any text.
    Text(&'v [u8]),
    /// Octets in strict base64 (RFC 4648, section 4).
    Base64(&'v [u8]),
}
