//! How a line of an output is written.

/// How each line of an output is written.
#[derive(Clone, Copy, Debug, PartialEq, Eq)]
pub enum Notation {
    /// As words, with one SP between two.
    Plain,
    /// As a JSON object (RFC 8259).
    Json,
}
