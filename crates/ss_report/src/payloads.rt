//! How often the payload of a session is written.

/// How often an output of questions writes a payload that several of them are about.
#[derive(Clone, Copy, Debug, PartialEq, Eq)]
pub enum Payloads {
    /// In each question about it.
    InEach,
    /// Once, with an index, which stands for it in each question about it.
    Once,
}
