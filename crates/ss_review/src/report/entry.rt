//! What a review reports about the numbers of a group.
use ss_octets::List;

/// Why no message is listed for an announced number.
#[derive(Clone, Copy, Debug, PartialEq, Eq)]
pub enum Why {
    /// No stored message is left for the hash that was announced.
    Lost,
    /// Two different hashes were announced.
    Disputed,
}

/// What a review reports about a message number, or of several. Numbers are 1 to 9,999,999,999.
#[derive(Clone, Copy, Debug, PartialEq, Eq)]
pub enum Entry {
    /// The number is announced, and the message at `place`, counted from 0, is its message.
    Listed { number: u64, place: u32 },
    /// The number is announced, and no message is listed for it.
    Gap { number: u64, why: Why },
    /// None of the numbers from `first` to `last` is announced, though a greater one is.
    Hole { first: u64, last: u64 },
}

/// What a review reports about the numbers of a group, in their order. Contracts see the list alone.
pub type Entries = List<Entry>;
