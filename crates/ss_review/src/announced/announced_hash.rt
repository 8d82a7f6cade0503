//! What is announced for message numbers.
use crate::announced::indexed_number::IndexedNumber;
use ss_block::Hash;

/// A hash that is announced for a message number. Rows are in the order of their numbers, then of their hashes.
#[derive(Clone, Copy, PartialEq, Eq, PartialOrd, Ord)]
pub(crate) struct AnnouncedHash {
    pub(crate) number: IndexedNumber,
    pub(crate) hash: Hash,
}
