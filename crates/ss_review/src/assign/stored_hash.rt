//! A hash of a stored message.
use ss_block::Hash;

/// A hash of a stored message, with its other hash and its place. They are in the order of the hashes, then of the
/// other ones, then of the places.
#[derive(Clone, Copy, PartialEq, Eq, PartialOrd, Ord)]
pub(crate) struct StoredHash {
    pub(crate) hash: Hash,
    pub(crate) other: Hash,
    pub(crate) place: u32,
}
