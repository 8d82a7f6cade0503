//! The hashes of a signature block.
use crate::hash::Hash;
use ss_octets::List;

/// Hashes of messages, in order. Contracts see the list alone.
pub type Hashes = List<Hash>;
