//! The message numbers that verified blocks announce, and the hash of each.
pub(crate) mod announced;
pub(crate) mod announced_block;
pub(crate) mod announced_hash;
pub(crate) mod indexed_number;
pub(crate) mod message_number;
pub(crate) mod only_hash;
pub(crate) mod only_hashes;
pub(crate) mod signature_blocks;
