//! Which stored message is listed under each announced number.
pub(crate) mod bearers;
pub(crate) mod counters;
pub(crate) mod hash_entry;
pub(crate) mod hash_list;
pub(crate) mod hash_start;
pub(crate) mod index;
pub(crate) mod places;
pub(crate) mod search;
pub(crate) mod stored_hash;
pub(crate) mod stored_hashes;
pub(crate) mod wanted_hash;
