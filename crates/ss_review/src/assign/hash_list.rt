//! The hashes of stored messages, as they are read.
ghost use Rattle.std.specs.Prelude.{◌≡◌, ◌+◌, ◌^◌, ◌<◌, ◌≤◌, length, drop, slice_get, Some};
ghost use Rattle.ss_review.specs.declared.assign.stored_hash.StoredHash.{StoredHash};
ghost use Rattle.ss_review.specs.assign.StoredHashes.{hashes_in};

use crate::assign::hash_entry::{HashEntry, hash_of};
use crate::assign::stored_hash::StoredHash;
use ss_block::HashPair;

/// Hashes of stored messages: entries, and the pairs of hashes that they name.
#[derive(Clone, Copy)]
pub(crate) struct HashList<'a> {
    pub(crate) pairs: &'a [HashPair],
    pub(crate) entries: &'a [HashEntry],
}

impl<'a> HashList<'a> {
    /// The hash that stands there, if one does.
    pub(crate) fn get(&self, index: usize) -> Option<StoredHash>
        ensures { result ≡ slice_get (hashes_in self.now) index }
    {
        let entry = self.entries.get(index)?;
        Some(hash_of(self.pairs, entry))
    }

    /// The place of the message whose hash stands there.
    pub(crate) fn place(&self, index: usize) -> u32
        requires { index < length self.now.entries.now }
        ensures { (stored : StoredHash)
            → slice_get (hashes_in self.now) index ≡ Some stored
            → result ≡ stored.place }
    {
        self.entries[index].place
    }

    /// The hashes from there on.
    pub(crate) fn behind(&self, start: usize) -> HashList<'a>
        requires { start ≤ length self.now.entries.now }
        ensures pairs { result.pairs.now ≡ self.now.pairs.now }
        ensures entries { result.entries.now ≡ drop start self.now.entries.now }
        ensures hashes { hashes_in result ≡ drop start (hashes_in self.now) }
        ensures fits { length self.now.entries.now < 2 ^ 64 }
        ensures len { length result.entries.now + start ≡ length self.now.entries.now }
    {
        let (_, entries) = self.entries.split_at(start);
        HashList {
            pairs: self.pairs,
            entries,
        }
    }
}
