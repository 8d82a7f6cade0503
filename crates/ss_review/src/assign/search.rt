//! The search for hashes, one after the other, in the hashes of stored messages.
ghost use Rattle.std.specs.Prelude.{◌≡◌, ◌<◌, ◌≤◌, ◌≢◌, length, take, slice_get, Contains, Some, None, option_and_then};
ghost use Rattle.std.specs.Prelude.{IsTrue};
ghost use Rattle.std.specs.List.{take_while};
ghost use Rattle.std.specs.Ordering.{is_lt};
ghost use Rattle.std.specs.declared.cmp.Ordering.TheVariants.{Less};
ghost use Rattle.ss_block.specs.Order.{hash_cmp};
ghost use Rattle.ss_review.specs.declared.assign.stored_hash.StoredHash.{StoredHash};
ghost use Rattle.ss_review.specs.assign.StoredHashes.{hashes_in, begun_cmp, AllBegin, IsInOrder};
ghost use Rattle.ss_review.specs.assign.StoredHashes.{is_earlier, has_hash_at};
ghost use Rattle.ss_review.specs.assign.StoredHashes.{IsBearerAt, FoundLast, IsNotBelow};

use crate::assign::hash_entry::{begun_cmp, entry_has};
use crate::assign::hash_list::HashList;
use ss_block::Hash;
use ss_block::laws::orders::hashes_rise_by_algorithm;

/// A search of a list that rises, for hashes that rise too. So the list is walked once, however many are asked for.
#[derive(Drop)]
pub(crate) struct Search<'a> {
    list: HashList<'a>,
    // All before it is below the hash that was asked for last.
    start: usize,
    last: Option<Hash>,
    found: Option<usize>,
    ghost within: { start ≤ length list.entries.now },
}

/// How many of the list, from its first on, are below the hash.
fn count_below(list: &HashList, hash: &Hash) -> usize
    ensures count { result
        ≡ length (take_while (λ e. is_lt (begun_cmp list.now.pairs.now e hash.now)) list.now.entries.now) }
    ensures bound { result ≤ length list.now.entries.now }
{
    list.entries
        .iter()
        .take_while(|entry| begun_cmp(list.pairs, entry, hash).is_lt())
        .count()
}

/// Whether what stands at one index is stored before what stands at another, if that is given.
fn is_earlier(list: &HashList, index: usize, other: Option<usize>) -> bool
    ensures { result
        ≡ is_earlier (slice_get (hashes_in list.now) index) (option_and_then (slice_get (hashes_in list.now)) other) }
{
    let Some(other) = other else {
        return true;
    };
    match (list.get(index), list.get(other)) {
        (Some(stored), Some(other)) => stored.place < other.place,
        _ => true,
    }
}

/// Whether what stands at the index has the hash.
fn has_hash_at(list: &HashList, index: usize, hash: &Hash) -> bool
    ensures within { IsTrue result → index < length list.now.entries.now }
    ensures has { AllBegin list.now → result ≡ has_hash_at (hashes_in list.now) index hash.now }
{
    if index >= list.entries.len() {
        return false;
    }
    entry_has(list.pairs, &list.entries[index], hash)
}

/// Of those with the hash, which stand from `start` on, the one that is stored first.
fn first_stored(list: &HashList, start: usize, hash: &Hash) -> Option<usize>
    ensures { IsInOrder list.now
        → ((e : StoredHash) → Contains (take start (hashes_in list.now)) e → hash_cmp e.hash hash.now ≡ Less)
        → ((e : StoredHash) → slice_get (hashes_in list.now) start ≡ Some e → hash_cmp e.hash hash.now ≢ Less)
        → IsBearerAt (hashes_in list.now) hash.now result }
{
    let mut first = None;
    let mut index = start;
    while has_hash_at(list, index, hash) {
        if is_earlier(list, index, first) {
            first = Some(index);
        }
        index += 1;
    }
    first
}

impl<'a> Search<'a> {
    /// A search of a list, of which nothing was asked yet.
    pub(crate) fn new(list: &HashList<'a>) -> Search<'a>
        ensures list { result.list ≡ list.now }
        ensures none { result.last ≡ None }
        ensures start { FoundLast (hashes_in result.list) result.start result.found result.last }
    {
        Search {
            list: *list,
            start: 0,
            last: None,
            found: None,
        }
    }

    /// Whether the hash was asked for last.
    fn was_asked(&self, hash: &Hash) -> bool
        ensures sound { IsTrue result → self.now.last ≡ Some hash.now }
        ensures complete { self.now.last ≡ Some hash.now → IsTrue result }
    {
        hashes_rise_by_algorithm();
        match &self.last {
            Some(last) => last.cmp(hash).is_eq(),
            None => false,
        }
    }

    /// Where the first message that has the hash stands in the list. No hash below one that was asked for is found.
    pub(crate) fn find(&mut self, hash: &Hash) -> Option<usize>
        ensures found { IsInOrder self.old.list
            → FoundLast (hashes_in self.old.list) self.old.start self.old.found self.old.last
            → IsNotBelow hash.now self.old.last
            → IsBearerAt (hashes_in self.old.list) hash.now result }
        ensures next { IsInOrder self.old.list
            → FoundLast (hashes_in self.old.list) self.old.start self.old.found self.old.last
            → IsNotBelow hash.now self.old.last
            → FoundLast (hashes_in self.new.list) self.new.start self.new.found (Some hash.now) }
        ensures last { self.new.last ≡ Some hash.now }
        ensures onward { self.old.start ≤ self.new.start }
        ensures list { self.new.list ≡ self.old.list }
    {
        if self.was_asked(hash) {
            return self.found;
        }
        self.start += count_below(&self.list.behind(self.start), hash);
        self.found = first_stored(&self.list, self.start, hash);
        self.last = Some(*hash);
        self.found
    }
}
