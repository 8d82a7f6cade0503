//! Which stored message is listed under each announced number.
ghost use Rattle.std.specs.Prelude.{◌≡◌, ℕ, ◌+◌, ◌<◌, ◌≤◌, ◌^◌, ◌++◌, ◌∷◌, [], List, Option, Some, Contains, length};
ghost use Rattle.std.specs.Prelude.{map, slice_get, IfOk};
ghost use Rattle.std.specs.Ordering.{nat_cmp};
ghost use Rattle.std.specs.List.Sorted.{IsStrictlySortedBy};
ghost use Rattle.ss_block.specs.declared.hash.Hash.{Hash};
ghost use Rattle.ss_review.specs.declared.keep.message.NormalMessage.{NormalMessage};
ghost use Rattle.ss_review.specs.keep.Stored.{Tells};
ghost use Rattle.ss_review.specs.assign.Assigning.{pair_wanted, pairs_wanted, bearer_wanted, bearers_wanted};
ghost use Rattle.ss_review.specs.assign.Assigning.{place_after, assigned_all};
ghost use Rattle.ss_review.specs.assign.StoredHashes.{hashes_in, Lists, IsFoundFor, same_hashes, place_beside, Tallies};

use crate::announced::only_hash::OnlyHash;
use crate::assign::bearers::find_bearers;
use crate::assign::counters::Counters;
use crate::assign::hash_entry::hash_of;
use crate::assign::hash_list::HashList;
use crate::assign::stored_hash::StoredHash;
use crate::assign::stored_hashes::stored_hashes;
use crate::keep::stored_message::StoredMessage;
use ss_block::HashPair;
use ss_block::laws::orders::hashes_rise_by_algorithm;
use ss_octets::NoMemory;
use std::alloc::Global;

/// Whether both have the same two hashes.
fn same_hashes(stored: &StoredHash, other: &StoredHash) -> bool
    ensures { result ≡ same_hashes stored.now other.now }
{
    hashes_rise_by_algorithm();
    stored
        .hash
        .cmp(&other.hash)
        .then(stored.other.cmp(&other.other))
        .is_eq()
}

/// The place of a message with the hashes of the one that stands there in the list: with this number, from 0.
fn place_behind(list: &HashList, at: usize, first: &StoredHash, number: u32) -> Option<u32>
    requires { at ≤ length list.now.entries.now }
    ensures { result ≡ place_beside first.now (slice_get (hashes_in list.now) (at + number)) }
{
    match list.behind(at).get(number as usize) {
        Some(stored) if same_hashes(&stored, first) => Some(stored.place),
        _ => None,
    }
}

/// The same of the hash that stands there. Most numbers are 0, and then no hash is looked up.
fn place_from(list: &HashList, at: usize, number: u32) -> Option<u32>
    requires { at < length list.now.entries.now }
    ensures { (first : StoredHash)
        → slice_get (hashes_in list.now) at ≡ Some first
        → result ≡ place_beside first (slice_get (hashes_in list.now) (at + number)) }
{
    if number == 0 {
        return Some(list.place(at));
    }
    let first = hash_of(list.pairs, &list.entries[at]);
    place_behind(list, at, &first, number)
}

/// The place of the next key, whose bearer stands there in the list, or none. It is counted as wanted once more.
fn next_place(list: &HashList, counters: &mut Counters, at: Option<u32>) -> Option<u32>
    ensures place { (ms : List NormalMessage) (announced before : List (Option Hash)) (hash : Option Hash)
        → Lists (hashes_in list.now) ms announced
        → Contains announced hash
        → IsStrictlySortedBy nat_cmp (map (λ m. m.place) ms)
        → IsFoundFor (hashes_in list.now) hash at
        → Tallies counters.old (bearers_wanted ms before)
        → result ≡ place_after ms (pairs_wanted ms before) (pair_wanted ms hash) }
    ensures tallies { (ms : List NormalMessage) (announced before : List (Option Hash)) (hash : Option Hash)
        → Lists (hashes_in list.now) ms announced
        → Contains announced hash
        → IsStrictlySortedBy nat_cmp (map (λ m. m.place) ms)
        → IsFoundFor (hashes_in list.now) hash at
        → Tallies counters.old (bearers_wanted ms before)
        → ((m : NormalMessage) → Contains ms m → m.place < length counters.old.counts.items)
        → length before + 1 < 2 ^ 32
        → Tallies counters.new (bearers_wanted ms before ++ bearer_wanted ms hash ∷ []) }
    ensures length { length counters.new.counts.items ≡ length counters.old.counts.items }
{
    let Some(at) = at else {
        return None;
    };
    let at = at as usize;
    if at >= list.entries.len() {
        return None;
    }
    let number = counters.count(list.place(at));
    place_from(list, at, number)
}

/// The places that the announced keys are assigned, in their order, from the hash that each is announced with, or none
/// where none counts. The places of the messages rise.
pub(crate) fn assigned_places(
    alloc: Global,
    pairs: &[HashPair],
    messages: &[StoredMessage],
    hashes: &[OnlyHash<'_>],
) -> Result<Vec<Option<u32>>, NoMemory>
    ensures { (ms : List NormalMessage)
        → Tells pairs.now messages.now ms
        → IsStrictlySortedBy nat_cmp (map (λ m. m.place) ms)
        → IfOk result (λ places. places.items ≡ assigned_all ms hashes.now) }
{
    let entries = stored_hashes(alloc, pairs, messages, hashes)?;
    let list = HashList {
        pairs,
        entries: entries.as_slice(),
    };
    let found = find_bearers(alloc, &list, hashes)?;
    let mut counters = Counters::new(alloc, messages)?;
    let mut places = Vec::with_capacity(alloc, hashes.len())?;
    for at in found.as_slice() {
        places.push(next_place(&list, &mut counters, *at))?;
    }
    Ok(places)
}
