//! The hashes that keys are announced with, in order.
ghost use Rattle.std.specs.Prelude.{◌≡◌, ◌<◌, ◌^◌, length, map, Contains, IfOk};
ghost use Rattle.std.specs.List.Sorted.{IsStrictlySortedBy};
ghost use Rattle.ss_review.specs.declared.assign.wanted_hash.WantedHash.{WantedHash};
ghost use Rattle.ss_review.specs.assign.StoredHashes.{KeyedHash, keyed, keyed_cmp, BeginsAsWanted, wanted_cmp, Wanted};

use crate::announced::only_hash::OnlyHash;
use crate::assign::hash_start::HashStart;
use ss_block::Hash;
use ss_block::laws::orders::hashes_rise_by_algorithm;
use ss_octets::NoMemory;
use std::alloc::Global;
use std::cmp::Ordering;

/// A hash that a key is announced with, what it begins with, and the number of the key, from 0. There is one for each
/// announced number, so the number has 32 bits: a log of 10,000,000 messages announces fewer.
#[derive(Clone, Copy)]
pub(crate) struct WantedHash<'a> {
    pub(crate) start: HashStart,
    pub(crate) key: u32,
    pub(crate) hash: &'a Hash,
}

/// How two stand by the whole hashes, then by the numbers.
// Few hashes begin alike, so this stands apart from the comparison that sorting makes most.
#[cold]
#[inline(never)]
fn whole_cmp(one: &WantedHash, other: &WantedHash) -> Ordering
    ensures { result ≡ keyed_cmp (keyed one.now) (keyed other.now) }
{
    hashes_rise_by_algorithm();
    one.hash.cmp(other.hash).then(one.key.cmp(&other.key))
}

/// How two stand: by what their hashes begin with, and where that is equal by the whole hashes, then by the numbers.
fn wanted_cmp(one: &WantedHash, other: &WantedHash) -> Ordering
    ensures { result ≡ wanted_cmp one.now other.now }
{
    let by_start = one.start.compare(&other.start);
    if by_start.is_ne() {
        return by_start;
    }
    whole_cmp(one, other)
}

/// Brings them in the order of their hashes, then of the numbers, and keeps of equal ones the first alone.
fn put_in_order(wanted: &mut Vec<WantedHash>)
    ensures rises { ((w : WantedHash) → Contains wanted.old.items w → BeginsAsWanted w)
        → IsStrictlySortedBy keyed_cmp (map keyed wanted.new.items) }
    ensures keeps { (w : KeyedHash)
        → Contains (map keyed wanted.old.items) w
        → Contains (map keyed wanted.new.items) w }
    ensures adds_none { (w : KeyedHash)
        → Contains (map keyed wanted.new.items) w
        → Contains (map keyed wanted.old.items) w }
{
    wanted.sort_unstable_by(|one, other| wanted_cmp(one, other));
    wanted.dedup_by(|one, other| wanted_cmp(one, other).is_eq());
}

/// The hashes that are there, in order.
pub(crate) fn wanted_hashes<'h>(
    alloc: Global,
    hashes: &[OnlyHash<'h>],
) -> Result<Vec<WantedHash<'h>>, NoMemory>
    ensures few { IfOk result (λ v. length hashes.now < 2 ^ 32) }
    ensures wanted { IfOk result (λ v. Wanted (map keyed v.items) hashes.now) }
{
    if hashes.len() > u32::MAX as usize {
        return Err(NoMemory);
    }
    let mut wanted = Vec::with_capacity(alloc, hashes.len())?;
    for (key, hash) in hashes.iter().enumerate() {
        if let Some(hash) = hash.get() {
            wanted.push(WantedHash {
                start: HashStart::of(hash),
                key: key as u32,
                hash,
            })?;
        }
    }
    put_in_order(&mut wanted);
    Ok(wanted)
}
