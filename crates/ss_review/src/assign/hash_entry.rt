//! Hashes of stored messages, each by where it is stored.
ghost use Rattle.std.specs.Prelude.{◌≡◌, slice_index_or};
ghost use Rattle.std.specs.Ordering.{is_eq};
ghost use Rattle.ss_review.specs.assign.StoredHashes.{start_by, entry_of, no_hashes, hash_of, stored_cmp, entry_cmp, begun_cmp};
ghost use Rattle.ss_review.specs.assign.Assigned.{has_hash};

use crate::assign::hash_start::HashStart;
use crate::assign::stored_hash::StoredHash;
use crate::keep::stored_message::StoredMessage;
use ss_block::laws::orders::hashes_rise_by_algorithm;
use ss_block::{Alg, Hash, HashPair};
use std::cmp::Ordering;

/// A hash of a stored message: where its two hashes stand among those that are kept, its place, and what it begins with.
/// So few hashes are looked up to put entries in order.
#[derive(Clone, Copy)]
pub(crate) struct HashEntry {
    pub(crate) pair: u32,
    pub(crate) place: u32,
    pub(crate) start: HashStart,
}

/// As the hashes of a message that isn't stored.
static NO_HASHES: HashPair = HashPair {
    sha1: [0; 20],
    sha256: [0; 32],
};

/// The two hashes that stand there, where each message that is stored has two.
fn pair_at(pairs: &[HashPair], index: usize) -> &HashPair
    ensures { result.now ≡ slice_index_or pairs.now index no_hashes }
{
    if index < pairs.len() {
        &pairs[index]
    } else {
        &NO_HASHES
    }
}

/// What the hash by this algorithm begins with.
fn start_by(pair: &HashPair, alg: Alg) -> HashStart
    ensures { result ≡ start_by alg pair.now }
{
    let octets = match alg {
        Alg::Sha1 => [pair.sha1[0], pair.sha1[1], pair.sha1[2]],
        Alg::Sha256 => [pair.sha256[0], pair.sha256[1], pair.sha256[2]],
    };
    HashStart { alg, octets }
}

/// The entry of a message by this algorithm.
pub(crate) fn entry_of(pairs: &[HashPair], message: &StoredMessage, alg: Alg) -> HashEntry
    ensures { result ≡ entry_of pairs.now alg message.now }
{
    HashEntry {
        pair: message.pair,
        place: message.place,
        start: start_by(pair_at(pairs, message.pair as usize), alg),
    }
}

/// The hash that an entry stands for, beside its other hash and its place.
pub(crate) fn hash_of(pairs: &[HashPair], entry: &HashEntry) -> StoredHash
    ensures { result ≡ hash_of pairs.now entry.now }
{
    let pair = pair_at(pairs, entry.pair as usize);
    let sha1 = Hash::Sha1(pair.sha1);
    let sha256 = Hash::Sha256(pair.sha256);
    let (hash, other) = match entry.start.alg {
        Alg::Sha1 => (sha1, sha256),
        Alg::Sha256 => (sha256, sha1),
    };
    StoredHash {
        hash,
        other,
        place: entry.place,
    }
}

/// How two entries stand by the whole hashes: by their hashes, then their other ones, then their places.
// Few entries begin alike, so this stands apart from the comparison that sorting makes most.
#[cold]
#[inline(never)]
fn whole_cmp(pairs: &[HashPair], entry: &HashEntry, other: &HashEntry) -> Ordering
    ensures { result ≡ stored_cmp (hash_of pairs.now entry.now) (hash_of pairs.now other.now) }
{
    hashes_rise_by_algorithm();
    hash_of(pairs, entry).cmp(&hash_of(pairs, other))
}

/// How two entries stand: by what their hashes begin with, and where that is equal by the whole hashes.
pub(crate) fn entry_cmp(pairs: &[HashPair], entry: &HashEntry, other: &HashEntry) -> Ordering
    ensures { result ≡ entry_cmp pairs.now entry.now other.now }
{
    let by_start = entry.start.compare(&other.start);
    if by_start.is_ne() {
        return by_start;
    }
    whole_cmp(pairs, entry, other)
}

/// How the hash of an entry stands to this one: by what they begin with, and where that is equal by the whole hashes.
pub(crate) fn begun_cmp(pairs: &[HashPair], entry: &HashEntry, hash: &Hash) -> Ordering
    ensures { result ≡ begun_cmp pairs.now entry.now hash.now }
{
    let by_start = entry.start.compare(&HashStart::of(hash));
    if by_start.is_ne() {
        return by_start;
    }
    hashes_rise_by_algorithm();
    hash_of(pairs, entry).hash.cmp(hash)
}

/// Whether one of the two hashes is this one.
fn pair_has(pair: &HashPair, hash: &Hash) -> bool
    ensures { result ≡ has_hash hash.now pair.now }
{
    match hash {
        Hash::Sha1(octets) => pair.sha1 == *octets,
        Hash::Sha256(octets) => pair.sha256 == *octets,
    }
}

/// Whether an entry has this hash. It is looked up only if they begin alike.
pub(crate) fn entry_has(pairs: &[HashPair], entry: &HashEntry, hash: &Hash) -> bool
    ensures { result ≡ is_eq (begun_cmp pairs.now entry.now hash.now) }
{
    match entry.start.compare(&HashStart::of(hash)) {
        Ordering::Equal => pair_has(pair_at(pairs, entry.pair as usize), hash),
        _ => false,
    }
}
