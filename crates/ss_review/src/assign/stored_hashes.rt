//! The hashes of stored messages, in order.
ghost use Rattle.std.specs.Prelude.{◌≡◌, ◌++◌, List, map, Contains, IfOk, OnOk};
ghost use Rattle.std.specs.List.{list_any};
ghost use Rattle.std.specs.List.Sorted.{IsStrictlySortedBy};
ghost use Rattle.ss_review.specs.declared.assign.hash_entry.HashEntry.{HashEntry};
ghost use Rattle.ss_review.specs.declared.assign.stored_hash.StoredHash.{StoredHash};
ghost use Rattle.ss_review.specs.declared.keep.message.NormalMessage.{NormalMessage};
ghost use Rattle.ss_review.specs.keep.Stored.{Tells};
ghost use Rattle.ss_review.specs.assign.StoredHashes.{BeginsAsItsHash, is_by, entry_of, needed_entries, stored_cmp};
ghost use Rattle.ss_review.specs.assign.StoredHashes.{listed, Lists};

use crate::announced::only_hash::OnlyHash;
use crate::assign::hash_entry::{HashEntry, entry_cmp, entry_of};
use crate::keep::stored_message::StoredMessage;
use ss_block::{Alg, Hash, HashPair};
use ss_octets::NoMemory;
use std::alloc::Global;

/// Whether the hash is there and by this algorithm.
fn is_by(hash: &OnlyHash<'_>, alg: Alg) -> bool
    ensures { result ≡ is_by alg hash.now }
{
    match (hash.get(), alg) {
        (Some(Hash::Sha1(_)), Alg::Sha1) => true,
        (Some(Hash::Sha256(_)), Alg::Sha256) => true,
        _ => false,
    }
}

/// Whether a hash by this algorithm is among these.
fn has_one_by(hashes: &[OnlyHash<'_>], alg: Alg) -> bool
    ensures { result ≡ list_any (is_by alg) hashes.now }
{
    hashes.iter().any(|hash| is_by(hash, alg))
}

/// Adds the entries of the messages by this algorithm.
fn add_entries(
    list: &mut Vec<HashEntry>,
    pairs: &[HashPair],
    messages: &[StoredMessage],
    alg: Alg,
) -> Result<(), NoMemory>
    ensures { OnOk result (list.new.items ≡ list.old.items ++ map (entry_of pairs.now alg) messages.now) }
{
    list.reserve(messages.len())?;
    for message in messages {
        list.push(entry_of(pairs, message, alg))?;
    }
    Ok(())
}

/// Adds the entries of the messages by this algorithm, if one of the announced hashes is by it.
fn add_needed(
    list: &mut Vec<HashEntry>,
    pairs: &[HashPair],
    messages: &[StoredMessage],
    announced: &[OnlyHash<'_>],
    alg: Alg,
) -> Result<(), NoMemory>
    ensures { OnOk result (list.new.items ≡ list.old.items ++ needed_entries pairs.now alg announced.now messages.now) }
{
    if has_one_by(announced, alg) {
        add_entries(list, pairs, messages, alg)?;
    }
    Ok(())
}

/// Brings the entries in the order of what they stand for, and keeps of equal ones the first alone.
fn put_in_order(list: &mut Vec<HashEntry>, pairs: &[HashPair])
    ensures begin { ((e : HashEntry) → Contains list.old.items e → BeginsAsItsHash pairs.now e)
        → (e : HashEntry) → Contains list.new.items e → BeginsAsItsHash pairs.now e }
    ensures rises { ((e : HashEntry) → Contains list.old.items e → BeginsAsItsHash pairs.now e)
        → IsStrictlySortedBy stored_cmp (listed pairs.now list.new.items) }
    ensures keeps { (e : StoredHash)
        → Contains (listed pairs.now list.old.items) e
        → Contains (listed pairs.now list.new.items) e }
    ensures adds_none { (e : StoredHash)
        → Contains (listed pairs.now list.new.items) e
        → Contains (listed pairs.now list.old.items) e }
{
    list.sort_unstable_by(|entry, other| entry_cmp(pairs, entry, other));
    list.dedup_by(|entry, other| entry_cmp(pairs, entry, other).is_eq());
}

/// The hashes of these messages in order, by each algorithm that one of the announced hashes is by.
pub(crate) fn stored_hashes(
    alloc: Global,
    pairs: &[HashPair],
    messages: &[StoredMessage],
    announced: &[OnlyHash<'_>],
) -> Result<Vec<HashEntry>, NoMemory>
    ensures begin { IfOk result (λ v. (e : HashEntry) → Contains v.items e → BeginsAsItsHash pairs.now e) }
    ensures lists { (ms : List NormalMessage)
        → Tells pairs.now messages.now ms
        → IfOk result (λ v. Lists (listed pairs.now v.items) ms announced.now) }
{
    let mut list = Vec::new(alloc);
    add_needed(&mut list, pairs, messages, announced, Alg::Sha1)?;
    add_needed(&mut list, pairs, messages, announced, Alg::Sha256)?;
    put_in_order(&mut list, pairs);
    Ok(list)
}
