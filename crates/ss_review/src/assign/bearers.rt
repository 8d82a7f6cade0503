//! Where the bearers of announced hashes stand among the hashes of stored messages.
ghost use Rattle.std.specs.Prelude.{◌≡◌, ◌<◌, ◌^◌, ℕ, Option, Some, None, length, slice_get, IfOk};
ghost use Rattle.ss_block.specs.declared.hash.Hash.{Hash};
ghost use Rattle.ss_review.specs.assign.StoredHashes.{hashes_in, IsInOrder, IsFoundFor};

use crate::announced::only_hash::OnlyHash;
use crate::assign::hash_list::HashList;
use crate::assign::search::Search;
use crate::assign::wanted_hash::wanted_hashes;
use ss_octets::NoMemory;
use std::alloc::Global;

/// As many times nothing.
fn nothing(alloc: Global, count: usize) -> Result<Vec<Option<u32>>, NoMemory>
    ensures length { IfOk result (λ v. length v.items ≡ count) }
    ensures nothing { IfOk result (λ v. (i : ℕ) (o : Option ℕ) → slice_get v.items i ≡ Some o → o ≡ None) }
{
    let mut found = Vec::with_capacity(alloc, count)?;
    found.resize(count, None)?;
    Ok(found)
}

/// The same in 32 bits, if it fits there.
fn narrowed(at: Option<usize>) -> Option<u32>
    ensures { ((i : ℕ) → at ≡ Some i → i < 2 ^ 32) → result ≡ at }
{
    match at {
        Some(at) if at <= u32::MAX as usize => Some(at as u32),
        _ => None,
    }
}

/// Finds, for each hash that is there, where its bearer stands in the list. That is given by 32 bits: the list of a log of
/// 10,000,000 messages is shorter.
pub(crate) fn find_bearers(
    alloc: Global,
    list: &HashList,
    hashes: &[OnlyHash<'_>],
) -> Result<Vec<Option<u32>>, NoMemory>
    ensures few { IfOk result (λ v. length hashes.now < 2 ^ 32) }
    ensures length { IfOk result (λ v. length v.items ≡ length hashes.now) }
    ensures found { IsInOrder list.now
        → IfOk result (λ v. (i : ℕ) (o : Option Hash) (at : Option ℕ)
        → slice_get hashes.now i ≡ Some o
        → slice_get v.items i ≡ Some at
        → IsFoundFor (hashes_in list.now) o at) }
{
    if list.entries.len() > u32::MAX as usize {
        return Err(NoMemory);
    }
    let wanted = wanted_hashes(alloc, hashes)?;
    let mut found = nothing(alloc, hashes.len())?;
    let mut search = Search::new(list);
    for one in wanted.as_slice() {
        let at = narrowed(search.find(one.hash));
        let key = one.key as usize;
        if key < found.len() {
            found[key] = at;
        }
    }
    Ok(found)
}
