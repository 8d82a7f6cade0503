//! Which hashes the verified signature blocks announce, and for which message numbers.
ghost use Rattle.std.specs.Prelude.{◌≡◌, ◌<◌, ◌^◌, ◌++◌, ℕ, List, All, map, flat_map, length, sum_by, IfOk, OnOk};
ghost use Rattle.std.specs.List.Sorted.{IsStrictlySortedBy};
ghost use Rattle.ss_block.specs.Order.{session_cmp};
ghost use Rattle.ss_review.specs.keep.BlockMessage.{Hashes};
ghost use Rattle.ss_review.specs.declared.sessions.joined_session.JoinedSession.{JoinedSession};
ghost use Rattle.ss_review.specs.sessions.Verified.{Answers, is_verified};
ghost use Rattle.ss_review.specs.announced.Announced.{row_cmp, rows_said, rows};
ghost use Rattle.ss_review.specs.announced.Numbered.{session_with_joined, sessions_joined};
ghost use Rattle.ss_review.specs.announced.Indexed.{session_at, row_at, rows_by};

use crate::announced::announced_block::{AnnouncedBlock, first_number};
use crate::announced::announced_hash::AnnouncedHash;
use crate::announced::indexed_number::IndexedNumber;
use crate::announced::signature_blocks::signature_blocks;
use crate::keep::block_message::BlockMessage;
use crate::lists::ordered::put_in_order;
use crate::sessions::joined_session::JoinedSession;
use ss_block::SigBlock;
use ss_octets::NoMemory;
use std::alloc::Global;
use std::mem::drop;

/// Adds the hashes of a signature block, the first under its first number, each other under the next. `session` is the
/// index of its session.
fn add_hashes(rows: &mut Vec<AnnouncedHash>, session: u32, block: &SigBlock) -> Result<(), NoMemory>
    ensures known { (n : ℕ)
        → session < n
        → All (λ r. r.number.session < n) rows.old.items
        → All (λ r. r.number.session < n) rows.new.items }
    ensures rows { (js : List JoinedSession)
        → OnOk result (map (row_at js) rows.new.items
        ≡ map (row_at js) rows.old.items ++ rows_said (session_at js session) (Hashes block.now)) }
{
    block.assure_in_range();
    let group = block.header().group;
    let mut number = block.first();
    for hash in block.hashes().as_slice() {
        rows.push(AnnouncedHash {
            number: IndexedNumber {
                session,
                group,
                number,
            },
            hash: *hash,
        })?;
        number += 1;
    }
    Ok(())
}

/// How many hashes the blocks have.
fn hash_count(blocks: &[AnnouncedBlock]) -> usize
    ensures { let count = sum_by (λ b. length b.block.hashes) blocks.now in count < 2 ^ 64 → result ≡ count }
{
    let mut count: usize = 0;
    for announced in blocks {
        let own = announced.block.hashes().as_slice().len();
        count = count.saturating_add(own);
    }
    count
}

/// The rows of the blocks, in their order. Each block is let go once its rows are there.
fn rows_of(alloc: Global, blocks: Vec<AnnouncedBlock>) -> Result<Vec<AnnouncedHash>, NoMemory>
    ensures known { (n : ℕ)
        → All (λ b. b.session < n) blocks.items
        → IfOk result (λ v. All (λ r. r.number.session < n) v.items) }
    ensures rows { (js : List JoinedSession)
        → IfOk result (λ v. map (row_at js) v.items ≡ flat_map (rows_by js) blocks.items) }
{
    let mut rows = Vec::with_capacity(alloc, hash_count(blocks.as_slice()))?;
    for announced in blocks {
        add_hashes(&mut rows, announced.session, &announced.block)?;
    }
    Ok(rows)
}

/// All that is announced, each row once, in order. The blocks are put in order first, so their rows mostly stand in
/// theirs. Of each message, what isn't needed any more is let go on the way. The marks are let go before the blocks: an
/// allocator that gives memory back from its end alone keeps what was taken before them as long as them.
pub(crate) fn announced(
    alloc: Global,
    sessions: &[JoinedSession],
    blocks: Vec<BlockMessage>,
    verified: Vec<bool>,
) -> Result<Vec<AnnouncedHash>, NoMemory>
    requires { IsStrictlySortedBy session_cmp (map (λ s. s.session) sessions.now) }
    ensures known { IfOk result (λ v. All (λ r. r.number.session < length sessions.now) v.items) }
    ensures rise { IfOk result (λ v. IsStrictlySortedBy row_cmp (map (row_at sessions.now) v.items)) }
    ensures rows { (says : Answers)
        → map session_with_joined sessions.now ≡ sessions_joined says blocks.items
        → verified.items ≡ map (is_verified says blocks.items) blocks.items
        → IfOk result (λ v. map (row_at sessions.now) v.items ≡ rows says blocks.items) }
{
    let mut announced = signature_blocks(alloc, sessions, blocks, verified.as_slice())?;
    drop(verified);
    announced.sort_unstable_by_key(|block| first_number(block));
    let mut rows = rows_of(alloc, announced)?;
    put_in_order(&mut rows);
    Ok(rows)
}
