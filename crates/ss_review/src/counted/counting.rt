//! The GBC of the verified signature blocks of each session.
ghost use Rattle.std.specs.Prelude.{◌≡◌, map, IfOk, OnOk};
ghost use Rattle.std.specs.List.Sorted.{IsStrictlySortedBy};
ghost use Rattle.ss_block.specs.Order.{session_cmp};
ghost use Rattle.ss_review.specs.sessions.Verified.{Answers, is_verified};
ghost use Rattle.ss_review.specs.announced.Numbered.{session_with_joined, sessions_joined};
ghost use Rattle.ss_review.specs.sessions.Sessions as groups;
ghost use Rattle.ss_review.specs.counted.Counted.{counted_sessions};
ghost use Rattle.ss_review.specs.counted.CountedSoFar.{found_of, nothing_of, with_gbc, with_block, found_among};
ghost use Rattle.ss_review.specs.counted.CountedSoFar.{counted_in_order};

use crate::counted::counted_session::{CountedSession, CountedSessions, Gbcs};
use crate::keep::block_message::BlockMessage;
use crate::lists::ordered::put_in_order;
use crate::sessions::joined_session::JoinedSession;
use ss_block::Session;
use ss_octets::NoMemory;
use std::alloc::Global;

/// A session with the GBC of the verified signature blocks that were found of it so far.
#[derive(Drop)]
struct SessionGbcs<'s> {
    session: &'s Session,
    gbcs: Vec<u64>,
}

/// The sessions, with no block found yet.
fn nothing_found<'s>(
    alloc: Global,
    sessions: &'s [JoinedSession],
) -> Result<Vec<SessionGbcs<'s>>, NoMemory>
    ensures { IfOk result (λ v. map found_of v.items ≡ map nothing_of sessions.now) }
{
    let mut found = Vec::with_capacity(alloc, sessions.len())?;
    for session in sessions {
        found.push(SessionGbcs {
            session: &session.session,
            gbcs: Vec::new(alloc),
        })?;
    }
    Ok(found)
}

/// Adds a GBC to those of its session, among sessions in their order.
fn add_gbc(found: &mut [SessionGbcs<'_>], session: &Session, gbc: u64) -> Result<(), NoMemory>
    ensures { IsStrictlySortedBy session_cmp (map (λ f. f.session.now) found.old)
        → OnOk result (map found_of found.new ≡ map (with_gbc session.now gbc) (map found_of found.old)) }
{
    match found.binary_search_by(|known| known.session.cmp(session)) {
        Ok(index) => {
            let own = &mut found[index];
            own.gbcs.push(gbc)?;
            Ok(())
        }
        Err(_) => Ok(()),
    }
}

/// Adds the GBC of a block to those of its session, if it is a verified signature block.
fn add_block(
    found: &mut [SessionGbcs<'_>],
    block: &BlockMessage,
    is_verified: bool,
) -> Result<(), NoMemory>
    ensures { IsStrictlySortedBy session_cmp (map (λ f. f.session.now) found.old)
        → OnOk result (map found_of found.new ≡ map (with_block is_verified block.now) (map found_of found.old)) }
{
    if !is_verified {
        return Ok(());
    }
    match block.gbc() {
        Some(gbc) => add_gbc(found, block.session(), gbc),
        None => Ok(()),
    }
}

/// The sessions with the GBC of each of their verified signature blocks, in the order of the blocks. `verified` says
/// which of these are verified.
fn found_in<'s>(
    alloc: Global,
    sessions: &'s [JoinedSession],
    blocks: &[BlockMessage],
    verified: &[bool],
) -> Result<Vec<SessionGbcs<'s>>, NoMemory>
    ensures { (says : Answers)
        → map session_with_joined sessions.now ≡ sessions_joined says blocks.now
        → verified.now ≡ map (is_verified says blocks.now) blocks.now
        → IfOk result (λ v. map found_of v.items
        ≡ found_among (is_verified says blocks.now) (groups.sessions blocks.now) blocks.now) }
{
    let mut found = nothing_found(alloc, sessions)?;
    for (block, is_verified) in blocks.iter().zip(verified) {
        add_block(found.as_mut_slice(), block, *is_verified)?;
    }
    Ok(found)
}

/// A session with its values in order, each once.
fn in_order(alloc: Global, found: SessionGbcs<'_>) -> Result<CountedSession, NoMemory>
    ensures { IfOk result (λ s. s ≡ counted_in_order (found_of found.entry)) }
{
    let SessionGbcs { session, mut gbcs } = found;
    put_in_order(&mut gbcs);
    Ok(CountedSession {
        session: session.try_clone(alloc)?,
        gbcs: Gbcs::from_vec(gbcs),
    })
}

/// The sessions with their values in order, each once.
fn all_in_order(alloc: Global, found: Vec<SessionGbcs<'_>>) -> Result<CountedSessions, NoMemory>
    ensures { IfOk result (λ ss. ss ≡ map counted_in_order (map found_of found.entry.items)) }
{
    let mut counted = Vec::with_capacity(alloc, found.len())?;
    for session in found {
        counted.push(in_order(alloc, session)?)?;
    }
    Ok(CountedSessions::from_vec(counted))
}

/// The GBC of the verified signature blocks of each session. `sessions` are those of the blocks, in their order, and
/// `verified` says which of these are verified.
pub(crate) fn counted_sessions(
    alloc: Global,
    sessions: &[JoinedSession],
    blocks: &[BlockMessage],
    verified: &[bool],
) -> Result<CountedSessions, NoMemory>
    ensures { (says : Answers)
        → map session_with_joined sessions.now ≡ sessions_joined says blocks.now
        → verified.now ≡ map (is_verified says blocks.now) blocks.now
        → IfOk result (λ ss. ss ≡ counted_sessions says blocks.now) }
{
    let found = found_in(alloc, sessions, blocks, verified)?;
    all_in_order(alloc, found)
}
