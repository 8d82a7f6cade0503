//! Which blocks of a log are verified, and the places of those that aren't (RFC 5848, section 7).
ghost use Rattle.std.specs.Prelude.{◌≡◌, ◌++◌, ◌∷◌, [], ℕ, List, Contains, Bool, not, map, filter, Ok, IfOk, OnOk, if◌then◌else◌};
ghost use Rattle.ss_review.specs.keep.BlockMessage.{BlockMessage};
ghost use Rattle.ss_review.specs.sessions.Verified.{answers, is_valid_in, is_verified};
ghost use Rattle.ss_review.specs.questions.Questions.{question_about, IsAskableIn};
ghost use Rattle.ss_review.specs.announced.Numbered.{session_with_joined, sessions_joined};
ghost use Rattle.ss_review.specs.sessions.FoundBlocks.{TellsEqualsAlike, KeepsWhatHolds};

use crate::keep::block_message::BlockMessage;
use crate::report::places::Places;
use crate::report::session_report::SessionState;
use crate::sessions::accepting::valid_once;
use crate::sessions::found_blocks::FoundBlocks;
use crate::sessions::joined_session::JoinedSession;
use crate::sessions::verifier::Judge;
use ss_octets::{Bytes, NoMemory};
use std::alloc::Global;

/// Whether the block is valid under the payload, if its session has one. `found` is what was found of the blocks of
/// such sessions so far.
fn is_valid_in<'a, J: Judge>(
    alloc: Global,
    judge: &J,
    joined: &Result<Bytes, SessionState>,
    found: &mut FoundBlocks<'a>,
    block: &'a BlockMessage,
) -> Result<bool, NoMemory>
    requires sound { J.sound judge.now }
    requires askable { (payload : List ℕ)
        → joined.now ≡ Ok payload
        → J.askable judge.now (question_about payload block.now) }
    ensures valid { (f : BlockMessage → Bool)
        → KeepsWhatHolds f found.old
        → f block.now ≡ is_valid_in (answers J.trusted J.valid judge.now) joined.now block.now
        → IfOk result (λ b. b ≡ f block.now) }
    ensures kept { (f : BlockMessage → Bool)
        → TellsEqualsAlike f
        → KeepsWhatHolds f found.old
        → f block.now ≡ is_valid_in (answers J.trusted J.valid judge.now) joined.now block.now
        → OnOk result (KeepsWhatHolds f found.new) }
{
    match joined {
        Ok(payload) => valid_once(alloc, judge, payload.as_slice(), found, block),
        Err(_) => Ok(false),
    }
}

/// Whether the block is verified. `sessions` are those of its log, in their order, and `found` is what was found of its
/// blocks so far.
fn is_verified<'a, J: Judge>(
    alloc: Global,
    judge: &J,
    sessions: &[JoinedSession],
    found: &mut FoundBlocks<'a>,
    block: &'a BlockMessage,
) -> Result<bool, NoMemory>
    requires sound { J.sound judge.now }
    requires askable { IsAskableIn J.askable judge.now sessions.now block.now }
    ensures verified { (bs : List BlockMessage)
        → map session_with_joined sessions.now ≡ sessions_joined (answers J.trusted J.valid judge.now) bs
        → KeepsWhatHolds (is_verified (answers J.trusted J.valid judge.now) bs) found.old
        → IfOk result (λ b. b ≡ is_verified (answers J.trusted J.valid judge.now) bs block.now) }
    ensures kept { (bs : List BlockMessage)
        → map session_with_joined sessions.now ≡ sessions_joined (answers J.trusted J.valid judge.now) bs
        → KeepsWhatHolds (is_verified (answers J.trusted J.valid judge.now) bs) found.old
        → OnOk result (KeepsWhatHolds (is_verified (answers J.trusted J.valid judge.now) bs) found.new) }
{
    match sessions.binary_search_by(|known| known.session.cmp(block.session())) {
        Ok(index) => is_valid_in(alloc, judge, &sessions[index].joined, found, block),
        Err(_) => Ok(false),
    }
}

/// Which of these blocks are verified, one after the other. `sessions` are theirs, in their order.
pub(crate) fn verified<J: Judge>(
    alloc: Global,
    judge: &J,
    sessions: &[JoinedSession],
    blocks: &[BlockMessage],
) -> Result<Vec<bool>, NoMemory>
    requires sound { J.sound judge.now }
    requires askable { (b : BlockMessage)
        → Contains blocks.now b
        → IsAskableIn J.askable judge.now sessions.now b }
    ensures { map session_with_joined sessions.now ≡ sessions_joined (answers J.trusted J.valid judge.now) blocks.now
        → IfOk result (λ v. v.items ≡ map (is_verified (answers J.trusted J.valid judge.now) blocks.now) blocks.now) }
{
    let mut verified = Vec::with_capacity(alloc, blocks.len())?;
    let mut found = FoundBlocks::new(alloc);
    for block in blocks {
        verified.push(is_verified(alloc, judge, sessions, &mut found, block)?)?;
    }
    Ok(verified)
}

/// Adds the place of a block, unless it is marked.
fn add_unmarked(
    places: &mut Vec<u32>,
    block: &BlockMessage,
    is_marked: bool,
) -> Result<(), NoMemory>
    ensures { OnOk result (places.new.items ≡ places.old.items ++ (if is_marked then [] else block.now.place ∷ [])) }
{
    if is_marked {
        return Ok(());
    }
    places.push(block.place())?;
    Ok(())
}

/// The places of the blocks that aren't marked.
pub(crate) fn unmarked(
    alloc: Global,
    blocks: &[BlockMessage],
    marks: &[bool],
) -> Result<Places, NoMemory>
    ensures { (f : BlockMessage → Bool)
        → marks.now ≡ map f blocks.now
        → IfOk result (λ p. p ≡ map (λ b. b.place) (filter (λ b. not (f b)) blocks.now)) }
{
    let mut places = Vec::new(alloc);
    for (block, is_marked) in blocks.iter().zip(marks) {
        add_unmarked(&mut places, block, *is_marked)?;
    }
    Ok(Places::from_vec(places))
}
