//! Which blocks of a log are kept, by the payloads that claim its sessions (RFC 5848, section 5.3).
ghost use Rattle.std.specs.Prelude.{◌≡◌, ◌||◌, ◌++◌, ◌∷◌, [], ℕ, Bool, List, All, Contains, map, filter, IfOk, OnOk};
ghost use Rattle.std.specs.Prelude.{if◌then◌else◌};
ghost use Rattle.std.specs.List.{list_any};
ghost use Rattle.ss_review.specs.keep.BlockMessage.{BlockMessage};
ghost use Rattle.ss_review.specs.declared.pinned.claimant.Claimant.{Claimant};
ghost use Rattle.ss_review.specs.declared.pinned.claimant.ClaimedSession.{ClaimedSession};
ghost use Rattle.ss_review.specs.questions.Questions.{question_about, AreAskable};
ghost use Rattle.ss_review.specs.report.Verdict.{is_none};
ghost use Rattle.ss_review.specs.sessions.Sectioned.{sections};
ghost use Rattle.ss_review.specs.sessions.Sessions.{of_session};
ghost use Rattle.ss_review.specs.sessions.Verified.{answers};
ghost use Rattle.ss_review.specs.pinned.Finding.{payloads_of, session_claimed, section_claimed, AreAskableUnder};
ghost use Rattle.ss_review.specs.pinned.Finding.{AreFoundRight, IsAskableBlock, IsFoundRight};
ghost use Rattle.ss_review.specs.pinned.Pinned.{is_signature, keeps, kept, left_out, pinned_questions, speaks_for};

use crate::keep::block_message::BlockMessage;
use crate::pinned::agreeing::agrees_in;
use crate::pinned::claimant::{Claimant, ClaimedSession};
use crate::pinned::claimed::claimed_sessions;
use crate::sessions::accepting::is_valid;
use crate::sessions::claim::Claim;
use crate::sessions::verified::unmarked;
use crate::sessions::verifier::Judge;
use ss_octets::{Bytes, NoMemory};
use std::alloc::Global;

/// Whether the block speaks for the claimant's payload. The judge is asked only if nothing was found of the block.
fn speaks<'a, J: Judge>(
    alloc: Global,
    judge: &J,
    claimant: &Claimant<'a>,
    block: &'a BlockMessage,
) -> Result<bool, NoMemory>
    requires sound { J.sound judge.now }
    requires askable { J.askable judge.now (question_about claimant.now.payload.now block.now) }
    ensures { IsFoundRight (answers J.trusted J.valid judge.now) claimant.now
        → IfOk result (λ b. b
        ≡ speaks_for (answers J.trusted J.valid judge.now) claimant.now.payload.now block.now) }
{
    if !agrees_in(alloc, claimant.payload.as_slice(), block)? {
        return Ok(false);
    }
    match claimant.found.get(&Claim::of(block)) {
        Some(is_valid) => Ok(is_valid),
        None => is_valid(alloc, judge, claimant.payload.as_slice(), block),
    }
}

/// Whether the block speaks for the payload of some of the claimants.
fn speaks_for_some<'a, J: Judge>(
    alloc: Global,
    judge: &J,
    claimants: &[Claimant<'a>],
    block: &'a BlockMessage,
) -> Result<bool, NoMemory>
    requires sound { J.sound judge.now }
    requires askable { (c : Claimant)
        → Contains claimants.now c
        → J.askable judge.now (question_about c.payload.now block.now) }
    ensures { All (IsFoundRight (answers J.trusted J.valid judge.now)) claimants.now
        → IfOk result (λ b. b
        ≡ list_any (λ p. speaks_for (answers J.trusted J.valid judge.now) p block.now) (payloads_of claimants.now)) }
{
    for claimant in claimants {
        if speaks(alloc, judge, claimant, block)? {
            return Ok(true);
        }
    }
    Ok(false)
}

/// Whether the block is kept, where these claim its session.
fn keeps_by<'a, J: Judge>(
    alloc: Global,
    judge: &J,
    claimants: &[Claimant<'a>],
    block: &'a BlockMessage,
) -> Result<bool, NoMemory>
    requires sound { J.sound judge.now }
    requires askable { (c : Claimant)
        → Contains claimants.now c
        → J.askable judge.now (question_about c.payload.now block.now) }
    ensures { All (IsFoundRight (answers J.trusted J.valid judge.now)) claimants.now
        → IfOk result (λ b. b
        ≡ (is_signature block.now.said || is_none (payloads_of claimants.now)
        || list_any (λ p. speaks_for (answers J.trusted J.valid judge.now) p block.now) (payloads_of claimants.now))) }
{
    if block.is_signature() || claimants.is_empty() {
        return Ok(true);
    }
    speaks_for_some(alloc, judge, claimants, block)
}

/// Whether the block is kept. `sessions` are those of its log, in their order.
fn keeps<'a, J: Judge>(
    alloc: Global,
    judge: &J,
    sessions: &[ClaimedSession<'a>],
    block: &'a BlockMessage,
) -> Result<bool, NoMemory>
    requires sound { J.sound judge.now }
    requires askable { IsAskableBlock J.askable judge.now sessions.now block.now }
    ensures { (ps : List (List ℕ)) (bs : List BlockMessage)
        → Contains bs block.now
        → map session_claimed sessions.now
        ≡ map (section_claimed (answers J.trusted J.valid judge.now) ps) (sections bs)
        → All (AreFoundRight (answers J.trusted J.valid judge.now)) sessions.now
        → IfOk result (λ b. b
        ≡ keeps (answers J.trusted J.valid judge.now) ps (of_session bs block.now.session) block.now) }
{
    match sessions.binary_search_by(|known| known.session.cmp(block.session())) {
        Ok(index) => keeps_by(alloc, judge, sessions[index].claimants.as_slice(), block),
        // `sessions` has that of each block.
        Err(_) => Ok(true),
    }
}

/// Which of these blocks are kept, one after the other. `sessions` are theirs, in their order.
fn marks<'a, J: Judge>(
    alloc: Global,
    judge: &J,
    sessions: &[ClaimedSession<'a>],
    blocks: &'a [BlockMessage],
) -> Result<Vec<bool>, NoMemory>
    requires sound { J.sound judge.now }
    requires askable { (b : BlockMessage)
        → Contains blocks.now b
        → IsAskableBlock J.askable judge.now sessions.now b }
    ensures { (ps : List (List ℕ))
        → map session_claimed sessions.now
        ≡ map (section_claimed (answers J.trusted J.valid judge.now) ps) (sections blocks.now)
        → All (AreFoundRight (answers J.trusted J.valid judge.now)) sessions.now
        → IfOk result (λ v. v.items
        ≡ map (λ b. keeps (answers J.trusted J.valid judge.now) ps (of_session blocks.now b.session) b) blocks.now) }
{
    let mut marks = Vec::with_capacity(alloc, blocks.len())?;
    for block in blocks {
        marks.push(keeps(alloc, judge, sessions, block)?)?;
    }
    Ok(marks)
}

/// Which of these blocks are kept where these payloads are known, one after the other.
fn marked<J: Judge>(
    alloc: Global,
    judge: &J,
    payloads: &[Bytes],
    blocks: &[BlockMessage],
) -> Result<Vec<bool>, NoMemory>
    requires sound { J.sound judge.now }
    requires askable { AreAskableUnder J.askable judge.now payloads.now (sections blocks.now) }
    ensures { IfOk result (λ v. v.items
        ≡ map (λ b. keeps (answers J.trusted J.valid judge.now) payloads.now (of_session blocks.now b.session) b) blocks.now) }
{
    let sessions = claimed_sessions(alloc, judge, payloads, blocks)?;
    marks(alloc, judge, sessions.as_slice(), blocks)
}

/// The blocks that are marked. Each other one is let go.
fn with_mark(
    alloc: Global,
    blocks: Vec<BlockMessage>,
    marks: &[bool],
) -> Result<Vec<BlockMessage>, NoMemory>
    ensures { (f : BlockMessage → Bool)
        → marks.now ≡ map f blocks.items
        → IfOk result (λ v. v.items ≡ filter f blocks.items) }
{
    let mut kept = Vec::new(alloc);
    let mut left = marks;
    for block in blocks {
        match left.split_first() {
            Some((is_marked, rest)) => {
                left = rest;
                push_if(&mut kept, block, *is_marked)?;
            }
            None => {}
        }
    }
    Ok(kept)
}

/// Adds the block, if it is marked.
fn push_if(
    blocks: &mut Vec<BlockMessage>,
    block: BlockMessage,
    is_marked: bool,
) -> Result<(), NoMemory>
    ensures { OnOk result (blocks.new.items ≡ blocks.old.items ++ (if is_marked then block ∷ [] else [])) }
{
    if is_marked {
        blocks.push(block)?;
    }
    Ok(())
}

/// The blocks of a log that are kept, and the places of the others.
#[derive(Drop)]
pub(crate) struct KeptBlocks {
    pub(crate) kept: Vec<BlockMessage>,
    pub(crate) left_out: Vec<u32>,
}

/// Which of these blocks are kept where these payloads are known.
pub(crate) fn kept_blocks<J: Judge>(
    alloc: Global,
    judge: &J,
    payloads: &[Bytes],
    blocks: Vec<BlockMessage>,
) -> Result<KeptBlocks, NoMemory>
    requires sound { J.sound judge.now }
    requires askable { AreAskable J.askable judge.now (pinned_questions payloads.now blocks.items) }
    ensures kept { IfOk result (λ k. k.kept.items
        ≡ kept (answers J.trusted J.valid judge.now) payloads.now blocks.items) }
    ensures left_out { IfOk result (λ k. k.left_out.items
        ≡ left_out (answers J.trusted J.valid judge.now) payloads.now blocks.items) }
{
    let marks = marked(alloc, judge, payloads, blocks.as_slice())?;
    let left_out = unmarked(alloc, blocks.as_slice(), marks.as_slice())?.into_vec();
    let kept = with_mark(alloc, blocks, marks.as_slice())?;
    Ok(KeptBlocks { kept, left_out })
}
