//! Which of given payloads claim a session: those that certificate blocks speak for (RFC 5848, section 5.3).
ghost use Rattle.std.specs.Prelude.{◌≡◌, true, All, map, Ok, IfOk, OnOk};
ghost use Rattle.ss_review.specs.questions.Questions.{question_about, asked, AreAskable};
ghost use Rattle.ss_review.specs.sessions.FoundBlocks.{KeepsWhatHolds};
ghost use Rattle.ss_review.specs.sessions.Sectioned.{referred};
ghost use Rattle.ss_review.specs.sessions.Verified.{answers, is_valid};
ghost use Rattle.ss_review.specs.pinned.Finding.{may_claim, payloads_of, IsAskableUnder, IsClaimantIf, IsFoundRight};
ghost use Rattle.ss_review.specs.pinned.Pinned.{speaks_for, claimants};

use crate::keep::block_message::BlockMessage;
use crate::pinned::agreeing::{agrees_in, covered, may_claim};
use crate::pinned::claimant::Claimant;
use crate::sessions::accepting::valid_once;
use crate::sessions::found_blocks::FoundBlocks;
use crate::sessions::verifier::Judge;
use ss_octets::{Bytes, NoMemory};
use std::alloc::Global;

/// Whether the block speaks for the payload. `found` is what was found of blocks under it so far.
fn speaks_once<'a, J: Judge>(
    alloc: Global,
    judge: &J,
    payload: &[u8],
    found: &mut FoundBlocks<'a>,
    message: &'a BlockMessage,
) -> Result<bool, NoMemory>
    requires sound { J.sound judge.now }
    requires askable { J.askable judge.now (question_about payload.now message.now) }
    ensures speaks { KeepsWhatHolds (is_valid (answers J.trusted J.valid judge.now) payload.now) found.old
        → IfOk result (λ b. b ≡ speaks_for (answers J.trusted J.valid judge.now) payload.now message.now) }
    ensures kept { KeepsWhatHolds (is_valid (answers J.trusted J.valid judge.now) payload.now) found.old
        → OnOk result (KeepsWhatHolds (is_valid (answers J.trusted J.valid judge.now) payload.now) found.new) }
{
    if agrees_in(alloc, payload, message)? {
        valid_once(alloc, judge, payload, found, message)
    } else {
        Ok(false)
    }
}

/// Which of the blocks speak for the payload. `found` is what was found of blocks under it so far.
fn speaking<'a, J: Judge>(
    alloc: Global,
    judge: &J,
    payload: &[u8],
    found: &mut FoundBlocks<'a>,
    blocks: &[&'a BlockMessage],
) -> Result<Vec<bool>, NoMemory>
    requires sound { J.sound judge.now }
    requires askable { AreAskable J.askable judge.now (map (question_about payload.now) (referred blocks.now)) }
    ensures speaking { KeepsWhatHolds (is_valid (answers J.trusted J.valid judge.now) payload.now) found.old
        → IfOk result (λ v. v.items
        ≡ map (speaks_for (answers J.trusted J.valid judge.now) payload.now) (referred blocks.now)) }
    ensures kept { KeepsWhatHolds (is_valid (answers J.trusted J.valid judge.now) payload.now) found.old
        → OnOk result (KeepsWhatHolds (is_valid (answers J.trusted J.valid judge.now) payload.now) found.new) }
{
    let mut speaking = Vec::with_capacity(alloc, blocks.len())?;
    for message in blocks {
        speaking.push(speaks_once(alloc, judge, payload, found, message)?)?;
    }
    Ok(speaking)
}

/// The payload with what was found under it, if those of the blocks that speak for it cover it.
fn spoken_for<'a, J: Judge>(
    alloc: Global,
    judge: &J,
    payload: &'a Bytes,
    blocks: &[&'a BlockMessage],
) -> Result<Option<Claimant<'a>>, NoMemory>
    requires sound { J.sound judge.now }
    requires askable { AreAskable J.askable judge.now (map (question_about payload.now) (referred blocks.now)) }
    requires may { may_claim payload.now (referred blocks.now) ≡ true }
    requires trusted { J.trusted judge.now payload.now ≡ true }
    ensures { IfOk result (IsClaimantIf (answers J.trusted J.valid judge.now) (referred blocks.now) payload.now) }
{
    let mut found = FoundBlocks::new(alloc);
    let text = payload.as_slice();
    let speaking = speaking(alloc, judge, text, &mut found, blocks)?;
    if covered(alloc, text.len(), blocks, speaking.as_slice())? {
        Ok(Some(Claimant { payload, found }))
    } else {
        Ok(None)
    }
}

/// The payload with what was found under it, if it claims the session of these blocks.
fn claimant<'a, J: Judge>(
    alloc: Global,
    judge: &J,
    payload: &'a Bytes,
    blocks: &[&'a BlockMessage],
) -> Result<Option<Claimant<'a>>, NoMemory>
    requires sound { J.sound judge.now }
    requires askable { may_claim payload.now (referred blocks.now) ≡ true
        → AreAskable J.askable judge.now (asked (referred blocks.now) (Ok payload.now)) }
    ensures { IfOk result (IsClaimantIf (answers J.trusted J.valid judge.now) (referred blocks.now) payload.now) }
{
    if !may_claim(alloc, payload.as_slice(), blocks)? {
        return Ok(None);
    }
    if judge.trusts(payload.as_slice()) {
        spoken_for(alloc, judge, payload, blocks)
    } else {
        Ok(None)
    }
}

/// Those of the payloads that claim the session of these blocks, each with what was found under it.
pub(crate) fn claimants<'a, J: Judge>(
    alloc: Global,
    judge: &J,
    payloads: &'a [Bytes],
    blocks: &[&'a BlockMessage],
) -> Result<Vec<Claimant<'a>>, NoMemory>
    requires sound { J.sound judge.now }
    requires askable { IsAskableUnder J.askable judge.now payloads.now (referred blocks.now) }
    ensures payloads { IfOk result (λ v. payloads_of v.items
        ≡ claimants (answers J.trusted J.valid judge.now) payloads.now (referred blocks.now)) }
    ensures found { IfOk result (λ v. All (IsFoundRight (answers J.trusted J.valid judge.now)) v.items) }
{
    let mut claimants = Vec::new(alloc);
    for payload in payloads {
        match claimant(alloc, judge, payload, blocks)? {
            Some(claimant) => claimants.push(claimant)?,
            None => {}
        }
    }
    Ok(claimants)
}
