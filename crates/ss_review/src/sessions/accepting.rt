//! Whether the payload of a session is trusted, and accepted by valid certificate blocks (RFC 5848, section 7).
ghost use Rattle.std.specs.Prelude.{◌≡◌, Bool, map, filter, Ok, IfOk, OnOk};
ghost use Rattle.ss_review.specs.keep.BlockMessage.{BlockMessage};
ghost use Rattle.ss_review.specs.sessions.Payloads.{certificates, stated_payload};
ghost use Rattle.ss_review.specs.sessions.Verified.{answers, is_valid, is_accepted, judged, joined};
ghost use Rattle.ss_review.specs.sessions.Covering.{spans_of, accepted_span};
ghost use Rattle.ss_review.specs.questions.Questions.{question_about, asked, AreAskable};
ghost use Rattle.ss_review.specs.sessions.FoundBlocks.{IsKeptOfBlock, TellsEqualsAlike, KeepsWhatHolds};

use crate::keep::block_message::BlockMessage;
use crate::report::session_report::SessionState;
use crate::sessions::claim::Claim;
use crate::sessions::found_blocks::FoundBlocks;
use crate::sessions::joining::stated_payload;
use crate::sessions::span::{Span, cover};
use crate::sessions::verifier::Judge;
use ss_octets::{Bytes, NoMemory};
use std::alloc::Global;

/// Whether the block's signature is valid under the payload.
pub(crate) fn is_valid<J: Judge>(
    alloc: Global,
    judge: &J,
    payload: &[u8],
    message: &BlockMessage,
) -> Result<bool, NoMemory>
    requires sound { J.sound judge.now }
    requires askable { J.askable judge.now (question_about payload.now message.now) }
    ensures { IfOk result (λ b. b ≡ is_valid (answers J.trusted J.valid judge.now) payload.now message.now) }
{
    let signed = message.signed(alloc)?;
    Ok(judge.accepts(payload, signed.as_slice(), message.signature()))
}

/// Whether the block's signature is valid under the payload. `found` is what was found of blocks so far: the judge
/// isn't asked again about one that equals one of those in signature, signed octets and session.
pub(crate) fn valid_once<'a, J: Judge>(
    alloc: Global,
    judge: &J,
    payload: &[u8],
    found: &mut FoundBlocks<'a>,
    message: &'a BlockMessage,
) -> Result<bool, NoMemory>
    requires sound { J.sound judge.now }
    requires askable { J.askable judge.now (question_about payload.now message.now) }
    ensures valid { (f : BlockMessage → Bool)
        → KeepsWhatHolds f found.old
        → f message.now ≡ is_valid (answers J.trusted J.valid judge.now) payload.now message.now
        → IfOk result (λ b. b ≡ f message.now) }
    ensures kept { (f : BlockMessage → Bool)
        → TellsEqualsAlike f
        → KeepsWhatHolds f found.old
        → f message.now ≡ is_valid (answers J.trusted J.valid judge.now) payload.now message.now
        → OnOk result (KeepsWhatHolds f found.new) }
    ensures remembered { IfOk result (IsKeptOfBlock found.new message.now) }
{
    let claim = Claim::of(message);
    if let Some(is_valid) = found.get(&claim) {
        return Ok(is_valid);
    }
    let is_valid = is_valid(alloc, judge, payload, message)?;
    found.add(claim, is_valid)?;
    Ok(is_valid)
}

/// The indexes of a certificate block that is valid under the payload. `found` is what was found of the certificate
/// blocks under it so far.
fn accepted_span<'a, J: Judge>(
    alloc: Global,
    judge: &J,
    payload: &[u8],
    found: &mut FoundBlocks<'a>,
    message: &'a BlockMessage,
) -> Result<Option<Span>, NoMemory>
    requires sound { J.sound judge.now }
    requires askable { J.askable judge.now (question_about payload.now message.now) }
    ensures span { KeepsWhatHolds (is_valid (answers J.trusted J.valid judge.now) payload.now) found.old
        → IfOk result (λ o. o ≡ accepted_span (answers J.trusted J.valid judge.now) payload.now message.now) }
    ensures kept { KeepsWhatHolds (is_valid (answers J.trusted J.valid judge.now) payload.now) found.old
        → OnOk result (KeepsWhatHolds (is_valid (answers J.trusted J.valid judge.now) payload.now) found.new) }
{
    let Some(span) = message.span() else {
        return Ok(None);
    };
    if valid_once(alloc, judge, payload, found, message)? {
        Ok(Some(span))
    } else {
        Ok(None)
    }
}

/// The indexes of the certificate blocks, among these blocks, that are valid under the payload.
fn accepted_spans<J: Judge>(
    alloc: Global,
    judge: &J,
    payload: &[u8],
    blocks: &[&BlockMessage],
) -> Result<Vec<Span>, NoMemory>
    requires sound { J.sound judge.now }
    requires askable { AreAskable J.askable judge.now (map (question_about payload.now) (map (λ b. b.now) blocks.now)) }
    ensures { IfOk result (λ v. v.items
        ≡ spans_of (certificates (filter (is_valid (answers J.trusted J.valid judge.now) payload.now) (map (λ b.
        b.now) blocks.now)))) }
{
    let mut spans = Vec::new(alloc);
    let mut found = FoundBlocks::new(alloc);
    for message in blocks {
        match accepted_span(alloc, judge, payload, &mut found, message)? {
            Some(span) => spans.push(span)?,
            None => {}
        }
    }
    Ok(spans)
}

/// Whether the certificate blocks, among these blocks, that are valid under the payload cover it.
fn is_accepted<J: Judge>(
    alloc: Global,
    judge: &J,
    payload: &[u8],
    blocks: &[&BlockMessage],
) -> Result<bool, NoMemory>
    requires sound { J.sound judge.now }
    requires askable { AreAskable J.askable judge.now (map (question_about payload.now) (map (λ b. b.now) blocks.now)) }
    ensures { IfOk result (λ b. b
        ≡ is_accepted (answers J.trusted J.valid judge.now) (map (λ b. b.now) blocks.now) payload.now) }
{
    let mut spans = accepted_spans(alloc, judge, payload, blocks)?;
    Ok(cover(spans.as_mut_slice(), payload.len() as u64))
}

/// The payload, if it is trusted, and the certificate blocks that are valid under it cover it.
fn judged<J: Judge>(
    alloc: Global,
    judge: &J,
    blocks: &[&BlockMessage],
    payload: Bytes,
) -> Result<Result<Bytes, SessionState>, NoMemory>
    requires sound { J.sound judge.now }
    requires askable { AreAskable J.askable judge.now (asked (map (λ b. b.now) blocks.now) (Ok payload)) }
    ensures { IfOk result (λ r. r
        ≡ judged (answers J.trusted J.valid judge.now) (map (λ b. b.now) blocks.now) (Ok payload)) }
{
    if !judge.trusts(payload.as_slice()) {
        return Ok(Err(SessionState::Untrusted));
    }
    if is_accepted(alloc, judge, payload.as_slice(), blocks)? {
        Ok(Ok(payload))
    } else {
        Ok(Err(SessionState::Unaccepted))
    }
}

/// The payload of a session, whose blocks these are, if it is joined, and else the session's state.
pub(crate) fn joined<J: Judge>(
    alloc: Global,
    judge: &J,
    blocks: &[&BlockMessage],
) -> Result<Result<Bytes, SessionState>, NoMemory>
    requires sound { J.sound judge.now }
    requires askable { AreAskable J.askable judge.now (asked (map (λ b. b.now) blocks.now)
        (stated_payload (certificates (map (λ b. b.now) blocks.now)))) }
    ensures { IfOk result (λ r. r
        ≡ joined (answers J.trusted J.valid judge.now) (map (λ b. b.now) blocks.now)) }
{
    match stated_payload(alloc, blocks)? {
        Ok(payload) => judged(alloc, judge, blocks, payload),
        Err(state) => Ok(Err(state)),
    }
}
