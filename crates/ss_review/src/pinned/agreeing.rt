//! Whether certificate blocks that say nothing but what a payload says cover it (RFC 5848, section 5.3.2).
ghost use Rattle.std.specs.Prelude.{◌≡◌, ◌↔◌, ◌++◌, ◌∷◌, [], Bool, length, map, filter, Some, IsTrue, IfOk, OnOk, if◌then◌else◌};
ghost use Rattle.ss_review.specs.keep.BlockMessage.{BlockMessage};
ghost use Rattle.ss_block.specs.Block.{Certificate};
ghost use Rattle.ss_review.specs.keep.Stated.{States};
ghost use Rattle.ss_review.specs.sessions.Covering.{spans_of};
ghost use Rattle.ss_review.specs.sessions.Payloads.{certificates, cover, is_payload};
ghost use Rattle.ss_review.specs.sessions.Sectioned.{referred};
ghost use Rattle.ss_review.specs.pinned.Finding.{may_claim};
ghost use Rattle.ss_review.specs.pinned.Pinned.{agrees, agrees_in};

use crate::keep::block_message::BlockMessage;
use crate::keep::kept_block::Stated;
use crate::sessions::span::{Span, cover};
use ss_block::Payload;
use ss_octets::NoMemory;
use std::alloc::Global;

/// Whether a certificate block that states this says nothing but what the payload says.
fn agrees(payload: &[u8], stated: &Stated<'_>) -> bool
    ensures { (c : Certificate) → States stated.now c → result ≡ agrees payload.now c }
{
    if stated.total as usize != payload.len() {
        return false;
    }
    let before = (stated.index as usize).saturating_sub(1);
    let Some(rest) = payload.get(before..) else {
        return false;
    };
    rest.starts_with(stated.fragment.as_slice())
}

/// Whether a certificate block with this TPBL is of a payload that long.
fn is_as_long(payload: &[u8], total: Option<u32>) -> bool
    ensures { IsTrue result ↔ (total ≡ Some (length payload.now)) }
{
    match total {
        Some(total) => total as usize == payload.len(),
        None => false,
    }
}

/// Whether the block is a certificate block that says nothing but what the payload says.
pub(crate) fn agrees_in(
    alloc: Global,
    payload: &[u8],
    block: &BlockMessage,
) -> Result<bool, NoMemory>
    ensures { IfOk result (λ b. b ≡ agrees_in payload.now block.now.said) }
{
    // Most known payloads are those of other sessions.
    if !is_as_long(payload, block.total()) {
        return Ok(false);
    }
    match block.stated(alloc)? {
        None => Ok(false),
        Some(stated) => Ok(agrees(payload, &stated)),
    }
}

/// Which of the blocks agree with the payload.
fn agreeing(alloc: Global, payload: &[u8], blocks: &[&BlockMessage]) -> Result<Vec<bool>, NoMemory>
    ensures { IfOk result (λ v. v.items ≡ map (λ b. agrees_in payload.now b.said) (referred blocks.now)) }
{
    let mut agreeing = Vec::with_capacity(alloc, blocks.len())?;
    for block in blocks {
        agreeing.push(agrees_in(alloc, payload, block)?)?;
    }
    Ok(agreeing)
}

/// Adds the indexes of the block's fragment, if it counts and is a certificate block.
fn add_span(spans: &mut Vec<Span>, block: &BlockMessage, counts: bool) -> Result<(), NoMemory>
    ensures { OnOk result (spans.new.items
        ≡ spans.old.items ++ spans_of (certificates (if counts then block.now ∷ [] else []))) }
{
    if !counts {
        return Ok(());
    }
    let Some(span) = block.span() else {
        return Ok(());
    };
    spans.push(span)?;
    Ok(())
}

/// The indexes of the certificate blocks that count.
fn counted_spans(
    alloc: Global,
    blocks: &[&BlockMessage],
    counts: &[bool],
) -> Result<Vec<Span>, NoMemory>
    ensures { (f : BlockMessage → Bool)
        → counts.now ≡ map f (referred blocks.now)
        → IfOk result (λ v. v.items ≡ spans_of (certificates (filter f (referred blocks.now)))) }
{
    let mut spans = Vec::new(alloc);
    for (block, counts) in blocks.iter().zip(counts) {
        add_span(&mut spans, block, *counts)?;
    }
    Ok(spans)
}

/// Whether the certificate blocks that count cover a payload of this length.
pub(crate) fn covered(
    alloc: Global,
    total: usize,
    blocks: &[&BlockMessage],
    counts: &[bool],
) -> Result<bool, NoMemory>
    ensures { (f : BlockMessage → Bool)
        → counts.now ≡ map f (referred blocks.now)
        → IfOk result (λ b. b ≡ cover (certificates (filter f (referred blocks.now))) total) }
{
    let mut spans = counted_spans(alloc, blocks, counts)?;
    Ok(cover(spans.as_mut_slice(), total as u64))
}

/// Whether the text is a payload block.
fn is_payload(alloc: Global, text: &[u8]) -> Result<bool, NoMemory>
    ensures { IfOk result (λ b. b ≡ is_payload text.now) }
{
    Ok(Payload::parse(alloc, text)?.is_some())
}

/// Whether only a judge can tell if the payload claims the session of these blocks: it is a payload block, and those
/// of the certificate blocks that agree with it cover it.
pub(crate) fn may_claim(
    alloc: Global,
    payload: &[u8],
    blocks: &[&BlockMessage],
) -> Result<bool, NoMemory>
    ensures { IfOk result (λ b. b ≡ may_claim payload.now (referred blocks.now)) }
{
    let agreeing = agreeing(alloc, payload, blocks)?;
    if covered(alloc, payload.len(), blocks, agreeing.as_slice())? {
        is_payload(alloc, payload)
    } else {
        Ok(false)
    }
}
