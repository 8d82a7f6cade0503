//! The blocks that are due in a call.
ghost use Rattle.std.specs.Prelude.{◌≡◌, ◌+◌, ◌-◌, ◌≤◌, ◌<◌, ◌++◌, ◌∷◌, [], List, length, map, true, IfOk, OnOk};
ghost use Rattle.std.specs.List.{All};
ghost use Rattle.ss_payload.specs.declared.cuts.Cut.{Cut};
ghost use Rattle.ss_payload.specs.Cuts.{AreCuts};
ghost use Rattle.ss_payload.specs.CuttingLaws.{LiesWithin};
ghost use Rattle.ss_payload.specs.Payload.{payload_text};
ghost use Rattle.ss_block.specs.Block.{IsSignature, IsCertificate, is_of};
ghost use Rattle.ss_origin.specs.Configs.{is_config, IsFit};
ghost use Rattle.ss_origin.specs.Calls.{run_if_any};
ghost use Rattle.ss_origin.specs.State.{spris};
ghost use Rattle.ss_origin.specs.Originator.{IsGroupState};
ghost use Rattle.ss_origin.specs.Pending.{runs_pending, pending_block, blocks_pending};
ghost use Rattle.ss_origin.specs.Emission.{certificate_in, certificate_of, signature_in};
ghost use Rattle.ss_origin.specs.Signing.{HasSession};
ghost use Rattle.ss_origin.specs.declared.unsigned.Unsigned.TheVariants.{Signature};
ghost use Rattle.ss_block.specs.Ranges.{past_last_number};

use crate::config::Config;
use crate::slots::{Slot, Slots};
use crate::unsigned::Unsigned;
use ss_block::laws::cutting::pieces_lie_within;
use ss_block::laws::fragments::pieces_are_fragments;
use ss_block::laws::payloads::{texts_are_ascii, texts_have_octets};
use ss_block::{CertBlock, Cut, Group, Hash, Hashes, Payload, SigBlock, cut};
use ss_octets::{Bytes, NoMemory};
use std::alloc::Global;

/// Where a signature block stands: its group, and its GBC.
#[derive(Clone, Copy)]
pub struct BlockAt {
    /// SPRI of its group, 0 to 191 (RFC 5848, section 4.2.3).
    pub spri: u8,
    /// Its Global Block Counter (RFC 5848, section 4.2.4).
    pub gbc: u64,
}

/// The certificate block of a piece of the payload's text, in this group.
fn certificate(
    alloc: Global,
    config: &Config,
    text: &[u8],
    piece: Cut,
) -> Result<Unsigned, NoMemory>
    requires within { LiesWithin (length text.now) config.now.frag piece }
    requires certificate { IsCertificate (certificate_in config.now text.now piece) }
    ensures { IfOk result (λ u. u ≡ certificate_of config.now text.now piece) }
{
    let start = piece.index as usize - 1;
    let octets = &text[start..start + usize::from(piece.len)];
    let fragment = Bytes::from_vec(Vec::from_slice(alloc, octets)?);
    let unsigned = Bytes::from_vec(Vec::new(alloc));
    let group = Group {
        sg: config.grouping.sg(),
        spri: config.grouping.spri(config.head.pri()),
    };
    let total = text.len() as u32;
    match CertBlock::new(
        config.alg,
        config.rsid,
        group,
        total,
        piece.index,
        fragment,
        unsigned,
    ) {
        Some(block) => Ok(Unsigned::Certificate(block)),
        None => unreachable!(),
    }
}

/// The certificate blocks of these pieces, in order.
fn certificates_of(
    alloc: Global,
    config: &Config,
    text: &[u8],
    pieces: &[Cut],
) -> Result<Vec<Unsigned>, NoMemory>
    requires within { All (LiesWithin (length text.now) config.now.frag) pieces.now }
    requires certificates { All (λ piece. IsCertificate (certificate_in config.now text.now piece)) pieces.now }
    ensures { IfOk result (λ v. v.items ≡ map (certificate_of config.now text.now) pieces.now) }
{
    let mut due = Vec::with_capacity(alloc, pieces.len())?;
    for piece in pieces {
        due.push(certificate(alloc, config, text, *piece)?)?;
    }
    Ok(due)
}

/// The certificate blocks of the payload, one for each piece of its text.
pub fn certificates(
    alloc: Global,
    config: &Config,
    payload: &Payload,
) -> Result<Vec<Unsigned>, NoMemory>
    requires { IsFit config.now payload.now }
    ensures due { IfOk result (λ v. (cuts : List Cut) × AreCuts (length (payload_text payload.now)) config.now.frag cuts
        × (v.items ≡ map (certificate_of config.now (payload_text payload.now)) cuts)) }
    ensures session { IfOk result (λ v. All (HasSession config.now) v.items) }
{
    config.head.assure_in_range();
    texts_have_octets();
    texts_are_ascii();
    pieces_lie_within();
    pieces_are_fragments();
    let text = payload.write(alloc)?;
    let cuts = cut(alloc, text.as_slice(), config.frag)?;
    certificates_of(alloc, config, text.as_slice(), cuts.as_slice())
}

/// The signature block of these hashes of a group, the first of which has this number.
pub fn signature(
    alloc: Global,
    config: &Config,
    place: BlockAt,
    first: u64,
    hashes: Vec<Hash>,
) -> Result<Unsigned, NoMemory>
    requires { IsSignature (signature_in config.now place.spri place.gbc first hashes.items) }
    ensures { IfOk result (λ u. u ≡ Signature (signature_in config.now place.spri place.gbc first hashes.items)) }
{
    let unsigned = Bytes::from_vec(Vec::new(alloc));
    let group = Group {
        sg: config.grouping.sg(),
        spri: place.spri,
    };
    let hashes = Hashes::from_vec(hashes);
    match SigBlock::new(
        config.alg,
        config.rsid,
        group,
        place.gbc,
        first,
        hashes,
        unsigned,
    ) {
        Some(block) => Ok(Unsigned::Signature(block)),
        None => unreachable!(),
    }
}

/// Puts the signature block of a group after the others, where hashes are pending in it.
fn push_pending(
    alloc: Global,
    config: &Config,
    place: BlockAt,
    slot: &Slot,
    due: &mut Vec<Unsigned>,
) -> Result<(), NoMemory>
    requires config { is_config config.now ≡ true }
    requires spri { place.spri < 192 }
    requires group { IsGroupState config.now slot.now }
    requires gbc { place.gbc + length (run_if_any place.spri slot.now.pending) ≤ past_last_number }
    ensures { OnOk result (due.new.items ≡ due.old.items ++ pending_block config.now place.spri place.gbc slot.now) }
{
    let pending = slot.pending();
    if pending.is_empty() {
        return Ok(());
    }
    let first = slot.number() - pending.len() as u64;
    let hashes = Vec::from_slice(alloc, pending)?;
    due.push(signature(alloc, config, place, first, hashes)?)?;
    Ok(())
}

/// The signature blocks of all groups in which hashes are pending, by rising SPRI, with the GBC that follow.
pub fn pending_blocks(
    alloc: Global,
    config: &Config,
    gbc: u64,
    slots: &Slots,
) -> Result<Vec<Unsigned>, NoMemory>
    requires config { is_config config.now ≡ true }
    requires groups { All (IsGroupState config.now) slots.now }
    requires gbc { gbc + length (runs_pending slots.now spris) ≤ past_last_number }
    ensures { IfOk result (λ v. v.items ≡ blocks_pending config.now gbc slots.now spris) }
{
    let mut due = Vec::new(alloc);
    for spri in 0..192u8 {
        let gbc = gbc + due.len() as u64;
        push_pending(
            alloc,
            config,
            BlockAt { spri, gbc },
            slots.slot(spri),
            &mut due,
        )?;
    }
    Ok(due)
}

/// The signature block of a group's hashes and one more.
pub fn full_block(
    alloc: Global,
    config: &Config,
    place: BlockAt,
    slot: &Slot,
    hash: Hash,
) -> Result<Vec<Unsigned>, NoMemory>
    requires config { is_config config.now ≡ true }
    requires spri { place.spri < 192 }
    requires group { IsGroupState config.now slot.now }
    requires gbc { place.gbc < past_last_number }
    requires number { slot.now.number < past_last_number }
    requires hash { is_of config.now.alg hash ≡ true }
    ensures { IfOk result (λ v.
        v.items ≡ Signature
        (signature_in config.now place.spri place.gbc (slot.now.number - length slot.now.pending)
        (slot.now.pending ++ hash ∷ []))
        ∷ []) }
{
    let pending = slot.pending();
    let first = slot.number() - pending.len() as u64;
    let mut hashes = Vec::with_capacity(alloc, pending.len() + 1)?;
    hashes.extend_from_slice(pending)?;
    hashes.push(hash)?;
    let mut due = Vec::with_capacity(alloc, 1)?;
    due.push(signature(alloc, config, place, first, hashes)?)?;
    Ok(due)
}
