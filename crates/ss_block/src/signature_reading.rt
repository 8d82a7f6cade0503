//! A signature block, read from the element `ssign` (RFC 5848, section 4.2).
ghost use Rattle.std.specs.Prelude.{◌≡◌, true, IfOk};
ghost use Rattle.ss_message.specs.Layout.{element_value};
ghost use Rattle.ss_message.specs.Places.{ElementIsWithin};
ghost use Rattle.ss_block.specs.declared.block_parameter.BlockParameter.TheVariants as kinds;
ghost use Rattle.ss_block.specs.declared.spoil.Spoil.TheVariants as spoils;
ghost use Rattle.ss_block.specs.declared.reading.Reading.TheVariants.{Signature};
ghost use Rattle.ss_octets.specs.Number.{number};
ghost use Rattle.ss_block.specs.Reading.{has_parameters, text_of, pieces, hashes_in, signature_names, signature_texts};
ghost use Rattle.ss_block.specs.Reading.{signature_numbers, signature_reading};
ghost use Rattle.ss_block.specs.Meanings.{HasAll};
ghost use Rattle.ss_block.specs.Causes.{Tests, Spoils, hash_causes, Reads, IsSignatureNumbers};
ghost use Rattle.ss_block.specs.Versions.{alg_of};

use crate::block::{Group, SigBlock};
use crate::block_parameter::{BlockParameter, SIGNATURE};
use crate::hash::Alg;
use crate::hash_text::{count_pieces, hashes_of};
use crate::hashes::Hashes;
use crate::parameters::{number_at, sign, version};
use crate::ranges;
use crate::reading::Reading;
use crate::refusal::Refusal;
use crate::spoil::Spoil;
use crate::texts::{has_parameters, text_of};
use ss_message::Element;
use ss_octets::NoMemory;
use std::alloc::Global;

/// The numbers of a signature block.
#[derive(Clone, Copy)]
pub struct SignatureNumbers {
    rsid: u64,
    group: Group,
    gbc: u64,
    first: u64,
    count: u64,
}

/// Reads RSID, SG, SPRI, GBC, FMN and CNT, or gives the first cause why it can't.
fn numbers(alloc: Global, source: &[u8], element: &Element) -> Result<SignatureNumbers, Refusal>
    requires { HasAll source.now element.now }
    ensures value { Tests spoils.Number (signature_numbers (signature_texts (element_value source.now element.now)))
        (IsSignatureNumbers (signature_texts (element_value source.now element.now))) result }
{
    let rsid = number_at(alloc, source, element, BlockParameter::Rsid, ranges::FROM_0)?;
    let sg = number_at(alloc, source, element, BlockParameter::Sg, ranges::SG)? as u8;
    let spri = number_at(alloc, source, element, BlockParameter::Spri, ranges::SPRI)? as u8;
    let gbc = number_at(alloc, source, element, BlockParameter::Gbc, ranges::FROM_0)?;
    let first = number_at(alloc, source, element, BlockParameter::Fmn, ranges::FROM_1)?;
    let count = number_at(alloc, source, element, BlockParameter::Cnt, ranges::CNT)?;
    let group = Group { sg, spri };
    Ok(SignatureNumbers {
        rsid,
        group,
        gbc,
        first,
        count,
    })
}

/// The hashes of HB, or the first cause why they aren't `count` hashes of this algorithm.
fn hashes(
    alloc: Global,
    source: &[u8],
    element: &Element,
    alg: Alg,
    count: u64,
) -> Result<Hashes, Refusal>
    requires all { HasAll source.now element.now }
    requires alg { alg ≡ alg_of (text_of (element_value source.now element.now) kinds.Ver) }
    requires count { count ≡ number (text_of (element_value source.now element.now) kinds.Cnt) }
    ensures { Spoils (hash_causes (signature_texts (element_value source.now element.now)))
        (λ h. h ≡ hashes_in alg (pieces (text_of (element_value source.now element.now) kinds.Hb))) result }
{
    let text = text_of(alloc, source, element, BlockParameter::Hb)?;
    let text = text.as_slice();
    let pieces = count_pieces(text);
    if pieces as u64 != count {
        return Err(Refusal::Spoilt(Spoil::HashCount));
    }
    Ok(hashes_of(alloc, alg, text, pieces)?.ok_or(Spoil::Hash)?)
}

/// The signature block of an element that has the parameters of `ssign`, or the first cause why it holds none.
fn named_block(alloc: Global, source: &[u8], element: &Element) -> Result<SigBlock, Refusal>
    requires all { HasAll source.now element.now }
    requires names { has_parameters signature_names (element_value source.now element.now) ≡ true }
    ensures { Reads Signature result (signature_reading (element_value source.now element.now)) }
{
    let alg = version(alloc, source, element)?;
    let numbers = numbers(alloc, source, element)?;
    let hashes = hashes(alloc, source, element, alg, numbers.count)?;
    let signature = sign(alloc, source, element)?;
    let block = SigBlock::new(
        alg,
        numbers.rsid,
        numbers.group,
        numbers.gbc,
        numbers.first,
        hashes,
        signature,
    );
    // All else was found to be in its range.
    block.ok_or(Refusal::Spoilt(Spoil::LastNumber))
}

/// The signature block of an element, or the first cause why it holds none.
fn signature_block(alloc: Global, source: &[u8], element: &Element) -> Result<SigBlock, Refusal>
    requires { ElementIsWithin source.now element.now }
    ensures { Reads Signature result (signature_reading (element_value source.now element.now)) }
{
    if !has_parameters(source, element, &SIGNATURE) {
        return Err(Refusal::Spoilt(Spoil::Names));
    }
    named_block(alloc, source, element)
}

/// What the element `ssign` is read as: a signature block, or a spoilt one with the first cause.
pub fn read_signature(alloc: Global, source: &[u8], element: &Element) -> Result<Reading, NoMemory>
    requires { ElementIsWithin source.now element.now }
    ensures { IfOk result (λ r. r ≡ signature_reading (element_value source.now element.now)) }
{
    match signature_block(alloc, source, element) {
        Ok(block) => Ok(Reading::Signature(block)),
        Err(Refusal::Spoilt(cause)) => Ok(Reading::Spoilt(cause)),
        Err(Refusal::Memory) => Err(NoMemory),
    }
}
