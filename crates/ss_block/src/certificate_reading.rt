//! A certificate block, read from the element `ssign-cert` (RFC 5848, section 5.3.2).
ghost use Rattle.std.specs.Prelude.{◌≡◌, true, IfOk};
ghost use Rattle.ss_message.specs.Message.{has_raws};
ghost use Rattle.ss_message.specs.Layout.{element_value};
ghost use Rattle.ss_message.specs.Places.{ElementIsWithin};
ghost use Rattle.ss_block.specs.declared.spoil.Spoil.TheVariants as spoils;
ghost use Rattle.ss_block.specs.declared.reading.Reading.TheVariants.{Certificate};
ghost use Rattle.ss_block.specs.Reading.{has_parameters, certificate_names, certificate_texts, certificate_numbers};
ghost use Rattle.ss_block.specs.Reading.{certificate_reading};
ghost use Rattle.ss_block.specs.Meanings.{HasAll};
ghost use Rattle.ss_block.specs.Causes.{Tests, Reads, IsCertificateNumbers};

use crate::block::{CertBlock, Group};
use crate::block_parameter::{BlockParameter, CERTIFICATE};
use crate::parameters::{number_at, sign, version};
use crate::ranges;
use crate::reading::Reading;
use crate::refusal::Refusal;
use crate::spoil::Spoil;
use crate::texts::{has_parameters, text_of};
use ss_message::Element;
use ss_octets::NoMemory;
use std::alloc::Global;

/// The numbers of a certificate block.
#[derive(Clone, Copy)]
pub struct CertificateNumbers {
    rsid: u64,
    group: Group,
    total: u32,
    index: u32,
    octets: u32,
}

/// Reads RSID, SG, SPRI, TPBL, INDEX and FLEN, or gives the first cause why it can't.
fn numbers(alloc: Global, source: &[u8], element: &Element) -> Result<CertificateNumbers, Refusal>
    requires { HasAll source.now element.now }
    ensures value { Tests spoils.Number (certificate_numbers (certificate_texts (element_value source.now element.now)))
        (IsCertificateNumbers (certificate_texts (element_value source.now element.now))) result }
{
    let rsid = number_at(alloc, source, element, BlockParameter::Rsid, ranges::FROM_0)?;
    let sg = number_at(alloc, source, element, BlockParameter::Sg, ranges::SG)? as u8;
    let spri = number_at(alloc, source, element, BlockParameter::Spri, ranges::SPRI)? as u8;
    let total = number_at(
        alloc,
        source,
        element,
        BlockParameter::Tpbl,
        ranges::PAYLOAD,
    )? as u32;
    let index = number_at(
        alloc,
        source,
        element,
        BlockParameter::Index,
        ranges::PAYLOAD,
    )? as u32;
    let octets = number_at(alloc, source, element, BlockParameter::Flen, ranges::FLEN)? as u32;
    let group = Group { sg, spri };
    Ok(CertificateNumbers {
        rsid,
        group,
        total,
        index,
        octets,
    })
}

/// The certificate block of an element that has the parameters of `ssign-cert`, or the first cause why it holds none.
fn named_block(alloc: Global, source: &[u8], element: &Element) -> Result<CertBlock, Refusal>
    requires all { HasAll source.now element.now }
    requires raws { has_raws (element_value source.now element.now) ≡ true }
    requires names { has_parameters certificate_names (element_value source.now element.now) ≡ true }
    ensures { Reads Certificate result (certificate_reading (element_value source.now element.now)) }
{
    let alg = version(alloc, source, element)?;
    let numbers = numbers(alloc, source, element)?;
    let signature = sign(alloc, source, element)?;
    let fragment = text_of(alloc, source, element, BlockParameter::Frag)?.into_bytes(alloc)?;
    if fragment.as_slice().len() as u64 != numbers.octets as u64 {
        return Err(Refusal::Spoilt(Spoil::Fragment));
    }
    let block = CertBlock::new(
        alg,
        numbers.rsid,
        numbers.group,
        numbers.total,
        numbers.index,
        fragment,
        signature,
    );
    // All else was found to be in its range.
    block.ok_or(Refusal::Spoilt(Spoil::Fragment))
}

/// The certificate block of an element, or the first cause why it holds none.
fn certificate_block(alloc: Global, source: &[u8], element: &Element) -> Result<CertBlock, Refusal>
    requires within { ElementIsWithin source.now element.now }
    requires raws { has_raws (element_value source.now element.now) ≡ true }
    ensures { Reads Certificate result (certificate_reading (element_value source.now element.now)) }
{
    if !has_parameters(source, element, &CERTIFICATE) {
        return Err(Refusal::Spoilt(Spoil::Names));
    }
    named_block(alloc, source, element)
}

/// What the element `ssign-cert` is read as: a certificate block, or a spoilt one with the first cause.
pub fn read_certificate(
    alloc: Global,
    source: &[u8],
    element: &Element,
) -> Result<Reading, NoMemory>
    requires within { ElementIsWithin source.now element.now }
    requires raws { has_raws (element_value source.now element.now) ≡ true }
    ensures { IfOk result (λ r. r ≡ certificate_reading (element_value source.now element.now)) }
{
    match certificate_block(alloc, source, element) {
        Ok(block) => Ok(Reading::Certificate(block)),
        Err(Refusal::Spoilt(cause)) => Ok(Reading::Spoilt(cause)),
        Err(Refusal::Memory) => Err(NoMemory),
    }
}
