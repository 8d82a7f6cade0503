//! What is signed of a block message (RFC 5848, sections 4.2 and 5.3.2).
ghost use Rattle.std.specs.Prelude.{◌≡◌, ◌≤◌, ◌++◌, Some, IfOk, IfSome, length, take, drop};
ghost use Rattle.ss_message.specs.Layout.{value_of};
ghost use Rattle.ss_message.specs.Message.{text};
ghost use Rattle.ss_block.specs.SignPlace.{block_id, sign_parameter};
ghost use Rattle.ss_block.specs.Parsed.{IsRead};
ghost use Rattle.ss_block.specs.Reading.{value_reading};
ghost use Rattle.ss_block.specs.Signed.{signed, signed_if_block, unsigned_value, IsWithoutSign};

use crate::block_parameter::BlockParameter;
use crate::reading::{Reading, read};
use ss_message::{Message, Parameter};
use ss_octets::{Bytes, NoMemory};
use std::alloc::Global;

/// A copy of the octets without those from `start` on that stand before `end`.
fn without(alloc: Global, octets: &[u8], start: usize, end: usize) -> Result<Bytes, NoMemory>
    requires in_order { start ≤ end }
    requires within { end ≤ length octets.now }
    ensures { IfOk result (λ o. o ≡ take start octets.now ++ drop end octets.now) }
{
    let mut left = Vec::with_capacity(alloc, octets.len() - (end - start))?;
    left.extend_from_slice(&octets[..start])?;
    left.extend_from_slice(&octets[end..])?;
    Ok(Bytes::from_vec(left))
}

/// The parameter SIGN of the element with this SD-ID; none if that has fewer parameters than a block's.
fn sign_parameter(message: &Message<'_>, id: &[u8]) -> Option<Parameter>
    ensures { result ≡ sign_parameter message.now.source.now id.now message.now.elements }
{
    let place = message.element(id)?;
    let element = message.elements.as_slice().get(place)?;
    element
        .parameters
        .as_slice()
        .get(BlockParameter::Sign.place())
        .copied()
}

/// A block message without SIGN, of the block element with this SD-ID, and without the SP before it.
fn without_sign(alloc: Global, message: &Message<'_>, id: &[u8]) -> Result<Option<Bytes>, NoMemory>
    requires read { IsRead message.now }
    requires block { block_id (value_reading (value_of message.now)) ≡ Some id.now }
    ensures value { IfOk result (λ o. o ≡ Some (text (unsigned_value (value_of message.now)))) }
    ensures split { IfOk result (λ o. IfSome o (λ octets. IsWithoutSign message.now.source.now octets)) }
{
    let Some(sign) = sign_parameter(message, id) else {
        return Ok(None);
    };
    let space = sign.name.start - 1;
    let behind = sign.value.end + 1;
    Ok(Some(without(alloc, message.source, space, behind)?))
}

/// The signed octets of a message with this reading, if the reading is a block.
pub(crate) fn signed_with(
    alloc: Global,
    message: &Message<'_>,
    reading: &Reading,
) -> Result<Option<Bytes>, NoMemory>
    requires read { IsRead message.now }
    requires reading { reading.now ≡ value_reading (value_of message.now) }
    ensures value { IfOk result (λ o. o ≡ signed_if_block reading.now (value_of message.now)) }
    ensures split { IfOk result (λ o. IfSome o (λ octets. IsWithoutSign message.now.source.now octets)) }
{
    let id: &[u8] = match reading {
        Reading::Signature(_) => b"ssign",
        Reading::Certificate(_) => b"ssign-cert",
        Reading::Plain | Reading::Unparsed { .. } | Reading::Spoilt(_) => return Ok(None),
    };
    without_sign(alloc, message, id)
}

/// The octets over which a block's signature is made: the whole message as it stands, except SIGN of its block element
/// and the SP before it. None unless `bytes` are a message with a signature block or a certificate
/// block, and not a spoilt one.
///
/// Errs only where memory runs out, which is taken for the parse, the block and the octets of the answer.
pub fn signed_bytes(alloc: Global, bytes: &[u8]) -> Result<Option<Bytes>, NoMemory>
    ensures value { IfOk result (λ o. o ≡ signed bytes.now) }
    ensures split { IfOk result (λ o. IfSome o (λ octets. IsWithoutSign bytes.now octets)) }
{
    let (reading, message) = read(alloc, bytes)?;
    let Some(message) = message else {
        return Ok(None);
    };
    signed_with(alloc, &message, &reading)
}
