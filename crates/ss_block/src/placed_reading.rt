//! What a message is found to be by one parse, and where the session and the content of its block stand in its signed
//! octets.
ghost use Rattle.std.specs.Prelude.{◌≡◌, ◌≤◌, ◌+◌, length, Some, IfOk, IfSome, IsSome, is_some};
ghost use Rattle.ss_message.specs.Layout.{value_of};
ghost use Rattle.ss_block.specs.SignPlace.{block_id, content_parameter};
ghost use Rattle.ss_block.specs.Parsed.{IsRead};
ghost use Rattle.ss_block.specs.Reading.{reading, value_reading};
ghost use Rattle.ss_block.specs.Session.{session};
ghost use Rattle.ss_block.specs.SessionPlaces.{HasSender};
ghost use Rattle.ss_block.specs.Signed.{signed, signed_if_block};
ghost use Rattle.ss_block.specs.PlacedReading.{HasContent, HasRsid, StandsBefore, signature_in};

use crate::block_parameter::BlockParameter;
use crate::reading::{Reading, read};
use crate::session_places::{SessionPlaces, sender_with};
use crate::signed::signed_with;
use ss_message::{Message, Parameter, Span};
use ss_octets::{Bytes, NoMemory};
use std::alloc::Global;

/// What a message is, which of its octets are signed, and where in these stand who sent it and the content of its block.
#[derive(Debug, Drop)]
pub struct PlacedReading {
    /// What it is, as `classify` gives it.
    pub reading: Reading,
    /// Where the session of a block stands in the signed octets; none where `signed` is none.
    pub sender: Option<SessionPlaces>,
    /// The signed octets of a block, as `signed_bytes` gives them.
    pub signed: Option<Bytes>,
    /// Where the value of HB or FRAG stands in the signed octets, as it stands there; none where `signed` is none.
    pub content: Option<Span>,
}

/// The parameter HB or FRAG of the element with this SD-ID; none if that has fewer parameters.
fn content_parameter(message: &Message<'_>, id: &[u8]) -> Option<Parameter>
    ensures { result ≡ content_parameter message.now.source.now id.now message.now.elements }
{
    let place = message.element(id)?;
    let element = message.elements.as_slice().get(place)?;
    // FRAG has the same place.
    element
        .parameters
        .as_slice()
        .get(BlockParameter::Hb.place())
        .copied()
}

/// Where the value of HB or FRAG stands in a block message, of the block element with this SD-ID. Both stand before
/// SIGN, and so at the same place in the signed octets.
fn content_of(message: &Message<'_>, id: &[u8]) -> Option<Span>
    requires read { IsRead message.now }
    requires block { block_id (value_reading (value_of message.now)) ≡ Some id.now }
    ensures content { HasContent (signed_if_block (value_reading (value_of message.now)) (value_of message.now)) result
        (value_reading (value_of message.now)) }
    ensures found { IsSome result }
    ensures behind { IfSome result (λ s. message.now.msgid.start ≤ s.start) }
{
    let Some(parameter) = content_parameter(message, id) else {
        return None;
    };
    Some(parameter.value)
}

/// Where the content of a block stands in a message with this reading, if the reading is a block.
fn content_with(message: &Message<'_>, reading: &Reading) -> Option<Span>
    requires read { IsRead message.now }
    requires reading { reading.now ≡ value_reading (value_of message.now) }
    ensures content { HasContent (signed_if_block reading.now (value_of message.now)) result reading.now }
    ensures both { is_some result ≡ is_some (signed_if_block reading.now (value_of message.now)) }
    ensures behind { IfSome result (λ s. message.now.msgid.start ≤ s.start) }
{
    let id: &[u8] = match reading {
        Reading::Signature(_) => b"ssign",
        Reading::Certificate(_) => b"ssign-cert",
        Reading::Plain | Reading::Unparsed { .. } | Reading::Spoilt(_) => return None,
    };
    content_of(message, id)
}

/// What the message in `bytes` is, with its signed octets, and where in them stand the session and the content of its
/// block, by one parse.
///
/// Errs only where memory runs out. Memory is taken as `classify` and `signed_bytes` take it, once.
pub fn read_placed(alloc: Global, bytes: &[u8]) -> Result<PlacedReading, NoMemory>
    ensures reading { IfOk result (λ r. r.reading ≡ reading bytes.now) }
    ensures signed { IfOk result (λ r. r.signed ≡ signed bytes.now) }
    ensures sender { IfOk result (λ r. HasSender r.signed r.sender (session bytes.now)) }
    ensures content { IfOk result (λ r. HasContent r.signed r.content r.reading) }
    ensures both { IfOk result (λ r. is_some r.content ≡ is_some r.signed) }
    ensures before { IfOk result (λ r. StandsBefore r.sender r.content) }
    ensures rsid { IfOk result (λ r. HasRsid r.sender r.reading) }
    // The text holds the base64 of the signature beside the signed octets.
    ensures small { IfOk result
        (λ r. IfSome r.signed (λ octets. length octets + length (signature_in r.reading) ≤ length bytes.now)) }
{
    let (reading, message) = read(alloc, bytes)?;
    let Some(message) = message else {
        return Ok(PlacedReading {
            reading,
            sender: None,
            signed: None,
            content: None,
        });
    };
    let sender = sender_with(&message, &reading);
    let signed = signed_with(alloc, &message, &reading)?;
    let content = content_with(&message, &reading);
    Ok(PlacedReading {
        reading,
        sender,
        signed,
        content,
    })
}
