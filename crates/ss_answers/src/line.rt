//! One line of an answers file.
ghost use Rattle.std.specs.Prelude.{◌≡◌, ◌++◌, ◌∷◌, ◌+◌, ◌<◌, ◌^◌, length, IfOk, IfErr, OnOk};
ghost use Rattle.std.specs.Prelude.{MatchOption};
ghost use Rattle.ss_octets.specs.Ascii.{sp};
ghost use Rattle.ss_answers.specs.Answers.{IsNoField, IsNoPair, IsNoTriple, IsNoLine};
ghost use Rattle.ss_answers.specs.AnswerLine.{AreKnown, IfBad, IsKnown, KeepsLine, KeepsPair, KeepsPayload};
ghost use Rattle.ss_answers.specs.AnswerLine.{KeepsTriple};

use crate::cut::cut_word;
use crate::field::{self, LineFault, Span};
use crate::place::Place;
use crate::room::emptied;
use std::alloc::Global;
use std::collections::BTreeMap;

/// A payload whose octets stand among those of the lines: its text, and where they stand.
#[derive(Debug, Drop)]
pub struct Known {
    /// How the payload is spelt.
    pub text: Vec<u8>,
    /// Where its octets stand.
    pub span: Span,
}

/// Keeps a line, which is given without its line feed: its fields are decoded after the octets of the lines before it.
/// The payload of the line before isn't decoded again; that of this line comes with its place.
///
/// # Errors
///
/// `Bad` where the text is no line; `Memory`. Some of its fields may stand among the octets then.
pub fn keep(
    alloc: Global,
    octets: &mut Vec<u8>,
    text: &[u8],
    last: Option<Known>,
    payloads: &mut BTreeMap<Vec<u8>, Span>,
) -> Result<(Place, Option<Known>), LineFault>
    requires room { length octets.old.items + length text.now < 2 ^ 32 }
    requires known { IsKnown octets.old.items last }
    requires payloads { AreKnown octets.old.items payloads.old.entries }
    ensures ok { IfOk result (λ kept. KeepsLine octets.old.items octets.new.items text.now kept.0) }
    ensures known { IfOk result (λ kept. IsKnown octets.new.items kept.1) }
    ensures payloads { OnOk result (AreKnown octets.new.items payloads.new.entries) }
    ensures bad { IfErr result (λ fault. IfBad fault (IsNoLine text.now)) }
{
    if let Some(fields) = text.strip_prefix(b"trust ") {
        let payload = payload(alloc, octets, fields, last)?;
        let place = Place::of(payload.span, Span::none(), Span::none());
        return Ok((place, Some(payload)));
    }
    if let Some(fields) = text.strip_prefix(b"yes ") {
        let (payload, bytes, signature) = triple(alloc, octets, fields, last, payloads)?;
        return Ok((Place::of(payload.span, bytes, signature), Some(payload)));
    }
    if let Some(fields) = text.strip_prefix(b"seal ") {
        let (bytes, signature) = pair(octets, fields)?;
        return Ok((Place::of(Span::none(), bytes, signature), last));
    }
    Err(LineFault::Bad)
}

/// A payload alone.
fn payload(
    alloc: Global,
    octets: &mut Vec<u8>,
    text: &[u8],
    last: Option<Known>,
) -> Result<Known, LineFault>
    requires room { length octets.old.items + length text.now < 2 ^ 32 }
    requires known { IsKnown octets.old.items last }
    ensures ok { IfOk result (λ known. KeepsPayload octets.old.items octets.new.items text.now known) }
    ensures bad { IfErr result (λ fault. IfBad fault (IsNoField text.now)) }
{
    let room = match last {
        Some(known) => {
            if known.text.as_slice() == text {
                return Ok(known);
            }
            known.text
        }
        None => Vec::new(alloc),
    };
    let span = field::keep(octets, text)?;
    known_by(alloc, room, text, span)
}

/// Three fields, of which the first is a payload.
fn triple(
    alloc: Global,
    octets: &mut Vec<u8>,
    text: &[u8],
    last: Option<Known>,
    payloads: &mut BTreeMap<Vec<u8>, Span>,
) -> Result<(Known, Span, Span), LineFault>
    requires room { length octets.old.items + length text.now < 2 ^ 32 }
    requires known { IsKnown octets.old.items last }
    requires payloads { AreKnown octets.old.items payloads.old.entries }
    ensures ok { IfOk result (λ t. KeepsTriple octets.old.items octets.new.items text.now t.0 t.1 t.2) }
    ensures payloads { OnOk result (AreKnown octets.new.items payloads.new.entries) }
    ensures bad { IfErr result (λ fault. IfBad fault (IsNoTriple text.now)) }
{
    let room = match last {
        Some(known) => {
            if let Some(rest) = behind(text, known.text.as_slice()) {
                let (bytes, signature) = pair(octets, rest)?;
                return Ok((known, bytes, signature));
            }
            known.text
        }
        None => Vec::new(alloc),
    };
    let Some((first, rest)) = cut_word(text) else {
        return Err(LineFault::Bad);
    };
    let payload = among(alloc, octets, first, room, payloads)?;
    let (bytes, signature) = pair(octets, rest)?;
    Ok((payload, bytes, signature))
}

/// A payload. If it is known, it isn't decoded again; otherwise it is known from now on.
fn among(
    alloc: Global,
    octets: &mut Vec<u8>,
    text: &[u8],
    room: Vec<u8>,
    payloads: &mut BTreeMap<Vec<u8>, Span>,
) -> Result<Known, LineFault>
    requires room { length octets.old.items + length text.now < 2 ^ 32 }
    requires payloads { AreKnown octets.old.items payloads.old.entries }
    ensures ok { IfOk result (λ known. KeepsPayload octets.old.items octets.new.items text.now known) }
    ensures payloads { OnOk result (AreKnown octets.new.items payloads.new.entries) }
    ensures bad { IfErr result (λ fault. IfBad fault (IsNoField text.now)) }
{
    if let Some(span) = payloads.get(text) {
        return known_by(alloc, room, text, *span);
    }
    let span = field::keep(octets, text)?;
    let Ok(name) = Vec::from_slice(alloc, text) else {
        return Err(LineFault::Memory);
    };
    match payloads.insert(name, span) {
        Ok(_) => known_by(alloc, room, text, span),
        Err(_) => Err(LineFault::Memory),
    }
}

/// The payload with this text. Where there is room for its text, it is used again.
fn known_by(alloc: Global, room: Vec<u8>, text: &[u8], span: Span) -> Result<Known, LineFault>
    ensures ok { IfOk result (λ known. (known.text.items ≡ text.now) × (known.span ≡ span)) }
    ensures err { IfErr result (λ fault. fault ≡ LineFault.Memory) }
{
    let mut room = emptied(alloc, room);
    match room.extend_from_slice(text) {
        Ok(()) => Ok(Known { text: room, span }),
        Err(_) => Err(LineFault::Memory),
    }
}

/// Two fields.
fn pair(octets: &mut Vec<u8>, text: &[u8]) -> Result<(Span, Span), LineFault>
    requires { length octets.old.items + length text.now < 2 ^ 32 }
    ensures ok { IfOk result (λ p. KeepsPair octets.old.items octets.new.items text.now p.0 p.1) }
    ensures bad { IfErr result (λ fault. IfBad fault (IsNoPair text.now)) }
{
    let Some((first, second)) = cut_word(text) else {
        return Err(LineFault::Bad);
    };
    let bytes = field::keep(octets, first)?;
    let signature = field::keep(octets, second)?;
    Ok((bytes, signature))
}

/// What stands after a beginning and a space, where the text begins so.
fn behind<'a>(text: &'a [u8], beginning: &[u8]) -> Option<&'a [u8]>
    ensures { MatchOption result (Unit {0}) (λ rest. text.now ≡ beginning.now ++ sp ∷ rest.now) }
{
    text.strip_prefix(beginning)?.strip_prefix(b" ")
}
