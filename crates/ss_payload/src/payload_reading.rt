//! Payload blocks read from the left (RFC 5848, section 5.2).
ghost use Rattle.std.specs.Prelude.{◌≡◌, ◌≢◌, ◌∷◌, ℕ, List, Option, Some, None, option_and_then, IfOk, IfSome};
ghost use Rattle.std.specs.Prelude.{option_map};
ghost use Rattle.ss_octets.specs.Ascii.{sp};
ghost use Rattle.ss_message.specs.Stamp.{Moment};
ghost use Rattle.ss_message.specs.StampReading.{past, stamp_of};
ghost use Rattle.ss_payload.specs.Payload.{IsPayload, letter};
ghost use Rattle.ss_payload.specs.declared.kind.Kind.TheVariants.{N};
ghost use Rattle.ss_payload.specs.PayloadReading.{stamp_in, stamp_and_rest_in, no_blob_in, some_blob_in, blob_in};
ghost use Rattle.ss_payload.specs.PayloadReading.{first_in, kind_in, payload_in};

use crate::kind::{Kind, kind_of};
use crate::payload::Payload;
use ss_message::{Stamp, assure_timestamp};
use ss_octets::strict_base64::decoded;
use ss_octets::{Bytes, NoMemory, cut_first};
use std::alloc::Global;

/// The stamp that all the octets spell together; `None` if they spell none.
fn moment_of(text: &[u8]) -> Option<Stamp>
    ensures { result ≡ stamp_of text.now }
{
    let stamp = Stamp::parse(text);
    assure_timestamp(&stamp);
    stamp
}

/// The stamp that all the octets spell together, or `Some(None)` for `-`; `None` if they spell neither.
#[tactic(auto, unfolding(crate::specs::PayloadReading::stamp_in))]
pub fn stamp_of(text: &[u8]) -> Option<Option<Stamp>>
    ensures { result ≡ stamp_in text.now }
{
    match text {
        [b'-'] => Some(None),
        _ => Some(Some(moment_of(text)?)),
    }
}

/// The empty blob, if nothing or one SP stands after the letter `N`.
fn no_blob_of(alloc: Global, text: &[u8]) -> Option<Bytes>
    ensures { result ≡ no_blob_in text.now }
{
    match text {
        [] | [b' '] => Some(Bytes::from_vec(Vec::new(alloc))),
        _ => None,
    }
}

/// The blob that the base64 after SP spells; `None` if no SP stands first, or the rest spells no octet.
fn some_blob_of(alloc: Global, text: &[u8]) -> Result<Option<Bytes>, NoMemory>
    ensures blob { IfOk result (λ o. o ≡ some_blob_in text.now) }
    ensures space_first { past sp text.now ≡ None → result ≡ Ok None }
{
    match text {
        [b' ', blob @ ..] => decoded(alloc, blob),
        _ => Ok(None),
    }
}

/// The blob that stands after the letter of its type.
#[tactic(auto, unfolding(crate::specs::PayloadReading::blob_in))]
fn blob_of(alloc: Global, kind: Kind, text: &[u8]) -> Result<Option<Bytes>, NoMemory>
    ensures blob { IfOk result (λ o. o ≡ blob_in kind text.now) }
    ensures n_first { kind ≡ N → result ≡ Ok (blob_in N text.now) }
    ensures space_first { kind ≢ N → past sp text.now ≡ None → result ≡ Ok None }
{
    match kind {
        Kind::N => Ok(no_blob_of(alloc, text)),
        Kind::C | Kind::P | Kind::K | Kind::U => some_blob_of(alloc, text),
    }
}

/// The stamp before the first SP, and what follows that SP.
#[tactic(auto, unfolding(crate::specs::PayloadReading::stamp_and_rest_in))]
fn stamp_and_rest(text: &[u8]) -> Option<(Option<Stamp>, &[u8])>
    ensures { option_map (λ x. (x.0, x.1.now)) result ≡ stamp_and_rest_in text.now }
{
    let (front, rest) = cut_first(text, b' ')?;
    let stamp = stamp_of(front)?;
    Some((stamp, rest))
}

/// The payload that the whole text spells; `None` if it is no payload block.
#[tactic(auto, unfolding(crate::specs::PayloadReading::payload_in))]
pub fn payload_of(alloc: Global, text: &[u8]) -> Result<Option<Payload>, NoMemory>
    ensures value { IfOk result (λ o. o ≡ payload_in text.now) }
    ensures in_range { IfOk result (λ o. IfSome o IsPayload) }
    ensures stamp_first { stamp_and_rest_in text.now ≡ None → result ≡ Ok None }
    ensures letter_first { (stamp : Option Moment) (rest : List ℕ)
        → stamp_and_rest_in text.now ≡ Some (stamp, rest)
        → option_and_then (λ first. kind_in first.0) (first_in rest) ≡ None
        → result ≡ Ok None }
    ensures n_first { (stamp : Option Moment) (behind : List ℕ)
        → stamp_and_rest_in text.now ≡ Some (stamp, letter N ∷ behind)
        → result ≡ Ok (payload_in text.now) }
    ensures space_first { (stamp : Option Moment) (first : ℕ) (behind : List ℕ)
        → stamp_and_rest_in text.now ≡ Some (stamp, first ∷ behind)
        → first ≢ letter N
        → past sp behind ≡ None
        → result ≡ Ok None }
{
    let Some((stamp, rest)) = stamp_and_rest(text) else {
        return Ok(None);
    };
    let [octet, rest @ ..] = rest else {
        return Ok(None);
    };
    let Some(kind) = kind_of(*octet) else {
        return Ok(None);
    };
    let Some(blob) = blob_of(alloc, kind, rest)? else {
        return Ok(None);
    };
    Ok(Payload::new(stamp, kind, blob))
}
