//! Where the fields of a line stand among the octets of all lines.
ghost use Rattle.std.specs.Prelude.{◌≡◌};
ghost use Rattle.std.specs.Option.{option_copied};
ghost use Rattle.ss_answers.specs.Answers.{given_signature, is_trust, trusted_payload};
ghost use Rattle.ss_answers.specs.AnswerKey.{sort_key};
ghost use Rattle.ss_answers.specs.AnswerLine.{part};

use crate::field::Span;
use crate::key::Key;

/// The places of the fields of a line: its payload, which other lines may have too, and octets and signature, one
/// after the other. A field that the line lacks is empty.
#[derive(Clone, Copy, Debug)]
pub struct Place {
    payload: Span,
    start: u32,
    middle: u32,
    end: u32,
}

impl Place {
    ghost use Rattle.ss_answers.specs.AnswerLine.{answer_at, place_key, place_of};

    /// The signature stands after the octets.
    pub fn of(payload: Span, bytes: Span, signature: Span) -> Place
        ensures { result ≡ place_of payload bytes signature }
    {
        Place {
            payload,
            start: bytes.start,
            middle: bytes.end,
            end: signature.end,
        }
    }

    /// What the line is found by.
    pub fn key<'a>(&self, octets: &'a [u8]) -> Key<'a>
        ensures { sort_key result ≡ place_key octets.now self.now }
    {
        let payload = part(octets, self.payload.start, self.payload.end);
        let bytes = part(octets, self.start, self.middle);
        let signature = part(octets, self.middle, self.end);
        if payload.is_empty() {
            Key::seal(bytes)
        } else if bytes.is_empty() {
            Key::trust(payload)
        } else {
            Key::yes(payload, bytes, signature)
        }
    }

    /// The signature that the line gives octets.
    pub fn given_signature<'a>(&self, octets: &'a [u8]) -> Option<&'a [u8]>
        ensures { option_copied result ≡ given_signature (answer_at octets.now self.now) }
    {
        if part(octets, self.payload.start, self.payload.end).is_empty() {
            Some(part(octets, self.middle, self.end))
        } else {
            None
        }
    }

    /// The payload that the line trusts.
    pub fn trusted_payload<'a>(&self, octets: &'a [u8]) -> Option<&'a [u8]>
        ensures { option_copied result ≡ trusted_payload (answer_at octets.now self.now) }
    {
        let payload = part(octets, self.payload.start, self.payload.end);
        let bytes = part(octets, self.start, self.middle);
        if payload.is_empty() {
            None
        } else if bytes.is_empty() {
            Some(payload)
        } else {
            None
        }
    }

    /// Whether the line trusts this payload.
    pub fn trusts(&self, octets: &[u8], payload: &[u8]) -> bool
        ensures { result ≡ is_trust payload.now (answer_at octets.now self.now) }
    {
        match self.trusted_payload(octets) {
            Some(trusted) => trusted == payload,
            None => false,
        }
    }
}

#[tactic(auto, unfolding(crate::specs::AnswerLine::part))]
/// The octets from one place to another, none where there are no such places.
fn part(octets: &[u8], from: u32, to: u32) -> &[u8]
    ensures { result.now ≡ part octets.now from to }
{
    if from <= to && to as usize <= octets.len() {
        &octets[from as usize..to as usize]
    } else {
        &[]
    }
}
