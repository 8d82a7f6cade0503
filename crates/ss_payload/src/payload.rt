//! The payload block of a session (RFC 5848, section 5.2).
ghost use Rattle.std.specs.Prelude.{◌≡◌, ◌≢◌, ◌∷◌, ℕ, List, Option, Some, None, option_and_then, IfOk, IfSome};
ghost use Rattle.ss_octets.specs.Ascii.{sp};
ghost use Rattle.ss_message.specs.Stamp.{Moment};
ghost use Rattle.ss_message.specs.StampReading.{past};
ghost use Rattle.ss_payload.specs.Payload.{PayloadValue, IsPayload, Spells, if_suited, letter, payload_text};
ghost use Rattle.ss_payload.specs.declared.kind.Kind.TheVariants.{N};
ghost use Rattle.ss_payload.specs.PayloadReading.{stamp_and_rest_in, first_in, kind_in, payload_in};

use crate::kind::Kind;
use crate::payload_reading::payload_of;
use crate::payload_writing::payload_text;
use ss_message::{Stamp, assure_timestamp};
use ss_octets::{Bytes, NoMemory};
use std::alloc::Global;
use std::marker::Model;

/// What an originator states about its key, once in a session: a time, the type of the key blob, and the blob.
/// Contracts see these three, which are in their ranges: the blob is empty exactly for `Kind::N`.
#[derive(Debug, Drop)]
pub struct Payload {
    stamp: Option<Stamp>,
    kind: Kind,
    blob: Bytes,
}

impl Model for Payload {
    ghost use Rattle.ss_payload.specs.Payload.{PayloadValue, IsPayload};

    ghost Value = { PayloadValue };

    ghost view = { λ p. record { stamp = p.stamp; kind = p.kind; blob = p.blob } };

    ghost invariant = { λ p. IsPayload (record { stamp = p.stamp; kind = p.kind; blob = p.blob }) };
}

impl Payload {
    /// A payload of these parts; `None` if `Kind::N` comes with a blob, or another type with an empty one.
    pub fn new(stamp: Option<Stamp>, kind: Kind, blob: Bytes) -> Option<Payload>
        ensures value { result ≡ if_suited (record { stamp = stamp; kind = kind; blob = blob }) }
        ensures in_range { IfSome result IsPayload }
    {
        assure_timestamp(&stamp);
        let octets = blob.as_slice();
        if octets.is_empty() != (kind == Kind::N) {
            return None;
        }
        Some(Payload { stamp, kind, blob })
    }

    /// TIMESTAMP; none if it is `-`.
    pub fn stamp(&self) -> Option<Stamp>
        ensures { result ≡ self.now.stamp }
    {
        self.stamp
    }

    /// The type of the key blob.
    pub fn kind(&self) -> Kind
        ensures { result ≡ self.now.kind }
    {
        self.kind
    }

    /// The octets of the key blob.
    pub fn blob(&self) -> &Bytes
        ensures { result.now ≡ self.now.blob }
    {
        &self.blob
    }

    /// Does nothing: its clause says that every payload is in the ranges that `new` asks for.
    pub fn assure_in_range(&self)
        ensures { IsPayload self.now }
    {
        let _kind = self.kind;
    }

    /// The payload that all the octets spell together; `None` if they spell none. After `N` one SP may stand.
    ///
    /// # Errors
    ///
    /// `NoMemory` if memory runs out.
    pub fn parse(alloc: Global, bytes: &[u8]) -> Result<Option<Payload>, NoMemory>
        ensures value { IfOk result (λ o. o ≡ payload_in bytes.now) }
        // What is read is spelled so.
        ensures found { IfOk result (λ o. IfSome o (λ p. IsPayload p × Spells bytes.now p)) }
        // What is spelled so is read.
        ensures only { (p : PayloadValue) → IsPayload p → Spells bytes.now p → IfOk result (λ o. o ≡ Some p) }
        // Whether a stamp stands in front, and the letter of a type after it, is seen before memory is taken.
        ensures stamp_first { stamp_and_rest_in bytes.now ≡ None → result ≡ Ok None }
        ensures letter_first { (stamp : Option Moment) (rest : List ℕ)
            → stamp_and_rest_in bytes.now ≡ Some (stamp, rest)
            → option_and_then (λ first. kind_in first.0) (first_in rest) ≡ None
            → result ≡ Ok None }
        // After `N` no memory is taken, and after another letter none before SP is seen.
        ensures n_first { (stamp : Option Moment) (behind : List ℕ)
            → stamp_and_rest_in bytes.now ≡ Some (stamp, letter N ∷ behind)
            → result ≡ Ok (payload_in bytes.now) }
        ensures space_first { (stamp : Option Moment) (first : ℕ) (behind : List ℕ)
            → stamp_and_rest_in bytes.now ≡ Some (stamp, first ∷ behind)
            → first ≢ letter N
            → past sp behind ≡ None
            → result ≡ Ok None }
    {
        payload_of(alloc, bytes)
    }

    /// The spelling of the payload, which `parse` reads as this payload again.
    ///
    /// # Errors
    ///
    /// `NoMemory` if memory runs out.
    pub fn write(&self, alloc: Global) -> Result<Bytes, NoMemory>
        ensures text { IfOk result (λ b. b ≡ payload_text self.now) }
        ensures in_range { IsPayload self.now }
        // The text is read as this payload.
        ensures again { payload_in (payload_text self.now) ≡ Some self.now }
        // No other payload has it.
        ensures alone { (p : PayloadValue) → IsPayload p → payload_text p ≡ payload_text self.now → p ≡ self.now }
    {
        payload_text(alloc, &self.stamp, self.kind, self.blob.as_slice())
    }
}
