//! Who signs the block messages of an originator.
ghost use Rattle.std.specs.Prelude.{◌≡◌, List, ℕ, Bool, true, Result, IfOk};
ghost use Rattle.ss_payload.specs.Payload.{PayloadValue, payload_text};
ghost use Rattle.ss_origin.specs.declared.sealer.SealFault.{SealFault};
ghost use Rattle.ss_origin.specs.Sealing.{answer_of};
ghost use Rattle.ss_origin.specs.Sealers.{scheme_of, key_of, closure_of};
ghost use Rattle.ss_origin.specs.Asking.{IsSameKey};

use ss_block::{Payload, Scheme};
use std::alloc::Global;

/// Why octets aren't signed.
#[derive(Clone, Copy, Debug, PartialEq, Eq)]
pub enum SealFault {
    /// The key can't be used, or not for these octets.
    Refused,
    /// Memory ran out.
    Memory,
}

/// Whoever signs for an originator, with the key of its payload (RFC 5848, sections 4.2.8 and 5.2). It may know what it
/// was asked: after each question it is another value, as `asked` says, of the same key.
pub trait Seals: Drop {
    /// It may be asked to sign anything, and the signatures that it gives are valid.
    ghost sound: { Self → Type 0 };

    /// The payload, which states its key.
    ghost payload: { Self → PayloadValue };

    /// Which signatures are valid: of a payload's text, the octets that are signed, and the signature.
    ghost valid: { Self → List ℕ → List ℕ → List ℕ → Bool };

    /// What it may answer when it is asked to sign octets: a signature, or why there is none.
    ghost answers: { Self → List ℕ → Result (List ℕ) SealFault → Type 0 };

    /// How it goes on: asked to sign these octets, it may answer so, and then be this one.
    ghost asked: { Self → List ℕ → Result (List ℕ) SealFault → Self → Type 0 };

    /// The payload, which states its key.
    fn payload_block(&self) -> &Payload
        ensures { result.now ≡ payload self.now };

    /// A signature of the octets, which is valid under the payload's text.
    fn seal(&mut self, alloc: Global, octets: &[u8]) -> Result<Vec<u8>, SealFault>
        requires { sound self.old }
        ensures sound { sound self.new }
        ensures same { IsSameKey payload valid answers self.old self.new }
        ensures valid { IfOk result (λ v. valid self.old (payload_text (payload self.old)) octets.now v.items ≡ true) }
        ensures answer { answers self.old octets.now (answer_of result) }
        ensures asked { asked self.old octets.now (answer_of result) self.new };
}

/// Signs for a scheme by a closure, which is given octets and answers a signature of them. An originator needs two
/// things of it. The closure may be called on any octets. What it gives is valid for them under the payload's text in
/// the scheme.
#[derive(Drop)]
pub struct Sealer<'s, S, F> {
    scheme: &'s S,
    payload: Payload,
    seal: F,
}

impl<'s, S: Scheme, F: Fn(Global, &[u8]) -> Result<Vec<u8>, SealFault>> Sealer<'s, S, F> {
    /// Keeps the closure beside the scheme and the payload that it signs for. Takes no memory.
    pub fn new(scheme: &'s S, payload: Payload, seal: F) -> Sealer<'s, S, F>
        ensures scheme { scheme_of result ≡ scheme.entry }
        ensures payload { key_of result ≡ payload }
        ensures seal { closure_of result ≡ seal }
    {
        Sealer {
            scheme,
            payload,
            seal,
        }
    }
}

impl<'s, S: Scheme, F: Fn(Global, &[u8]) -> Result<Vec<u8>, SealFault> + Drop> Seals
    for Sealer<'s, S, F> {
    ghost use Rattle.std.specs.Prelude.{◌≡◌, List, ℕ, Result, Ok, true};
    ghost use Rattle.ss_payload.specs.Payload.{payload_text};

    ghost sound = { λ s. F.IsAlwaysCallable (closure_of s)
        × ((a p x : _) → F.post (closure_of s) a p x → (v : _) → x ≡ Ok v
        → S.valid (scheme_of s).now (payload_text (key_of s)) p.now v.items ≡ true) };

    ghost payload = { λ s. key_of s };

    ghost valid = { λ s p octets signature. S.valid (scheme_of s).now p octets signature };

    ghost answers = { λ s octets answer.
        (a p x : _) × F.post (closure_of s) a p x × (p.now ≡ octets) × (answer_of x ≡ answer) };

    // A closure is the same after each call.
    ghost asked = { λ old octets answer new.
        (new ≡ old) × ((a p x : _) × F.post (closure_of old) a p x × (p.now ≡ octets) × (answer_of x ≡ answer)) };

    fn payload_block(&self) -> &Payload {
        &self.payload
    }

    fn seal(&mut self, alloc: Global, octets: &[u8]) -> Result<Vec<u8>, SealFault> {
        (self.seal)(alloc, octets)
    }
}
