//! Who answers a review's questions about signatures.
ghost use Rattle.std.specs.Prelude.{◌≡◌, List, ℕ, Bool};
ghost use Rattle.ss_review.specs.declared.questions.question.Question.{Question};
ghost use Rattle.ss_review.specs.declared.questions.question.Question.TheVariants as question;
ghost use Rattle.ss_review.specs.sessions.Verifiers.{scheme_of, trust_of, check_of};

use ss_block::Scheme;

/// Whoever answers for a signature scheme: which payloads it trusts, and which signatures of which octets are valid
/// under a payload.
pub trait Judge {
    /// Its answers are those of `trusted` and `valid`, whatever it is asked of what it may be asked.
    ghost sound: { Self → Type 0 };

    /// What it may be asked. A review asks only what `questions` lists for its log.
    ghost askable: { Self → Question → Type 0 };

    /// What it answers of a payload.
    ghost trusted: { Self → List ℕ → Bool };

    /// What it answers of a signature: of a payload, the octets that are signed, and the signature.
    ghost valid: { Self → List ℕ → List ℕ → List ℕ → Bool };

    /// Whether the payload is trusted.
    fn trusts(&self, payload: &[u8]) -> bool
        requires sound { sound self.now }
        requires askable { askable self.now (question.Trust payload.now) }
        ensures { result ≡ trusted self.now payload.now };

    /// Whether, under the payload, the octets have this signature.
    fn accepts(&self, payload: &[u8], octets: &[u8], signature: &[u8]) -> bool
        requires sound { sound self.now }
        requires askable { askable self.now (question.Yes payload.now octets.now signature.now) }
        ensures { result ≡ valid self.now payload.now octets.now signature.now };
}

/// A judge that is lent answers as itself, so that whoever takes a judge for good takes one that is lent too.
impl<'j, J: Judge> Judge for &'j J {
    ghost sound = { λ judge. J.sound judge.now };

    ghost askable = { λ judge q. J.askable judge.now q };

    ghost trusted = { λ judge payload. J.trusted judge.now payload };

    ghost valid = { λ judge payload octets signature. J.valid judge.now payload octets signature };

    fn trusts(&self, payload: &[u8]) -> bool {
        (**self).trusts(payload)
    }

    fn accepts(&self, payload: &[u8], octets: &[u8], signature: &[u8]) -> bool {
        (**self).accepts(payload, octets, signature)
    }
}

/// Answers for a scheme by two closures: `trust` says whether a payload is trusted, and `check` whether, under a
/// payload, octets have a signature. A review asks that they may be called on any octets, and answer exactly what the
/// scheme says.
#[derive(Drop)]
pub struct Verifier<'s, S, T, C> {
    scheme: &'s S,
    trust: T,
    check: C,
}

impl<'s, S: Scheme, T: Fn(&[u8]) -> bool, C: Fn(&[u8], &[u8], &[u8]) -> bool> Verifier<
    's,
    S,
    T,
    C,
> {
    /// Keeps the closures beside the scheme that they answer for. Takes no memory.
    pub fn new(scheme: &'s S, trust: T, check: C) -> Verifier<'s, S, T, C>
        ensures scheme { scheme_of result ≡ scheme.entry }
        ensures trust { trust_of result ≡ trust }
        ensures check { check_of result ≡ check }
    {
        Verifier {
            scheme,
            trust,
            check,
        }
    }
}

impl<'s, S: Scheme, T: Fn(&[u8]) -> bool, C: Fn(&[u8], &[u8], &[u8]) -> bool> Judge
    for Verifier<'s, S, T, C> {
    ghost sound = { λ v. T.IsAlwaysCallable (trust_of v) × C.IsAlwaysCallable (check_of v)
        × ((p : _) (b : Bool) → T.post (trust_of v) p b → b ≡ S.trusted (scheme_of v).now p.now)
        × ((p x s : _) (b : Bool) → C.post (check_of v) p x s b → b ≡ S.valid (scheme_of v).now p.now x.now s.now) };

    ghost askable = { λ v q. Unit {0} };

    ghost trusted = { λ v p. S.trusted (scheme_of v).now p };

    ghost valid = { λ v p x s. S.valid (scheme_of v).now p x s };

    fn trusts(&self, payload: &[u8]) -> bool {
        (self.trust)(payload)
    }

    fn accepts(&self, payload: &[u8], octets: &[u8], signature: &[u8]) -> bool {
        (self.check)(payload, octets, signature)
    }
}
