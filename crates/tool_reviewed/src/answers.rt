//! The answers of a signature checker.
ghost use Rattle.std.specs.Prelude.{◌≡◌, ◌&&◌, Bool, List, ℕ};
ghost use Rattle.std.specs.List.{list_any};
ghost use Rattle.std.specs.Str.{bytes_eq};

use ss_review::Judge;

/// A signature that is valid: under which payload, and of which octets.
#[derive(Clone, Copy, PartialEq)]
pub struct Signed<'a> {
    pub payload: &'a [u8],
    pub octets: &'a [u8],
    pub signature: &'a [u8],
}

/// The payloads that are trusted, and the signatures that are valid.
#[derive(Drop)]
pub struct Answers<'a> {
    pub trusted: Vec<&'a [u8]>,
    pub signed: Vec<Signed<'a>>,
}

impl<'a> Judge for Answers<'a> {
    ghost sound = { λ _. Unit {0} };

    ghost askable = { λ _ _. Unit {0} };

    ghost trusted = { λ a p. list_any (λ t. bytes_eq t.now p) a.trusted.items };

    ghost valid = { λ a p x s.
        list_any (λ t.
        bytes_eq t.payload.now p && (bytes_eq t.octets.now x && bytes_eq t.signature.now s)) a.signed.items };

    fn trusts(&self, payload: &[u8]) -> bool {
        self.trusted.as_slice().contains(&payload)
    }

    fn accepts(&self, payload: &[u8], octets: &[u8], signature: &[u8]) -> bool {
        self.signed.as_slice().contains(&Signed {
            payload,
            octets,
            signature,
        })
    }
}
