//! A judge that says no to everything.
ghost use Rattle.std.specs.Prelude.{false};

use ss_review::Judge;

/// Trusts no payload, and accepts no signature.
#[derive(Clone, Copy, Debug)]
pub struct RefuseAll;

impl Judge for RefuseAll {
    ghost sound = { λ _. Unit {0} };

    ghost askable = { λ _ _. Unit {0} };

    ghost trusted = { λ _ _. false };

    ghost valid = { λ _ _ _ _. false };

    fn trusts(&self, _payload: &[u8]) -> bool {
        false
    }

    fn accepts(&self, _payload: &[u8], _bytes: &[u8], _signature: &[u8]) -> bool {
        false
    }
}
