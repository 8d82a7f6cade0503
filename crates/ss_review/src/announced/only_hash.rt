//! The only hash that is announced for a number.
ghost use Rattle.std.specs.Prelude.{◌≡◌, option_map, None, Some};

use ss_block::Hash;
use std::marker::Model;

/// The hash that is announced for a message number, where there is but one, and else none. It is where it was announced,
/// so it takes eight octets. Contracts see the hash.
#[derive(Drop)]
pub(crate) struct OnlyHash<'a> {
    hash: Option<&'a Hash>,
}

impl<'a> Model for OnlyHash<'a> {
    ghost use Rattle.std.specs.Prelude.{Option, option_map};
    ghost use Rattle.ss_block.specs.declared.hash.Hash.{Hash};

    ghost Value = { Option Hash };

    ghost view = { λ o. option_map (λ h. h.now) o.hash };
}

impl<'a> OnlyHash<'a> {
    /// This is the only hash.
    pub(crate) fn one(hash: &'a Hash) -> OnlyHash<'a>
        ensures { result ≡ Some hash.now }
    {
        OnlyHash { hash: Some(hash) }
    }

    /// There are several.
    pub(crate) fn several() -> OnlyHash<'a>
        ensures { result ≡ None }
    {
        OnlyHash { hash: None }
    }

    /// The hash, where there is but one.
    pub(crate) fn get(&self) -> Option<&'a Hash>
        ensures { option_map (λ h. h.now) result ≡ self.now }
    {
        self.hash
    }
}
