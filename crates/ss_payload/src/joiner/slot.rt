//! What fragments stated at one index.
ghost use Rattle.std.specs.Prelude.{◌≡◌};
ghost use Rattle.ss_payload.specs.Slots.{joined_slot, slot_differs};

/// What was stated for the octet at one index.
#[derive(Clone, Copy, Debug, PartialEq, Eq)]
pub enum Slot {
    /// Nothing yet.
    Empty,
    /// One octet, once or more often.
    One(u8),
    /// Two octets or more: a mark that stays.
    Many,
}

impl Slot {
    /// What is stated after `octet` is stated too.
    pub fn joined(self, octet: u8) -> Slot
        ensures { result ≡ joined_slot self octet }
    {
        match self {
            Slot::Empty => Slot::One(octet),
            Slot::One(other) => { if other == octet { self } else { Slot::Many } }
            Slot::Many => Slot::Many,
        }
    }

    /// Whether another octet than `octet` was stated.
    pub fn differs(self, octet: u8) -> bool
        ensures { result ≡ slot_differs self octet }
    {
        match self {
            Slot::Empty => false,
            Slot::One(other) => other != octet,
            Slot::Many => true,
        }
    }
}
