//! The totals that fragments stated.
ghost use Rattle.std.specs.Prelude.{◌≡◌, eqb};
ghost use Rattle.ss_payload.specs.Totals.{joined_total, total_differs};

/// What was stated for the length of a payload, in octets.
#[derive(Clone, Copy, Debug, PartialEq, Eq)]
pub enum Totals {
    /// Nothing yet.
    Unstated,
    /// One length, once or more often.
    One(u32),
    /// Two lengths or more.
    Many,
}

impl Totals {
    /// What is stated after `total` is stated too.
    pub fn joined(self, total: u32) -> Totals
        ensures { result ≡ joined_total self total }
    {
        match self {
            Totals::Unstated => Totals::One(total),
            Totals::One(other) => { if other == total { self } else { Totals::Many } }
            Totals::Many => Totals::Many,
        }
    }

    /// Whether another length than `total` was stated.
    pub fn differs(self, total: u32) -> bool
        ensures { result ≡ total_differs self total }
    {
        match self {
            Totals::Unstated => false,
            Totals::One(other) => other != total,
            Totals::Many => true,
        }
    }
}
