//! A beginning of a payload, as far as fragments were joined.
ghost use Rattle.std.specs.Prelude.{◌≡◌, ◌==◌, length, refl};
ghost use Rattle.std.specs.Ordering.{as_partial_cmp, eq_by_cmp};
ghost use Rattle.std.specs.Cmp.{eq_by_cmp_equiv, partial_equiv_from_equiv, partial_order_from_total};
ghost use Rattle.ss_spelled.specs.Orders.{front_cmp, front_cmp_total};

use ss_octets::Bytes;
use std::cmp::Ordering;

/// The first octets of a payload.
#[derive(Drop)]
pub(crate) struct Front {
    /// How many octets the payload has.
    pub(crate) total: u32,
    /// The octets.
    pub(crate) text: Bytes,
}

impl Front {
    /// Whether it is the payload.
    pub(crate) fn is_whole(&self) -> bool
        ensures { result ≡ (length self.now.text == self.now.total) }
    {
        self.text.as_slice().len() == self.total as usize
    }
}

impl Ord for Front {
    ghost cmp = { front_cmp };

    ghost total = { front_cmp_total };

    ghost matches_partial_cmp = { λ a b. refl };

    ghost matches_eq = { λ a b. refl };

    fn cmp(&self, other: &Front) -> Ordering {
        let text = self.text.as_slice();
        let other_text = other.text.as_slice();
        self.total
            .cmp(&other.total)
            .then_with(|| text.len().cmp(&other_text.len()))
            .then_with(|| text.cmp(&other_text))
    }
}

impl PartialOrd for Front {
    ghost partial_cmp = { as_partial_cmp front_cmp };

    ghost laws = { partial_order_from_total front_cmp_total };

    fn partial_cmp(&self, other: &Front) -> Option<Ordering> {
        Some(self.cmp(other))
    }
}

impl PartialEq for Front {
    ghost eq = { eq_by_cmp front_cmp };

    ghost laws = { partial_equiv_from_equiv (eq_by_cmp_equiv front_cmp_total) };

    fn eq(&self, other: &Front) -> bool {
        self.cmp(other).is_eq()
    }
}

impl Eq for Front {
    ghost laws = { eq_by_cmp_equiv front_cmp_total };
}
