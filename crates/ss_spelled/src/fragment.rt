//! A fragment of a payload.
ghost use Rattle.std.specs.Prelude.{◌≡◌, refl};
ghost use Rattle.std.specs.Ordering.{as_partial_cmp, eq_by_cmp};
ghost use Rattle.std.specs.Cmp.{eq_by_cmp_equiv, partial_equiv_from_equiv, partial_order_from_total};
ghost use Rattle.ss_spelled.specs.Orders.{fragment_cmp, fragment_cmp_total};

use ss_octets::Bytes;
use std::cmp::Ordering;

/// A fragment of a payload, as a certificate block states it.
#[derive(Debug, Drop)]
pub struct Fragment {
    /// How many octets the payload has (TPBL).
    pub total: u32,
    /// Where in the payload the fragment begins, from 1 on (INDEX).
    pub index: u32,
    /// Its octets (FRAG).
    pub octets: Bytes,
}

impl Ord for Fragment {
    ghost cmp = { fragment_cmp };

    ghost total = { fragment_cmp_total };

    ghost matches_partial_cmp = { λ a b. refl };

    ghost matches_eq = { λ a b. refl };

    fn cmp(&self, other: &Fragment) -> Ordering {
        self.total
            .cmp(&other.total)
            .then_with(|| self.index.cmp(&other.index))
            .then_with(|| self.octets.as_slice().cmp(&other.octets.as_slice()))
    }
}

impl PartialOrd for Fragment {
    ghost partial_cmp = { as_partial_cmp fragment_cmp };

    ghost laws = { partial_order_from_total fragment_cmp_total };

    fn partial_cmp(&self, other: &Fragment) -> Option<Ordering> {
        Some(self.cmp(other))
    }
}

impl PartialEq for Fragment {
    ghost eq = { eq_by_cmp fragment_cmp };

    ghost laws = { partial_equiv_from_equiv (eq_by_cmp_equiv fragment_cmp_total) };

    fn eq(&self, other: &Fragment) -> bool {
        self.cmp(other).is_eq()
    }
}

impl Eq for Fragment {
    ghost laws = { eq_by_cmp_equiv fragment_cmp_total };
}
