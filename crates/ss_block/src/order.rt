//! The orders of what blocks hold. Those of groups, hashes and causes are derived; sessions rise by what their headers
//! spell.
ghost use Rattle.std.specs.Prelude.{◌≡◌, refl};
ghost use Rattle.std.specs.Ordering.{as_partial_cmp, eq_by_cmp};
ghost use Rattle.std.specs.Cmp.{eq_by_cmp_equiv, partial_equiv_from_equiv, partial_order_from_total};
ghost use Rattle.ss_block.specs.Order.{spelled, presence, field_cmp, session_cmp};
ghost use Rattle.ss_block.specs.OrderLaws.{session_cmp_total};

use crate::session::Session;
use ss_message::Field;
use std::cmp::Ordering;

/// The octets that spell a field in a header.
fn spelled(field: &Field) -> &[u8]
    ensures { result.now ≡ spelled field.now }
{
    match field {
        Field::Nil => b"-",
        Field::Text(octets) => octets.as_slice(),
    }
}

/// 0 for an absent field, and 1 for one that is there.
fn presence(field: &Field) -> u8
    ensures { result ≡ presence field.now }
{
    match field {
        Field::Nil => 0,
        Field::Text(_) => 1,
    }
}

/// Compares two fields by the octets that spell them. An absent one stands before the text `-`, which no message has.
fn compare_fields(a: &Field, b: &Field) -> Ordering
    ensures { result ≡ field_cmp a.now b.now }
{
    spelled(a)
        .cmp(&spelled(b))
        .then(presence(a).cmp(&presence(b)))
}

impl Ord for Session {
    ghost cmp = { session_cmp };

    ghost total = { session_cmp_total };

    ghost matches_partial_cmp = { λ a b. refl };

    ghost matches_eq = { λ a b. refl };

    fn cmp(&self, other: &Session) -> Ordering {
        compare_fields(&self.host, &other.host)
            .then_with(|| compare_fields(&self.app, &other.app))
            .then_with(|| compare_fields(&self.procid, &other.procid))
            .then_with(|| self.rsid.cmp(&other.rsid))
    }
}

impl PartialOrd for Session {
    ghost partial_cmp = { as_partial_cmp session_cmp };

    ghost laws = { partial_order_from_total session_cmp_total };

    fn partial_cmp(&self, other: &Session) -> Option<Ordering> {
        Some(self.cmp(other))
    }
}

impl PartialEq for Session {
    ghost eq = { eq_by_cmp session_cmp };

    ghost laws = { partial_equiv_from_equiv (eq_by_cmp_equiv session_cmp_total) };

    fn eq(&self, other: &Session) -> bool {
        self.cmp(other).is_eq()
    }
}

impl Eq for Session {
    ghost laws = { eq_by_cmp_equiv session_cmp_total };
}
