//! The order of HOSTNAME, APP-NAME and PROCID, which the sessions of one originator share.
ghost use Rattle.std.specs.Prelude.{◌≡◌};
ghost use Rattle.ss_block.specs.Order.{field_cmp, presence, spelled};
ghost use Rattle.ss_report.specs.strangers.Strangers.{names_cmp};

use ss_block::Session;
use ss_message::Field;
use std::cmp::Ordering;

/// The octets that spell a field in a header.
fn spelled(field: &Field) -> &[u8]
    ensures { result.now ≡ spelled field.now }
{
    match field {
        Field::Nil => b"-",
        Field::Text(octets) => octets.as_slice(),
    }
}

/// 0 for an absent field, and 1 for one that is there.
fn presence(field: &Field) -> u8
    ensures { result ≡ presence field.now }
{
    match field {
        Field::Nil => 0,
        Field::Text(_) => 1,
    }
}

/// Compares two fields by the octets that spell them. An absent one stands before the text `-`, which no message has.
fn compare_fields(a: &Field, b: &Field) -> Ordering
    ensures { result ≡ field_cmp a.now b.now }
{
    spelled(a)
        .cmp(&spelled(b))
        .then(presence(a).cmp(&presence(b)))
}

/// Compares the HOSTNAME, APP-NAME and PROCID of two sessions.
pub(crate) fn compare_names(a: &Session, b: &Session) -> Ordering
    ensures { result ≡ names_cmp a.now b.now }
{
    compare_fields(&a.host, &b.host)
        .then_with(|| compare_fields(&a.app, &b.app))
        .then_with(|| compare_fields(&a.procid, &b.procid))
}
