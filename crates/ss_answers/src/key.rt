//! The keys by which the lines of an answers file are kept in order and looked up.
ghost use Rattle.std.specs.Prelude.{◌≡◌, IfSome};
ghost use Rattle.std.specs.Cmp.Lexicographic.{slice_cmp};
ghost use Rattle.std.specs.Ordering.{nat_cmp};
ghost use Rattle.ss_answers.specs.AnswerKey.{IsFirstNumber};

use std::cmp::Ordering;

/// The question that a line answers: its kind and the octets that it is found by. Lines that answer the same
/// question have equal keys.
#[derive(Clone, Copy)]
pub struct Key<'a> {
    kind: u8,
    first: &'a [u8],
    second: &'a [u8],
    third: &'a [u8],
}

impl<'a> Key<'a> {
    ghost use Rattle.ss_answers.specs.AnswerKey.{sort_key, trust_key, yes_key, seal_key, key_cmp};

    /// Whether a payload is trusted.
    pub fn trust(payload: &'a [u8]) -> Key<'a>
        ensures { sort_key result ≡ trust_key payload.now }
    {
        Key {
            kind: 0,
            first: payload,
            second: &[],
            third: &[],
        }
    }

    /// Whether under a payload octets have a valid signature. The signature is compared first, because signatures
    /// differ in their first octets. The signed octets of the blocks of a session begin alike. The payload is compared
    /// last, because it may be as long as a log, and all blocks of a session have the same one.
    pub fn yes(payload: &'a [u8], bytes: &'a [u8], signature: &'a [u8]) -> Key<'a>
        ensures { sort_key result ≡ yes_key payload.now bytes.now signature.now }
    {
        Key {
            kind: 1,
            first: signature,
            second: bytes,
            third: payload,
        }
    }

    /// Which signature octets are given.
    pub fn seal(octets: &'a [u8]) -> Key<'a>
        ensures { sort_key result ≡ seal_key octets.now }
    {
        Key {
            kind: 2,
            first: octets,
            second: &[],
            third: &[],
        }
    }

    /// By kind, and then by the octets.
    pub fn compare(&self, other: &Key<'_>) -> Ordering
        ensures { result ≡ key_cmp (sort_key self.now) (sort_key other.now) }
    {
        self.kind
            .cmp(&other.kind)
            .then_with(|| compare_octets(self.first, other.first))
            .then_with(|| compare_octets(self.second, other.second))
            .then_with(|| compare_octets(self.third, other.third))
    }
}

/// The order of octets. Signatures differ in their first octets, so these are compared as one number, which mostly
/// decides.
fn compare_octets(mine: &[u8], other: &[u8]) -> Ordering
    ensures { result ≡ slice_cmp nat_cmp mine.now other.now }
{
    if let Some(my_number) = first_number(mine)
        && let Some(other_number) = first_number(other)
        && my_number != other_number
    {
        my_number.cmp(&other_number)
    } else {
        mine.cmp(&other)
    }
}

/// The first eight octets as a number, the greatest first. Shorter ones have none.
fn first_number(octets: &[u8]) -> Option<u64>
    ensures { IfSome result (IsFirstNumber octets.now) }
{
    let first = octets.first_chunk::<8>()?;
    Some(u64::from_be_bytes(*first))
}
