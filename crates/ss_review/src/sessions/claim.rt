//! What a judge is asked about in a block: its signature, what is signed of it, and its session.
ghost use Rattle.std.specs.Prelude.{◌≡◌, refl};
ghost use Rattle.std.specs.Ordering.{as_partial_cmp, eq_by_cmp};
ghost use Rattle.std.specs.Cmp.{eq_by_cmp_equiv, partial_equiv_from_equiv, partial_order_from_total};
ghost use Rattle.ss_message.specs.Octets.{part_of};
ghost use Rattle.ss_review.specs.keep.Packed.{kept_packed};
ghost use Rattle.ss_review.specs.sessions.Claims.{signature_start, packed_cmp, sender_cmp, kept_cmp, claim_cmp};
ghost use Rattle.ss_review.specs.sessions.Claims.{claim_cmp_total, IsClaimOf};

use crate::keep::block_message::BlockMessage;
use crate::keep::kept_block::KeptFields;
use crate::keep::packed::Packed;
use ss_message::Span;
use std::cmp::Ordering;

/// The signature of a block, the octets that are signed as they are kept, and the session, all where the block keeps
/// them. Under one scheme and log, the same holds of all blocks that agree in these. The first octets of the signature
/// stand here too: they differ for most blocks, so most claims are told apart by one number.
#[derive(Clone, Copy)]
pub(crate) struct Claim<'a> {
    start: u64,
    kept: &'a KeptFields,
}

/// The first eight octets of a signature as one number, the greatest first; 0 for a shorter one.
fn signature_start(signature: &[u8]) -> u64
    ensures { result ≡ signature_start signature.now }
{
    match signature.first_chunk::<8>() {
        Some(first) => u64::from_be_bytes(*first),
        None => 0,
    }
}

impl<'a> Claim<'a> {
    /// The claim of a block.
    pub(crate) fn of(block: &'a BlockMessage) -> Claim<'a>
        ensures { IsClaimOf result block.now }
    {
        let kept = block.fields();
        Claim {
            start: signature_start(kept.packed.signature()),
            kept,
        }
    }
}

/// Compares the octets that are kept of what is signed, then where the hashes stand among them, how many they are, and
/// how long each is.
fn compare_packed(a: &Packed, b: &Packed) -> Ordering
    ensures { result ≡ packed_cmp a.now b.now }
{
    a.kept()
        .cmp(&b.kept())
        .then_with(|| a.start.cmp(&b.start))
        .then_with(|| a.count.cmp(&b.count))
        .then_with(|| a.alg.hash_octets().cmp(&b.alg.hash_octets()))
}

/// The octets of the place, as far as they are kept.
fn part(kept: &KeptFields, place: Span) -> &[u8]
    ensures { result.now ≡ part_of (kept_packed kept.now.packed) place }
{
    let octets = kept.packed.kept();
    let end = place.end.min(octets.len());
    if place.start < end {
        &octets[place.start..end]
    } else {
        &[]
    }
}

/// Compares the sessions of two blocks by the octets that spell HOSTNAME, APP-NAME and PROCID, then by RSID.
fn compare_senders(a: &KeptFields, b: &KeptFields) -> Ordering
    ensures { result ≡ sender_cmp a.now b.now }
{
    let mine = a.sender.places();
    let other = b.sender.places();
    part(a, mine.host)
        .cmp(&part(b, other.host))
        .then_with(|| part(a, mine.app).cmp(&part(b, other.app)))
        .then_with(|| part(a, mine.procid).cmp(&part(b, other.procid)))
        .then_with(|| mine.rsid.cmp(&other.rsid))
}

/// Compares the signatures of two blocks, then what is signed of them, then their sessions.
fn compare_kept(a: &KeptFields, b: &KeptFields) -> Ordering
    ensures { result ≡ kept_cmp a.now b.now }
{
    a.packed
        .signature()
        .cmp(&b.packed.signature())
        .then_with(|| compare_packed(&a.packed, &b.packed))
        .then_with(|| compare_senders(a, b))
}

impl<'a> Ord for Claim<'a> {
    ghost cmp = { claim_cmp };

    ghost total = { claim_cmp_total };

    ghost matches_partial_cmp = { λ a b. refl };

    ghost matches_eq = { λ a b. refl };

    fn cmp(&self, other: &Claim<'a>) -> Ordering {
        self.start
            .cmp(&other.start)
            .then_with(|| compare_kept(self.kept, other.kept))
    }
}

impl<'a> PartialOrd for Claim<'a> {
    ghost partial_cmp = { as_partial_cmp claim_cmp };

    ghost laws = { partial_order_from_total claim_cmp_total };

    fn partial_cmp(&self, other: &Claim<'a>) -> Option<Ordering> {
        Some(self.cmp(other))
    }
}

impl<'a> PartialEq for Claim<'a> {
    ghost eq = { eq_by_cmp claim_cmp };

    ghost laws = { partial_equiv_from_equiv (eq_by_cmp_equiv claim_cmp_total) };

    fn eq(&self, other: &Claim<'a>) -> bool {
        self.cmp(other).is_eq()
    }
}

impl<'a> Eq for Claim<'a> {
    ghost laws = { eq_by_cmp_equiv claim_cmp_total };
}
