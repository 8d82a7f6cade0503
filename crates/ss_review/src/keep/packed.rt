//! The signed octets of a block and its signature, as a review keeps them.
ghost use Rattle.std.specs.Prelude.{◌≡◌, ◌≤◌, ◌++◌, true, length, take, drop, IfOk};
ghost use Rattle.std.specs.List.{list_all};
ghost use Rattle.ss_message.specs.Octets.{part_of};
ghost use Rattle.ss_message.specs.Places.{IsWithin};
ghost use Rattle.ss_block.specs.Block.{is_of};
ghost use Rattle.ss_block.specs.HashArrays.{array_of, IsArray};
ghost use Rattle.ss_block.specs.Writing.{hashes_text};
ghost use Rattle.ss_review.specs.keep.Packed.{array_long, array_on, front_packed, back_packed, hashes_packed};
ghost use Rattle.ss_review.specs.keep.Packed.{kept_packed, signature_packed, signed_packed, IsPacked};

use crate::questions::asking::copy_of;
use ss_block::{Alg, Hash, Hashes, array_hashes, put_array_text, put_hash_array};
use ss_message::Span;
use ss_octets::{Bytes, NoMemory};
use std::alloc::Global;

/// The signed octets of a block, with its hashes in octets in place of their base64, which takes a third more. Its
/// signature stands after them, so that both take one piece of memory.
#[derive(Drop)]
pub(crate) struct Packed {
    /// The octets before HB's value, those of the hashes, and those after HB's value; of a certificate block, all that
    /// is signed. After these, the octets of the signature.
    octets: Bytes,
    /// VER's hash algorithm.
    pub(crate) alg: Alg,
    /// How many hashes stand there: CNT, 1 to 99; 0 of a certificate block.
    pub(crate) count: u8,
    /// Where the first of them stands; of a certificate block, where the signature begins.
    pub(crate) start: u32,
    /// Where the signature begins.
    end: u32,
}

/// The octets with the array of these hashes of one algorithm in place of those of `text`, then the signature. They
/// take no more memory than they need.
fn packed_octets(
    alloc: Global,
    signed: &[u8],
    text: Span,
    alg: Alg,
    hashes: &[Hash],
    signature: &[u8],
) -> Result<Bytes, NoMemory>
    requires within { IsWithin signed.now text }
    requires hashes { list_all (is_of alg) hashes.now ≡ true }
    requires few { length hashes.now ≤ 99 }
    ensures octets { IfOk result
        (λ b. b ≡ (take text.start signed.now ++ (array_of hashes.now ++ drop text.end signed.now)) ++ signature.now) }
    ensures array { IfOk result (λ _. IsArray alg (array_of hashes.now) hashes.now) }
{
    let array = hashes.len() * alg.hash_octets();
    let kept = signed.len() - (text.end - text.start) + array;
    let mut octets = Vec::with_capacity(alloc, kept.saturating_add(signature.len()))?;
    octets.extend_from_slice(&signed[..text.start])?;
    put_hash_array(&mut octets, alg, hashes)?;
    octets.extend_from_slice(&signed[text.end..])?;
    octets.extend_from_slice(signature)?;
    Ok(Bytes::from_vec(octets))
}

impl Packed {
    /// The signed octets of a signature block with these hashes and this signature, where HB's value stands at `text`.
    pub(crate) fn of_signature(
        alloc: Global,
        signed: &[u8],
        text: Span,
        alg: Alg,
        hashes: &[Hash],
        signature: &[u8],
    ) -> Result<Packed, NoMemory>
        requires within { IsWithin signed.now text }
        requires spelled { part_of signed.now text ≡ hashes_text hashes.now }
        requires hashes { list_all (is_of alg) hashes.now ≡ true }
        requires few { length hashes.now ≤ 99 }
        ensures packed { IfOk result IsPacked }
        ensures alg { IfOk result (λ p. p.alg ≡ alg) }
        ensures count { IfOk result (λ p. p.count ≡ length hashes.now) }
        ensures start { IfOk result (λ p. p.start ≡ text.start) }
        ensures hashes { IfOk result (λ p. hashes_packed p ≡ hashes.now) }
        ensures front { IfOk result (λ p. front_packed p ≡ take text.start signed.now) }
        ensures signed { IfOk result (λ p. signed_packed p ≡ signed.now) }
        ensures signature { IfOk result (λ p. signature_packed p ≡ signature.now) }
    {
        let octets = packed_octets(alloc, signed, text, alg, hashes, signature)?;
        let size = octets.as_slice().len();
        if size > u32::MAX as usize {
            return Err(NoMemory);
        }
        Ok(Packed {
            octets,
            alg,
            count: hashes.len() as u8,
            start: text.start as u32,
            end: (size - signature.len()) as u32,
        })
    }

    /// The signed octets of a certificate block with this signature.
    pub(crate) fn of_certificate(
        alloc: Global,
        alg: Alg,
        signed: &[u8],
        signature: &[u8],
    ) -> Result<Packed, NoMemory>
        ensures packed { IfOk result IsPacked }
        ensures alg { IfOk result (λ p. p.alg ≡ alg) }
        ensures count { IfOk result (λ p. p.count ≡ 0) }
        ensures kept { IfOk result (λ p. kept_packed p ≡ signed.now) }
        ensures start { IfOk result (λ p. p.start ≡ length signed.now) }
        ensures signed { IfOk result (λ p. signed_packed p ≡ signed.now) }
        ensures signature { IfOk result (λ p. signature_packed p ≡ signature.now) }
    {
        let size = signed.len() + signature.len();
        if size > u32::MAX as usize {
            return Err(NoMemory);
        }
        let mut octets = Vec::with_capacity(alloc, size)?;
        octets.extend_from_slice(signed)?;
        octets.extend_from_slice(signature)?;
        let end = signed.len() as u32;
        Ok(Packed {
            octets: Bytes::from_vec(octets),
            alg,
            count: 0,
            start: end,
            end,
        })
    }

    /// What is kept of the signed octets.
    pub(crate) fn kept(&self) -> &[u8]
        ensures { result.now ≡ kept_packed self.now }
    {
        let octets = self.octets.as_slice();
        &octets[..octets.len().min(self.end as usize)]
    }

    /// SIGN's octets.
    pub(crate) fn signature(&self) -> &[u8]
        ensures { result.now ≡ signature_packed self.now }
    {
        let octets = self.octets.as_slice();
        &octets[octets.len().min(self.end as usize)..]
    }

    /// The octets before HB's value. Of a certificate block, all that is signed.
    pub(crate) fn front(&self) -> &[u8]
        requires { IsPacked self.now }
        ensures { result.now ≡ front_packed self.now }
    {
        &self.kept()[..self.start as usize]
    }

    /// How many octets the hashes take.
    fn array_long(&self) -> usize
        ensures { result ≡ array_long self.now }
    {
        self.count as usize * self.alg.hash_octets()
    }

    /// The octets from the first hash on, up to the signature.
    fn array_on(&self) -> &[u8]
        requires { IsPacked self.now }
        ensures { result.now ≡ array_on self.now }
    {
        &self.kept()[self.start as usize..]
    }

    /// The signed octets after HB's value.
    fn back(&self) -> &[u8]
        requires { IsPacked self.now }
        ensures { result.now ≡ back_packed self.now }
    {
        &self.array_on()[self.array_long()..]
    }

    /// How many octets HB's value has.
    fn text_octets(&self) -> usize
        requires { IsPacked self.now }
        ensures long { result ≡ length (hashes_text (hashes_packed self.now)) }
        // There are 255 hashes at most, of 45 octets with their SP.
        ensures few { result ≤ 11475 }
    {
        // The base64 of each, and one SP between two.
        let each = self.alg.text_octets() + 1;
        (self.count as usize * each).saturating_sub(1)
    }

    /// How many octets are signed.
    pub(crate) fn signed_octets(&self) -> usize
        requires { IsPacked self.now }
        ensures { result ≡ length (signed_packed self.now) }
    {
        self.kept().len() - self.array_long() + self.text_octets()
    }

    /// What is signed.
    pub(crate) fn signed(&self, alloc: Global) -> Result<Bytes, NoMemory>
        requires { IsPacked self.now }
        ensures { IfOk result (λ b. b ≡ signed_packed self.now) }
    {
        let mut signed = Vec::with_capacity(alloc, self.signed_octets())?;
        signed.extend_from_slice(self.front())?;
        put_array_text(&mut signed, self.alg, self.array_on(), self.count as usize)?;
        signed.extend_from_slice(self.back())?;
        Ok(Bytes::from_vec(signed))
    }

    /// The first of the hashes.
    pub(crate) fn hashes(&self, alloc: Global, first: u8) -> Result<Hashes, NoMemory>
        requires packed { IsPacked self.now }
        requires within { first ≤ self.now.count }
        ensures { IfOk result (λ hs. hs ≡ take first (hashes_packed self.now)) }
    {
        array_hashes(alloc, self.alg, self.array_on(), first as usize)
    }

    /// The same octets, in memory of their own.
    pub(crate) fn try_clone(&self, alloc: Global) -> Result<Packed, NoMemory>
        ensures { IfOk result (λ p. p ≡ self.now) }
    {
        Ok(Packed {
            octets: copy_of(alloc, &self.octets)?,
            alg: self.alg,
            count: self.count,
            start: self.start,
            end: self.end,
        })
    }
}
