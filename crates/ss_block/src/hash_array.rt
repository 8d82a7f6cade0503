//! Hashes as an array: their octets, one hash after the other. It takes three quarters of the room of HB.
ghost use Rattle.std.specs.Prelude.{◌≡◌, ◌≤◌, ◌+◌, ◌*◌, ◌++◌, true, length, IfOk, OnOk};
ghost use Rattle.std.specs.List.{list_all};
ghost use Rattle.ss_block.specs.Block.{is_of};
ghost use Rattle.ss_block.specs.HashArrays.{array_of, hashes_at, base64_more, IsArray};
ghost use Rattle.ss_block.specs.Reading.{hash_with};
ghost use Rattle.ss_block.specs.Versions.{hash_length};
ghost use Rattle.ss_block.specs.Writing.{hashes_text};

use crate::hash::{Alg, Hash};
use crate::hashes::Hashes;
use crate::sound::assure_hashes;
use crate::spelling::octets_of;
use crate::version::{SHA1_OCTETS, SHA256_OCTETS};
use base64::engine::general_purpose::STANDARD;
use ss_octets::NoMemory;
use std::alloc::Global;

/// How many octets an SHA-1 hash has in base64.
const SHA1_TEXT_OCTETS: usize = 28;

/// How many octets an SHA-256 hash has in base64, the longest of all.
const SHA256_TEXT_OCTETS: usize = 44;

impl Alg {
    /// How many octets a hash has: 20 or 32.
    pub fn hash_octets(self) -> usize
        ensures { result ≡ hash_length self }
    {
        match self {
            Alg::Sha1 => SHA1_OCTETS,
            Alg::Sha256 => SHA256_OCTETS,
        }
    }

    /// How many octets a hash has in base64 (RFC 4648, section 4): 28 or 44.
    pub fn text_octets(self) -> usize
        ensures { result ≡ hash_length self + base64_more self }
    {
        match self {
            Alg::Sha1 => SHA1_TEXT_OCTETS,
            Alg::Sha256 => SHA256_TEXT_OCTETS,
        }
    }
}

/// The hash of this algorithm that these octets are.
fn hash_with(alg: Alg, octets: &[u8]) -> Hash
    requires { length octets.now ≡ hash_length alg }
    ensures { result ≡ hash_with alg octets.now }
{
    match alg {
        Alg::Sha1 => {
            let mut hash = [0; SHA1_OCTETS];
            hash.copy_from_slice(octets);
            Hash::Sha1(hash)
        }
        Alg::Sha256 => {
            let mut hash = [0; SHA256_OCTETS];
            hash.copy_from_slice(octets);
            Hash::Sha256(hash)
        }
    }
}

/// Puts the octets of these hashes of one algorithm after the others, one hash after the other.
///
/// Errs only where memory runs out.
pub fn put_hash_array(out: &mut Vec<u8>, alg: Alg, hashes: &[Hash]) -> Result<(), NoMemory>
    requires { list_all (is_of alg) hashes.now ≡ true }
    ensures put { OnOk result (out.new.items ≡ out.old.items ++ array_of hashes.now) }
    ensures array { IsArray alg (array_of hashes.now) hashes.now }
{
    assure_hashes(hashes);
    out.reserve(hashes.len().saturating_mul(alg.hash_octets()))?;
    for hash in hashes {
        out.extend_from_slice(octets_of(hash))?;
    }
    Ok(())
}

/// The first `count` hashes of this algorithm that stand in `octets`, one after the other.
///
/// Errs only where memory runs out, which is taken for the hashes.
pub fn array_hashes(
    alloc: Global,
    alg: Alg,
    octets: &[u8],
    count: usize,
) -> Result<Hashes, NoMemory>
    requires { count * hash_length alg ≤ length octets.now }
    ensures { IfOk result (λ hs. hs ≡ hashes_at alg count octets.now) }
{
    let mut hashes = Vec::with_capacity(alloc, count)?;
    let mut rest = octets;
    for _read in 0..count {
        let (hash, after) = rest.split_at(alg.hash_octets());
        hashes.push(hash_with(alg, hash))?;
        rest = after;
    }
    Ok(Hashes::from_vec(hashes))
}

/// Puts HB's value (RFC 5848, section 4.2.7) for the first `count` hashes of this algorithm that stand in `octets`, one
/// after the other: each in base64 by itself, one SP between two.
///
/// Errs only where memory runs out.
pub fn put_array_text(
    out: &mut Vec<u8>,
    alg: Alg,
    octets: &[u8],
    count: usize,
) -> Result<(), NoMemory>
    requires { count * hash_length alg ≤ length octets.now }
    ensures { OnOk result (out.new.items ≡ out.old.items ++ hashes_text (hashes_at alg count octets.now)) }
{
    // With one SP to each hash.
    out.reserve(count.saturating_mul(alg.text_octets() + 1))?;
    // Each use of the constant copies its tables.
    let base64 = STANDARD;
    let mut text = [0; SHA256_TEXT_OCTETS];
    let mut rest = octets;
    for i in 0..count {
        if i > 0 {
            out.push(b' ')?;
        }
        let (hash, after) = rest.split_at(alg.hash_octets());
        let Ok(size) = base64.encode_slice(hash, &mut text) else {
            unreachable!();
        };
        out.extend_from_slice(&text[..size])?;
        rest = after;
    }
    Ok(())
}
