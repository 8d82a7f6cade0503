//! The values of a block's parameters, spelled (RFC 5848, sections 4.2 and 5.3.2).
ghost use Rattle.std.specs.Prelude.{◌≡◌, decimal, IfOk};
ghost use Rattle.ss_octets.specs.StrictBase64.{base64};
ghost use Rattle.ss_block.specs.Writing.{hash_octets, hashes_text};

use crate::hash::Hash;
use base64::engine::general_purpose::STANDARD;
use ss_octets::{Bytes, NoMemory, put_number};
use std::alloc::Global;

/// The number in decimal.
pub fn number_text(alloc: Global, number: u64) -> Result<Bytes, NoMemory>
    ensures { IfOk result (λ b. b ≡ decimal number) }
{
    let mut digits = Vec::new(alloc);
    put_number(&mut digits, number)?;
    Ok(Bytes::from_vec(digits))
}

/// The octets in base64.
#[tactic(auto, unfolding(ss_octets::specs::StrictBase64::base64))]
pub fn base64_text(alloc: Global, octets: &[u8]) -> Result<Bytes, NoMemory>
    ensures { IfOk result (λ b. b ≡ base64 octets.now) }
{
    let text = STANDARD.encode(alloc, octets)?;
    Ok(Bytes::from_vec(text.into_bytes()))
}

/// The octets of the hash.
pub fn octets_of(hash: &Hash) -> &[u8]
    ensures { result.now ≡ hash_octets hash.now }
{
    match hash {
        Hash::Sha1(octets) => octets,
        Hash::Sha256(octets) => octets,
    }
}

/// HB: each hash in base64 by itself, one SP between two.
pub fn hashes_text(alloc: Global, hashes: &[Hash]) -> Result<Bytes, NoMemory>
    ensures { IfOk result (λ b. b ≡ hashes_text hashes.now) }
{
    let mut text = String::new(alloc);
    for (i, hash) in hashes.iter().enumerate() {
        if i > 0 {
            text.push_str(" ")?;
        }
        STANDARD.encode_string(octets_of(hash), &mut text)?;
    }
    Ok(Bytes::from_vec(text.into_bytes()))
}
