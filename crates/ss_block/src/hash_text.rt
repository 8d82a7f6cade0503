//! The hashes of a signature block, as HB spells them (RFC 5848, section 4.2.7).
ghost use Rattle.std.specs.Prelude.{◌≡◌, ◌≤◌, List, ℕ, length, Some, None, IfOk, IsTrue, is_some, if◌then◌else◌};
ghost use Rattle.std.specs.List.{list_all};
ghost use Rattle.ss_octets.specs.StrictBase64.{octets_in};
ghost use Rattle.ss_block.specs.Engines.{IsStrict};
ghost use Rattle.ss_block.specs.Reading.{hash_in, hashes_in, pieces};

use crate::hash::{Alg, Hash};
use crate::hashes::Hashes;
use crate::version::{SHA1_OCTETS, SHA256_OCTETS};
use base64::engine::general_purpose::{GeneralPurpose, STANDARD};
use ss_octets::{NoMemory, cut_first};
use std::alloc::Global;

/// Whether `text` spells as many octets as `octets` has room for, which then holds them.
fn fills(base64: &GeneralPurpose, text: &[u8], octets: &mut [u8]) -> bool
    requires strict { IsStrict base64.now }
    requires room { 1 ≤ length octets.old }
    ensures found { IsTrue result → octets_in text.now ≡ Some octets.new }
    ensures only { (b : List ℕ) → length b ≡ length octets.old → octets_in text.now ≡ Some b → IsTrue result }
{
    match base64.decode_slice(text, octets) {
        Ok(count) => count == octets.len(),
        Err(_) => false,
    }
}

/// The hash of this algorithm that `text` spells; `None` where it spells none, or octets of another length.
fn hash_in(base64: &GeneralPurpose, alg: Alg, text: &[u8]) -> Option<Hash>
    requires { IsStrict base64.now }
    ensures { result ≡ hash_in alg text.now }
{
    match alg {
        Alg::Sha1 => {
            let mut octets = [0; SHA1_OCTETS];
            if fills(base64, text, &mut octets) {
                return Some(Hash::Sha1(octets));
            }
        }
        Alg::Sha256 => {
            let mut octets = [0; SHA256_OCTETS];
            if fills(base64, text, &mut octets) {
                return Some(Hash::Sha256(octets));
            }
        }
    }
    None
}

/// How many pieces HB is cut into: one more than it has SPs.
pub fn count_pieces(text: &[u8]) -> usize
    ensures { result ≡ length (pieces text.now) }
{
    let mut count = 1;
    let mut rest = text;
    while let Some((_, after)) = cut_first(rest, b' ') {
        count += 1;
        rest = after;
    }
    count
}

/// The hashes that HB's pieces spell, of which there are `count`; `None` where a piece spells no hash of this algorithm.
/// Room is taken once, for as many as there are pieces: a list that grows has up to twice the room, and a reader keeps
/// many of them.
pub fn hashes_of(
    alloc: Global,
    alg: Alg,
    text: &[u8],
    count: usize,
) -> Result<Option<Hashes>, NoMemory>
    requires { count ≡ length (pieces text.now) }
    ensures { IfOk result (λ o. o ≡ (if list_all (λ piece. is_some (hash_in alg piece)) (pieces text.now)
        then Some (hashes_in alg (pieces text.now)) else None)) }
{
    // Each use of the constant copies its tables.
    let base64 = STANDARD;
    let mut hashes = Vec::with_capacity(alloc, count)?;
    let mut rest = text;
    while let Some((piece, after)) = cut_first(rest, b' ') {
        let Some(hash) = hash_in(&base64, alg, piece) else {
            return Ok(None);
        };
        hashes.push(hash)?;
        rest = after;
    }
    let Some(last) = hash_in(&base64, alg, rest) else {
        return Ok(None);
    };
    hashes.push(last)?;
    Ok(Some(Hashes::from_vec(hashes)))
}
