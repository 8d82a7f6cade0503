//! Hashes of messages (RFC 5848, section 4.2.7).
ghost use Rattle.std.specs.Prelude.{◌≡◌};
ghost use Rattle.ss_block.specs.Hashes.{pair, pair_hash, hash_of};

use crate::version::{SHA1_OCTETS, SHA256_OCTETS};
use sha1::Sha1;
use sha2::{Digest, Sha256};

/// The hash algorithm that VER names.
#[derive(Clone, Copy, Debug, PartialEq, Eq, PartialOrd, Ord)]
pub enum Alg {
    /// SHA-1.
    Sha1,
    /// SHA-256.
    Sha256,
}

/// The hash of one message.
#[derive(Clone, Copy, Debug, PartialEq, Eq, PartialOrd, Ord)]
pub enum Hash {
    /// SHA-1.
    Sha1([u8; SHA1_OCTETS]),
    /// SHA-256.
    Sha256([u8; SHA256_OCTETS]),
}

/// Both hashes of one message.
#[derive(Clone, Copy, Debug, PartialEq, Eq, PartialOrd, Ord)]
pub struct HashPair {
    pub sha1: [u8; SHA1_OCTETS],
    pub sha256: [u8; SHA256_OCTETS],
}

impl HashPair {
    /// The hash by this algorithm.
    pub fn hash(&self, alg: Alg) -> Hash
        ensures { result ≡ pair_hash self.now alg }
    {
        match alg {
            Alg::Sha1 => Hash::Sha1(self.sha1),
            Alg::Sha256 => Hash::Sha256(self.sha256),
        }
    }
}

/// Both hashes of the whole message, from `<` on, without framing.
#[tactic(auto, unfolding(crate::specs::Hashes::pair))]
pub fn pair_of(message: &[u8]) -> HashPair
    ensures { result ≡ pair message.now }
{
    HashPair {
        sha1: Sha1::digest(message),
        sha256: Sha256::digest(message),
    }
}

/// The hash of the whole message by this algorithm alone, from `<` on, without framing.
#[tactic(auto, unfolding(crate::specs::Hashes::pair))]
pub fn hash_of(alg: Alg, message: &[u8]) -> Hash
    ensures { result ≡ hash_of alg message.now }
{
    match alg {
        Alg::Sha1 => Hash::Sha1(Sha1::digest(message)),
        Alg::Sha256 => Hash::Sha256(Sha256::digest(message)),
    }
}
