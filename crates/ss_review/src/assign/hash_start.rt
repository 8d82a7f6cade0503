//! What hashes begin with.
ghost use Rattle.std.specs.Prelude.{◌≡◌};
ghost use Rattle.ss_review.specs.assign.StoredHashes.{start_of, alg_place, start_cmp, IsNumberOf};

use ss_block::{Alg, Hash};
use std::cmp::Ordering;

/// The algorithm of a hash and its first octets. They differ for most hashes, so that few whole ones are compared.
#[derive(Clone, Copy)]
pub(crate) struct HashStart {
    pub(crate) alg: Alg,
    pub(crate) octets: [u8; 3],
}

/// SHA-1 stands before SHA-256.
fn place_of(alg: Alg) -> u8
    ensures { result ≡ alg_place alg }
{
    alg as u8
}

impl HashStart {
    /// What the hash begins with.
    pub(crate) fn of(hash: &Hash) -> HashStart
        ensures { result ≡ start_of hash.now }
    {
        match hash {
            Hash::Sha1(octets) => HashStart {
                alg: Alg::Sha1,
                octets: [octets[0], octets[1], octets[2]],
            },
            Hash::Sha256(octets) => HashStart {
                alg: Alg::Sha256,
                octets: [octets[0], octets[1], octets[2]],
            },
        }
    }

    /// The algorithm and the octets as one number.
    fn number(&self) -> u32
        ensures { IsNumberOf self.now result }
    {
        u32::from_be_bytes([
            place_of(self.alg),
            self.octets[0],
            self.octets[1],
            self.octets[2],
        ])
    }

    /// How two stand: by the algorithms, then by the octets. Their numbers stand alike, and are compared at once.
    pub(crate) fn compare(&self, other: &HashStart) -> Ordering
        ensures { result ≡ start_cmp self.now other.now }
    {
        self.number().cmp(&other.number())
    }
}
