//! What the type of a hash says about each value, for contracts. The calls do nothing else.
ghost use Rattle.std.specs.Prelude.{◌≡◌, length};
ghost use Rattle.std.specs.List.{All};
ghost use Rattle.base64.specs.GeneralPurpose.{IsBytes};
ghost use Rattle.ss_block.specs.WritingLaws.{IsHash};

use ss_block::Hash;

/// Assures that each octet is below 256.
fn assure_octets(octets: &[u8])
    ensures { IsBytes octets.now }
{}

/// Assures that a hash by SHA-1 has 20 octets, each of them below 256.
fn assure_sha1(octets: &[u8; 20])
    ensures count { length octets.now ≡ 20 }
    ensures octets { IsBytes octets.now }
{
    assure_octets(octets);
}

/// Assures that a hash by SHA-256 has 32 octets, each of them below 256.
fn assure_sha256(octets: &[u8; 32])
    ensures count { length octets.now ≡ 32 }
    ensures octets { IsBytes octets.now }
{
    assure_octets(octets);
}

/// Assures that a hash has as many octets as its algorithm makes, each of them below 256.
fn assure_hash(hash: &Hash)
    ensures { IsHash hash.now }
{
    match hash {
        Hash::Sha1(octets) => assure_sha1(octets),
        Hash::Sha256(octets) => assure_sha256(octets),
    }
}

/// Assures that each hash has as many octets as its algorithm makes, each of them below 256.
pub fn assure_hashes(hashes: &[Hash])
    ensures { All IsHash hashes.now }
{
    for hash in hashes {
        assure_hash(hash);
    }
}
