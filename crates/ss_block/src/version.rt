//! VER (RFC 5848, section 4.2.1): protocol version 01, a hash algorithm, and signature scheme 1.
ghost use Rattle.std.specs.Prelude.{◌≡◌, map};
ghost use Rattle.ss_block.specs.Versions.{version_in, version_text, versions};

use crate::hash::Alg;

/// How many octets a hash by SHA-1 has.
pub const SHA1_OCTETS: usize = 20;

/// How many octets a hash by SHA-256 has.
pub const SHA256_OCTETS: usize = 32;

/// The algorithms that a version names.
const ALGORITHMS: [Alg; 2] = [Alg::Sha1, Alg::Sha256];

/// VER of SHA-1.
const SHA1: &str = "0111";

/// VER of SHA-256.
const SHA256: &str = "0121";

/// Both of them.
static VERSIONS: [&str; 2] = [SHA1, SHA256];

/// The versions of blocks, as VER spells them.
pub fn versions<'a>() -> &'a [&'a str]
    ensures { map (λ text. text.now) result.now ≡ versions }
{
    &VERSIONS
}

impl Alg {
    /// The version that names this algorithm, as VER spells it.
    pub fn version(self) -> &'static str
        ensures { result.now ≡ version_text self }
    {
        match self {
            Alg::Sha1 => SHA1,
            Alg::Sha256 => SHA256,
        }
    }

    /// The algorithm of the version that VER spells; `None` where it spells none.
    pub fn of_version(version: &[u8]) -> Option<Alg>
        ensures { result ≡ version_in version.now }
    {
        ALGORITHMS
            .into_iter()
            .find(|alg| version == alg.version().as_bytes())
    }
}
