//! Types of key blobs (RFC 5848, section 5.2.1).
ghost use Rattle.std.specs.Prelude.{◌≡◌};
ghost use Rattle.ss_payload.specs.Payload.{letter};
ghost use Rattle.ss_payload.specs.PayloadReading.{kind_in};

/// What the key blob of a payload block is.
#[derive(Clone, Copy, Debug, PartialEq, Eq)]
pub enum Kind {
    /// `C`: a PKIX certificate.
    C,
    /// `P`: an OpenPGP key.
    P,
    /// `K`: a public key.
    K,
    /// `N`: nothing, because the key was distributed before.
    N,
    /// `U`: specific to the installation.
    U,
}

/// The letter of the type, a capital.
pub fn letter(kind: Kind) -> u8
    ensures { result ≡ letter kind }
{
    match kind {
        Kind::C => b'C',
        Kind::P => b'P',
        Kind::K => b'K',
        Kind::N => b'N',
        Kind::U => b'U',
    }
}

/// The type that the letter, a capital, stands for; `None` if it is no letter of a type.
pub fn kind_of(octet: u8) -> Option<Kind>
    ensures { result ≡ kind_in octet }
{
    match octet {
        b'C' => Some(Kind::C),
        b'P' => Some(Kind::P),
        b'K' => Some(Kind::K),
        b'N' => Some(Kind::N),
        b'U' => Some(Kind::U),
        _ => None,
    }
}
