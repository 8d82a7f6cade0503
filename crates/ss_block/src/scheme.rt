//! Signature schemes.
ghost use Rattle.std.specs.Prelude.{List, ℕ, Bool};

/// A signature scheme, which contracts alone name. It says which payloads are trusted, and which signatures of which
/// octets are valid under a payload.
pub trait Scheme {
    /// The scheme trusts a payload.
    ghost trusted: { Self → List ℕ → Bool };

    /// Under a payload, octets have a valid signature.
    ghost valid: { Self → List ℕ → List ℕ → List ℕ → Bool };
}
