//! Octets with SIGN in them again.
ghost use Rattle.std.specs.Prelude.{◌≡◌, ◌≤◌, IfOk, length};
ghost use Rattle.ss_signed.specs.Places.{completed_text};

use ss_octets::{Bytes, NoMemory};
use std::alloc::Global;

/// SP, and a SIGN as good as any other.
const SIGN: &[u8] = b" SIGN=\"AA==\"";

/// The octets with SIGN at this place, which lies within them.
pub fn completed_text(alloc: Global, octets: &[u8], place: usize) -> Result<Bytes, NoMemory>
    requires { place ≤ length octets.now }
    ensures { IfOk result (λ t. t ≡ completed_text octets.now place) }
{
    let mut text = Vec::new(alloc);
    text.extend_from_slice(&octets[..place])?;
    text.extend_from_slice(SIGN)?;
    text.extend_from_slice(&octets[place..])?;
    Ok(Bytes::from_vec(text))
}
