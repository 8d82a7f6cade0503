//! Octets in strict base64 (RFC 4648, section 4): padded, and with zero unused bits.
ghost use Rattle.std.specs.Prelude.{◌≡◌, ◌++◌, IfOk, OnOk};
ghost use Rattle.ss_octets.specs.StrictBase64.{base64, octets_in};

use crate::list::Bytes;
use crate::no_memory::NoMemory;
use base64::DecodeAllocError;
use base64::engine::general_purpose::STANDARD;
use std::alloc::{AllocError, Global};

/// The octets that `text` spells in strict base64; `None` if it isn't strict base64, or spells no octet.
///
/// # Errors
///
/// `NoMemory` if memory runs out.
#[tactic(auto, unfolding(crate::specs::StrictBase64::octets_in))]
pub fn decoded(alloc: Global, text: &[u8]) -> Result<Option<Bytes>, NoMemory>
    ensures { IfOk result (λ o. o ≡ octets_in text.now) }
{
    match STANDARD.decode(alloc, text) {
        Ok(octets) if octets.is_empty() => Ok(None),
        Ok(octets) => Ok(Some(Bytes::from_vec(octets))),
        Err(DecodeAllocError::OutOfMemory) => Err(NoMemory),
        Err(DecodeAllocError::DecodeError(_)) => Ok(None),
    }
}

/// Writes the octets in base64 at the end of `out`.
///
/// # Errors
///
/// `AllocError` if memory runs out.
#[tactic(auto, unfolding(crate::specs::StrictBase64::base64))]
pub fn put_base64(alloc: Global, out: &mut Vec<u8>, octets: &[u8]) -> Result<(), AllocError>
    ensures { OnOk result (out.new.items ≡ out.old.items ++ base64 octets.now) }
{
    let text = STANDARD.encode(alloc, octets)?;
    out.extend_from_slice(text.as_bytes())?;
    Ok(())
}
