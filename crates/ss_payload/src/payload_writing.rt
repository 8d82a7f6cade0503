//! Payload blocks, written (RFC 5848, section 5.2).
ghost use Rattle.std.specs.Prelude.{◌≡◌, ◌++◌, ◌∷◌, IfOk, OnOk};
ghost use Rattle.ss_octets.specs.Ascii.{sp};
ghost use Rattle.ss_message.specs.Message.{timestamp_text};
ghost use Rattle.ss_payload.specs.Payload.{letter, blob_text, payload_text};

use crate::kind::{Kind, letter};
use ss_message::{Stamp, write_stamp};
use ss_octets::strict_base64::put_base64;
use ss_octets::{Bytes, NoMemory};
use std::alloc::{AllocError, Global};

/// The text of TIMESTAMP, which is `-` for none.
fn stamp_text(alloc: Global, stamp: &Option<Stamp>) -> Result<Vec<u8>, NoMemory>
    ensures { IfOk result (λ v. v.items ≡ timestamp_text stamp.now) }
{
    match stamp {
        Some(stamp) => Ok(write_stamp(alloc, stamp)?.into_vec()),
        None => {
            let mut out = Vec::new(alloc);
            out.push(b'-')?;
            Ok(out)
        }
    }
}

/// Writes SP, the letter of the type and what stands after it at the end of `out`.
fn put_blob(alloc: Global, out: &mut Vec<u8>, kind: Kind, blob: &[u8]) -> Result<(), AllocError>
    ensures { OnOk result (out.new.items ≡ out.old.items ++ (sp ∷ letter kind ∷ blob_text kind blob.now)) }
{
    out.push(b' ')?;
    out.push(letter(kind))?;
    match kind {
        Kind::N => Ok(()),
        Kind::C | Kind::P | Kind::K | Kind::U => {
            out.push(b' ')?;
            put_base64(alloc, out, blob)
        }
    }
}

/// The spelling of the payload with these parts.
#[tactic(auto, unfolding(crate::specs::Payload::payload_text))]
pub fn payload_text(
    alloc: Global,
    stamp: &Option<Stamp>,
    kind: Kind,
    blob: &[u8],
) -> Result<Bytes, NoMemory>
    ensures { IfOk result (λ b. b ≡ payload_text (record { stamp = stamp.now; kind = kind; blob = blob.now })) }
{
    let mut out = stamp_text(alloc, stamp)?;
    put_blob(alloc, &mut out, kind, blob)?;
    Ok(Bytes::from_vec(out))
}
