//! What fragments spell, as JSON objects (RFC 8259) on lines.
ghost use Rattle.std.specs.Prelude.{◌≡◌, ◌++◌, OnOk, IfOk};
ghost use Rattle.ss_spelled.specs.Answers.{payload_object, end_text, end_object, answer_text};

use crate::search::Spelled;
use ss_octets::strict_base64::put_base64;
use ss_octets::{Bytes, NoMemory, put_number};
use std::alloc::{AllocError, Global};

/// An object for each payload, and one of how many they are and whether the search was cut, each on a line.
///
/// # Errors
///
/// `NoMemory` if memory runs out.
pub(crate) fn answer_text(alloc: Global, spelled: &Spelled) -> Result<Bytes, NoMemory>
    ensures { IfOk result (λ o. o ≡ answer_text spelled.now) }
{
    let mut text = Vec::new(alloc);
    for payload in spelled.texts.as_slice() {
        put_payload(alloc, &mut text, payload.as_slice())?;
    }
    put_end(&mut text, spelled)?;
    Ok(Bytes::from_vec(text))
}

/// Puts the object of a payload.
fn put_payload(alloc: Global, text: &mut Vec<u8>, payload: &[u8]) -> Result<(), AllocError>
    ensures { OnOk result (text.new.items ≡ text.old.items ++ payload_object payload.now) }
{
    text.extend_from_slice(b"{\"line\":\"payload\",\"payload\":\"")?;
    put_base64(alloc, text, payload)?;
    text.extend_from_slice(b"\"}\n")?;
    Ok(())
}

/// How the last object ends.
fn end_text(cut: bool) -> &'static [u8]
    ensures { result.now ≡ end_text cut }
{
    if cut {
        b",\"cut\":1}\n"
    } else {
        b",\"cut\":0}\n"
    }
}

/// Puts the object of how many payloads there are.
fn put_end(text: &mut Vec<u8>, spelled: &Spelled) -> Result<(), AllocError>
    ensures { OnOk result (text.new.items ≡ text.old.items ++ end_object spelled.now) }
{
    text.extend_from_slice(b"{\"line\":\"spelled\",\"payloads\":")?;
    put_number(text, spelled.texts.as_slice().len() as u64)?;
    text.extend_from_slice(end_text(spelled.cut))?;
    Ok(())
}
