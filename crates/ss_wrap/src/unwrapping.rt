//! The octets in a wrap.
ghost use Rattle.std.specs.Prelude.{◌≡◌, Some, IfOk};
ghost use Rattle.std.specs.Option.{option_copied};
ghost use Rattle.ss_message.specs.Layout.{field_of, layout_of, value_of};
ghost use Rattle.ss_message.specs.Places.{PartsLie};
ghost use Rattle.ss_wrap.specs.Wrap.{has_wrap_id, after_mark, inner_of, original};

use crate::wrapping::{MARK, MSGID};
use ss_message::{Fault, Message, parse};
use ss_octets::NoMemory;
use std::alloc::Global;

/// Whether the octets of MSGID are those that a wrap has there.
fn is_wrap_id(octets: &[u8]) -> bool
    ensures { result ≡ has_wrap_id (field_of octets.now) }
{
    octets == MSGID
}

/// The octets of MSG after the mark, if MSG begins with it.
fn after_mark<'a>(msg: &'a [u8]) -> Option<&'a [u8]>
    ensures { option_copied result ≡ after_mark (Some msg.now) }
{
    match msg {
        [MARK, octets @ ..] => Some(octets),
        _ => None,
    }
}

/// The octets in a message of the form of a wrap.
fn inner<'a>(message: &Message<'a>) -> Option<&'a [u8]>
    requires { PartsLie message.now.source.now (layout_of message.now) }
    ensures { option_copied result ≡ inner_of (value_of message.now) }
{
    if !is_wrap_id(message.part(message.msgid)) {
        return None;
    }
    if !message.elements.as_slice().is_empty() {
        return None;
    }
    match message.msg {
        None => None,
        Some(span) => after_mark(message.part(span)),
    }
}

/// The octets in a text of the form of a wrap: a message of RFC 5424 with MSGID `wrapped`, no element, and a MSG that
/// begins with `|`. They are all octets of MSG after this one. `None` for any other text.
///
/// Errs only if it runs out of memory, which is taken for the elements of the message.
pub fn original<'a>(alloc: Global, text: &'a [u8]) -> Result<Option<&'a [u8]>, NoMemory>
    ensures { IfOk result (λ found. option_copied found ≡ original text.now) }
{
    match parse(alloc, text) {
        Ok(message) => Ok(inner(&message)),
        Err(Fault::Bad { .. }) => Ok(None),
        Err(Fault::Memory) => Err(NoMemory),
    }
}
