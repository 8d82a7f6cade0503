//! What is written for a message.
ghost use Rattle.std.specs.Prelude.{◌≡◌, IfOk};
ghost use Rattle.ss_message.specs.Draft.{drafted_field};
ghost use Rattle.ss_message.specs.Layout.{field_of, layout_of, value_of};
ghost use Rattle.ss_message.specs.Places.{PartsLie};
ghost use Rattle.ss_live.specs.Written.{has_names, is_own, is_same, written_for};

use ss_block::Head;
use ss_message::{Fault, Field, Message, Stamp, parse};
use ss_octets::{Bytes, NoMemory};
use ss_wrap::{needs_wrap, wrap};
use std::alloc::Global;

/// Whether these octets of a header spell the field; `-` is the absent one.
fn is_field(field: &Field, octets: &[u8]) -> bool
    ensures { result ≡ is_same (drafted_field field.now) (field_of octets.now) }
{
    if octets == b"-".as_slice() {
        return matches!(field, Field::Nil);
    }
    match field {
        Field::Nil => false,
        Field::Text(text) => octets == text.as_slice(),
    }
}

/// Whether a message has HOSTNAME, APP-NAME and PROCID of the head.
fn has_names(head: &Head, message: &Message<'_>) -> bool
    requires { PartsLie message.now.source.now (layout_of message.now) }
    ensures { result ≡ has_names head.now (value_of message.now) }
{
    is_field(head.hostname(), message.part(message.hostname))
        && is_field(head.app_name(), message.part(message.app_name))
        && is_field(head.procid(), message.part(message.procid))
}

/// Whether a text is a message of RFC 5424 with HOSTNAME, APP-NAME and PROCID of the head, as the signer's own have.
#[tactic(auto, unfolding(crate::specs::Written::is_own))]
pub fn is_own(alloc: Global, head: &Head, text: &[u8]) -> Result<bool, NoMemory>
    ensures { IfOk result (λ own. own ≡ is_own head.now text.now) }
{
    match parse(alloc, text) {
        Ok(message) => Ok(has_names(head, &message)),
        Err(Fault::Bad { .. }) => Ok(false),
        Err(Fault::Memory) => Err(NoMemory),
    }
}

/// What is written for a message: its wrap, if it needs one or looks like a message of the signer's own; else itself.
#[tactic(auto, unfolding(crate::specs::Written::written_for))]
pub fn text_for(
    alloc: Global,
    head: &Head,
    stamp: Option<Stamp>,
    message: &[u8],
) -> Result<Bytes, NoMemory>
    ensures { IfOk result (λ t. t ≡ written_for head.now stamp message.now) }
{
    if needs_wrap(alloc, message)? {
        return wrap(alloc, head, stamp, message);
    }
    if is_own(alloc, head, message)? {
        return wrap(alloc, head, stamp, message);
    }
    Ok(Bytes::from_vec(Vec::from_slice(alloc, message)?))
}
