//! A message of its own for octets that may be no message.
ghost use Rattle.std.specs.Prelude.{◌≡◌, ◌∷◌, IfOk};
ghost use Rattle.ss_message.specs.Draft.{drafted};
ghost use Rattle.ss_wrap.specs.Wrap.{wrap_mark, wrap_value, wrap_text};

use ss_block::Head;
use ss_message::{
    Draft, DraftElements, DraftFault, Field, Stamp, assure_timestamp, front_pri, write_message,
};
use ss_octets::{Bytes, NoMemory};
use std::alloc::Global;

/// A copy of these octets.
fn copy_of(alloc: Global, octets: &[u8]) -> Result<Bytes, NoMemory>
    ensures { IfOk result (λ b. b ≡ octets.now) }
{
    Ok(Bytes::from_vec(Vec::from_slice(alloc, octets)?))
}

/// A copy of this field.
fn copy_of_field(alloc: Global, field: &Field) -> Result<Field, NoMemory>
    ensures { IfOk result (λ f. f ≡ field.now) }
{
    match field {
        Field::Nil => Ok(Field::Nil),
        Field::Text(octets) => Ok(Field::Text(copy_of(alloc, octets.as_slice())?)),
    }
}

/// `|`, the first octet of MSG of a wrap. So no byte order mark begins that MSG.
pub(crate) const MARK: u8 = b'|';

/// MSG of a wrap: the mark, and all these octets.
fn marked(alloc: Global, octets: &[u8]) -> Result<Bytes, NoMemory>
    ensures { IfOk result (λ b. b ≡ wrap_mark ∷ octets.now) }
{
    let mut msg = Vec::with_capacity(alloc, octets.len() + 1)?;
    msg.push(MARK)?;
    msg.extend_from_slice(octets)?;
    Ok(Bytes::from_vec(msg))
}

/// PRI of a wrap where the octets in it begin with none: facility 1 (user-level), severity 5 (notice).
const USUAL_PRI: u8 = 13;

/// MSGID of a wrap.
pub(crate) const MSGID: &[u8] = b"wrapped";

/// The message that is to be written as a wrap.
fn draft_of(
    alloc: Global,
    head: &Head,
    stamp: Option<Stamp>,
    octets: &[u8],
) -> Result<Draft, NoMemory>
    ensures { IfOk result (λ d. drafted d ≡ wrap_value head.now stamp octets.now) }
{
    Ok(Draft {
        pri: front_pri(octets).unwrap_or(USUAL_PRI),
        stamp,
        hostname: copy_of_field(alloc, head.hostname())?,
        app_name: copy_of_field(alloc, head.app_name())?,
        procid: copy_of_field(alloc, head.procid())?,
        msgid: Field::Text(copy_of(alloc, MSGID)?),
        elements: DraftElements::from_vec(Vec::new(alloc)),
        msg: Some(marked(alloc, octets)?),
    })
}

/// The message that has all these octets in its MSG, after `|`. Its PRI is the one with which the octets begin, else
/// 13; HOSTNAME, APP-NAME and PROCID are those of the head; MSGID is `wrapped`; it has no element.
///
/// Errs only if it runs out of memory.
#[tactic(auto, unfolding(crate::specs::Wrap::wrap_text))]
pub fn wrap(
    alloc: Global,
    head: &Head,
    stamp: Option<Stamp>,
    octets: &[u8],
) -> Result<Bytes, NoMemory>
    ensures { IfOk result (λ t. t ≡ wrap_text head.now stamp octets.now) }
{
    head.assure_in_range();
    assure_timestamp(&stamp);
    let draft = draft_of(alloc, head, stamp, octets)?;
    match write_message(alloc, &draft) {
        Ok(text) => Ok(text),
        Err(DraftFault::Memory) => Err(NoMemory),
        Err(DraftFault::Bad { part: _ }) => unreachable!(),
    }
}
