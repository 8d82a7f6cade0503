//! What a message is to a review (RFC 5848, sections 4 and 5).
ghost use Rattle.std.specs.Prelude.{◌≡◌, true, IfOk};
ghost use Rattle.std.specs.List.{All, list_all};
ghost use Rattle.ss_message.specs.Message.{has_raws};
ghost use Rattle.ss_message.specs.Layout.{value_of};
ghost use Rattle.ss_message.specs.Places.{ElementIsWithin};
ghost use Rattle.ss_block.specs.Parsed.{IsReadAs};
ghost use Rattle.ss_block.specs.Reading.{value_reading, reading};

use crate::block::{CertBlock, SigBlock};
use crate::certificate_reading::read_certificate;
use crate::elements::element_with;
use crate::signature_reading::read_signature;
use crate::spoil::Spoil;
use ss_message::{Fault, Message, Part, parse};
use ss_octets::NoMemory;
use std::alloc::Global;

/// What a message holds (RFC 5848, sections 4 and 5).
#[derive(Debug, Drop)]
pub enum Reading {
    /// An ordinary message: one without `ssign` and `ssign-cert`.
    Plain,
    /// No message of RFC 5424: the part that fails first, and where, in octets from 0.
    Unparsed { part: Part, pos: usize },
    /// One signature block.
    Signature(SigBlock),
    /// One certificate block.
    Certificate(CertBlock),
    /// A spoilt block, with the first cause why its element is no block.
    Spoilt(Spoil),
}

/// What a message that was parsed holds: neither block element, a block, or a spoilt block with its first cause.
pub(crate) fn message_reading(alloc: Global, message: &Message<'_>) -> Result<Reading, NoMemory>
    requires within { All (ElementIsWithin message.now.source.now) message.now.elements }
    requires raws { list_all has_raws (value_of message.now).elements ≡ true }
    ensures { IfOk result (λ r. r ≡ value_reading (value_of message.now)) }
{
    let signature = element_with(message, b"ssign");
    let certificate = element_with(message, b"ssign-cert");
    match (signature, certificate) {
        (None, None) => Ok(Reading::Plain),
        (Some(element), None) => read_signature(alloc, message.source, element),
        (None, Some(element)) => read_certificate(alloc, message.source, element),
        (Some(_), Some(_)) => Ok(Reading::Spoilt(Spoil::BothBlocks)),
    }
}

/// What the text in `bytes` is, and the message that it spells, if it spells one. Each call that reads a text parses it
/// here, once.
pub(crate) fn read<'a>(
    alloc: Global,
    bytes: &'a [u8],
) -> Result<(Reading, Option<Message<'a>>), NoMemory>
    ensures { IfOk result (λ x. IsReadAs bytes.now x.0 x.1) }
{
    match parse(alloc, bytes) {
        Ok(message) => {
            let reading = message_reading(alloc, &message)?;
            Ok((reading, Some(message)))
        }
        Err(Fault::Bad { part, pos }) => Ok((Reading::Unparsed { part, pos }, None)),
        Err(Fault::Memory) => Err(NoMemory),
    }
}

/// What all of `bytes` are: a block, a spoilt block with its first cause, an ordinary message, or no message.
///
/// Errs only where memory runs out. Memory is taken as `parse` takes it, for the block's hashes, fragment and
/// signature, and for a value while its escapes are taken off. No number inside a message reserves any.
pub fn classify(alloc: Global, bytes: &[u8]) -> Result<Reading, NoMemory>
    // The answer depends on what the message in the text says, and on nothing else.
    ensures value { IfOk result (λ r. r ≡ reading bytes.now) }
{
    let (reading, _) = read(alloc, bytes)?;
    Ok(reading)
}
