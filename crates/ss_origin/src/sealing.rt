//! Block messages: blocks that are due, signed and written.
ghost use Rattle.std.specs.Prelude.{◌≡◌, ◌≤◌, ◌++◌, length, replicate, true, IfOk, IfErr, OnOk};
ghost use Rattle.std.specs.List.{All};
ghost use Rattle.ss_payload.specs.Payload.{payload_text};
ghost use Rattle.ss_origin.specs.Blocks.{unsigned_text};
ghost use Rattle.ss_origin.specs.declared.fault.OriginFault.TheVariants.{Memory};
ghost use Rattle.ss_origin.specs.Asking.{IsSameKey};
ghost use Rattle.ss_origin.specs.Asked.{AskedFor, AskedForOne, AskedForAll};
ghost use Rattle.ss_origin.specs.Emission.{IsSealed, AreSent};
ghost use Rattle.ss_origin.specs.Signing.{AsksFor, AsksForAll, HasSession};

use crate::config::Config;
use crate::fault::OriginFault;
use crate::sealer::{SealFault, Seals};
use crate::unsigned::Unsigned;
use ss_block::{unsigned_cert, unsigned_sig, write_cert, write_sig};
use ss_message::Stamp;
use ss_octets::Bytes;
use std::alloc::Global;

/// Asks the sealer for a signature of the octets, which has to have 1 to 1,024 octets.
fn signature<J: Seals>(alloc: Global, sealer: &mut J, octets: &[u8]) -> Result<Bytes, OriginFault>
    requires { J.sound sealer.old }
    ensures sound { J.sound sealer.new }
    ensures same { IsSameKey J.payload J.valid J.answers sealer.old sealer.new }
    ensures asked { AskedFor J.asked octets.now result sealer.old sealer.new }
    ensures asks { AsksFor (J.answers sealer.old) octets.now result }
    ensures valid { IfOk result (λ s. J.valid sealer.old (payload_text (J.payload sealer.old)) octets.now s ≡ true) }
    ensures some_octet { IfOk result (λ s. 1 ≤ length s) }
    ensures at_most_1024 { IfOk result (λ s. length s ≤ 1024) }
{
    match sealer.seal(alloc, octets) {
        Ok(signature) => {
            let count = signature.len();
            if count < 1 || count > 1_024 {
                return Err(OriginFault::SignatureLength);
            }
            Ok(Bytes::from_vec(signature))
        }
        Err(SealFault::Refused) => Err(OriginFault::SealRefused),
        Err(SealFault::Memory) => Err(OriginFault::Memory),
    }
}

/// The message of a block, with the signature that the sealer gives for it.
fn sealed<J: Seals>(
    alloc: Global,
    sealer: &mut J,
    config: &Config,
    stamp: &Option<Stamp>,
    due: Unsigned,
) -> Result<Bytes, OriginFault>
    requires sound { J.sound sealer.old }
    requires session { HasSession config.now due }
    ensures sound { J.sound sealer.new }
    ensures same { IsSameKey J.payload J.valid J.answers sealer.old sealer.new }
    ensures asked { AskedForOne J.asked config.now stamp.now due result sealer.old sealer.new }
    ensures asks { AsksFor (J.answers sealer.old) (unsigned_text config.now.head stamp.now due) result }
    ensures sealed { IfOk result (IsSealed (record {
      config = config.now;
      payload = J.payload sealer.old;
      valid =
          J.valid sealer.old;
    }) stamp.now due) }
{
    match due {
        Unsigned::Signature(block) => {
            let octets = unsigned_sig(alloc, &config.head, *stamp, &block)?;
            let signature = signature(alloc, sealer, octets.as_slice())?;
            let block = block.with_signature(signature);
            Ok(write_sig(alloc, &config.head, *stamp, &block)?)
        }
        Unsigned::Certificate(block) => {
            let octets = unsigned_cert(alloc, &config.head, *stamp, &block)?;
            let signature = signature(alloc, sealer, octets.as_slice())?;
            let block = block.with_signature(signature);
            Ok(write_cert(alloc, &config.head, *stamp, &block)?)
        }
    }
}

/// Puts so many copies of a message after the others, the last of which is the message itself.
fn push_copies(
    alloc: Global,
    messages: &mut Vec<Bytes>,
    message: Bytes,
    copies: u8,
) -> Result<(), OriginFault>
    requires { 1 ≤ copies }
    ensures copies { OnOk result (messages.new.items ≡ messages.old.items ++ replicate copies message) }
    ensures fault { IfErr result (λ f. f ≡ Memory) }
{
    for _copy in 0..copies - 1 {
        let copy = Vec::from_slice(alloc, message.as_slice())?;
        messages.push(Bytes::from_vec(copy))?;
    }
    messages.push(message)?;
    Ok(())
}

/// The blocks that are due in a call, and the time stamp of their messages.
#[derive(Drop)]
pub struct Due {
    pub stamp: Option<Stamp>,
    pub blocks: Vec<Unsigned>,
}

/// Puts the messages of all blocks that are due after the others, each signed and as often as the configuration says.
/// The blocks are signed in their order, each once, up to the first that isn't, and the sealer is asked nothing else.
pub fn seal_all<J: Seals>(
    alloc: Global,
    sealer: &mut J,
    config: &Config,
    due: Due,
    messages: &mut Vec<Bytes>,
) -> Result<(), OriginFault>
    requires sound { J.sound sealer.old }
    requires copies { 1 ≤ config.now.copies }
    requires session { All (HasSession config.now) due.blocks.items }
    ensures sound { J.sound sealer.new }
    ensures same { IsSameKey J.payload J.valid J.answers sealer.old sealer.new }
    ensures asked { AskedForAll J.asked config.now due.stamp due.blocks.items messages.old.items messages.new.items
        result sealer.old sealer.new }
    ensures asks { AsksForAll (J.answers sealer.old) (unsigned_text config.now.head due.stamp) due.blocks.items result }
    ensures sent { OnOk result (AreSent (record {
      config = config.now;
      payload = J.payload sealer.old;
      valid =
          J.valid sealer.old;
    }) due.stamp due.blocks.items messages.old.items messages.new.items) }
{
    let Due { stamp, blocks } = due;
    for block in blocks {
        let message = sealed(alloc, sealer, config, &stamp, block)?;
        push_copies(alloc, messages, message, config.copies)?;
    }
    Ok(())
}
