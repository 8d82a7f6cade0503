//! The messages that an originator takes.
ghost use Rattle.std.specs.Prelude.{◌≡◌, ◌⊎◌, true, false, not, Err, OnOk, IfOk, IfErr};
ghost use Rattle.std.specs.List.{All};
ghost use Rattle.ss_message.specs.declared.fault.BadPart.{BadPart};
ghost use Rattle.ss_message.specs.Layout.{value_of};
ghost use Rattle.ss_message.specs.Places.{ElementIsWithin};
ghost use Rattle.ss_message.specs.Reading.{header_at};
ghost use Rattle.ss_block.specs.Reading.{reading, value_reading};
ghost use Rattle.ss_origin.specs.declared.fault.OriginFault.TheVariants.{NotSyslog, HasBlock, Memory};
ghost use Rattle.ss_origin.specs.Calls.{pri_of};
ghost use Rattle.ss_origin.specs.Refusals.{is_unparsed, is_plain};

use crate::fault::OriginFault;
use ss_message::{Fault, Message, parse};
use std::alloc::Global;

/// Whether a message has a block element. What stands in the element makes no difference.
fn has_block(message: &Message<'_>) -> bool
    requires { All (ElementIsWithin message.now.source.now) message.now.elements }
    ensures { result ≡ not (is_plain (value_reading (value_of message.now))) }
{
    message.element(b"ssign").is_some() || message.element(b"ssign-cert").is_some()
}

/// The PRI of a message without a block element. The message is parsed once, which finds its elements too.
#[tactic(auto, unfolding(crate::specs::Calls::pri_of, ss_block::specs::Reading::reading))]
pub fn plain_pri(alloc: Global, message: &[u8]) -> Result<u8, OriginFault>
    ensures plain { OnOk result (is_plain (reading message.now) ≡ true) }
    ensures pri { IfOk result (λ pri. pri ≡ pri_of message.now) }
    ensures fault { IfErr result (λ f. (f ≡ Memory)
        ⊎ ((f ≡ NotSyslog) × (is_unparsed (reading message.now) ≡ true))
        ⊎ ((f ≡ HasBlock) × (is_unparsed (reading message.now) ≡ false) × (is_plain (reading message.now) ≡ false))) }
    ensures header_first { (b : BadPart) → header_at message.now ≡ Err b → result ≡ Err NotSyslog }
{
    let parsed = match parse(alloc, message) {
        Ok(parsed) => parsed,
        Err(Fault::Bad { .. }) => return Err(OriginFault::NotSyslog),
        Err(Fault::Memory) => return Err(OriginFault::Memory),
    };
    if has_block(&parsed) {
        return Err(OriginFault::HasBlock);
    }
    Ok(parsed.pri)
}
