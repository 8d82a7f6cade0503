//! Which messages are signed in a wrap.
ghost use Rattle.std.specs.Prelude.{◌≡◌, IfOk};
ghost use Rattle.ss_wrap.specs.Wrap.{needs_wrap};

use crate::unwrapping::original;
use ss_octets::NoMemory;
use ss_origin::{OriginFault, plain_pri};
use std::alloc::Global;

/// Whether a message is signed in a wrap: it is no message of RFC 5424, or has an element `ssign` or `ssign-cert`, so an
/// originator can't sign it; or it has the form of a wrap, and would be taken for one.
///
/// Errs only if it runs out of memory, which is taken for the elements of the message.
pub fn needs_wrap(alloc: Global, message: &[u8]) -> Result<bool, NoMemory>
    ensures { IfOk result (λ b. b ≡ needs_wrap message.now) }
{
    match plain_pri(alloc, message) {
        Ok(_) => Ok(original(alloc, message)?.is_some()),
        Err(fault) => match fault {
            OriginFault::Memory => Err(NoMemory),
            _ => Ok(true),
        },
    }
}
