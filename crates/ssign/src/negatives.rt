//! Negative numbers in options, which are mistakes: naming the range of the option.
ghost use Rattle.std.specs.Prelude.{◌≡◌, IfSome};
ghost use Rattle.clap.specs.Words.{kind_of};

use crate::command_line::negative_command;
use clap::Error;
use clap::error::ErrorKind;
use std::alloc::Global;

/// Reads the words once more, with options that take negative numbers as values. The fault names the range that such a
/// number is out of. `None` if the mistake is another one, or memory runs out.
///
/// The commands themselves take no word that begins with a hyphen as a value, and so would only say that `-1` is an
/// unexpected argument.
pub fn negative_fault(alloc: Global, words: &[String]) -> Option<Error>
    ensures { IfSome result (λ fault. kind_of fault ≡ ErrorKind.ValueValidation) }
{
    let Ok(command) = negative_command(alloc) else {
        return None;
    };
    let Err(fault) = command.try_get_matches_from(words) else {
        return None;
    };
    match fault.kind() {
        ErrorKind::ValueValidation => Some(fault),
        _ => None,
    }
}
