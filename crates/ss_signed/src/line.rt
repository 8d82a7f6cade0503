//! What is written about one line: one that `ssign plan` wants to have signed, or a question of `ssign questions`.
ghost use Rattle.std.specs.Prelude.{◌≡◌, IfOk, codes, option_map};
ghost use Rattle.std.specs.Option.{option_copied};
ghost use Rattle.ss_octets.specs.Ascii.{sp};
ghost use Rattle.ss_octets.specs.Cut.{parts_at};
ghost use Rattle.ss_signed.specs.Lines.{after, first_of_two, second_of_three, answer_to, answer_to_word};

use crate::describing::read_signed;
use crate::object::object_of;
use ss_octets::strict_base64::decoded;
use ss_octets::{Bytes, NoMemory, cut_first};
use std::alloc::Global;

/// What follows a beginning, where a text begins so.
fn after<'a>(text: &'a [u8], beginning: &[u8]) -> Option<&'a [u8]>
    ensures { option_copied result ≡ after beginning.now text.now }
{
    text.strip_prefix(beginning)
}

/// The word before the only SP of a text.
fn first_of_two(text: &[u8]) -> Option<&[u8]>
    ensures { option_copied result ≡ first_of_two (parts_at sp text.now) }
{
    let (first, second) = cut_first(text, b' ')?;
    if cut_first(second, b' ').is_some() {
        return None;
    }
    Some(first)
}

/// The word between the two SPs of a text.
fn second_of_three(text: &[u8]) -> Option<&[u8]>
    ensures { option_copied result ≡ second_of_three (parts_at sp text.now) }
{
    let (_, others) = cut_first(text, b' ')?;
    first_of_two(others)
}

/// The object of what the octets say that this word spells in strict base64; `None` if there is no word, or it spells
/// none.
fn answer_to_word(alloc: Global, word: Option<&[u8]>) -> Result<Option<Bytes>, NoMemory>
    ensures { IfOk result (λ o. o ≡ answer_to_word (option_copied word.entry)) }
{
    let Some(word) = word else {
        return Ok(None);
    };
    let Some(octets) = decoded(alloc, word)? else {
        return Ok(None);
    };
    let said = read_signed(alloc, octets.as_slice())?;
    Ok(Some(object_of(alloc, &said)?))
}

/// What is written about a line, which is given without its LF: the object of what its octets say, with LF; nothing
/// about a question whether a payload is to be trusted. `None` for a line of another form.
///
/// Errs only where memory runs out, which is taken for the octets, as `read_signed` takes it, and for the object.
#[tactic(auto, unfolding(crate::specs::Lines::answer_to))]
pub fn answer_to(alloc: Global, line: &[u8]) -> Result<Option<Bytes>, NoMemory>
    ensures { IfOk result (λ o. o ≡ answer_to line.now) }
{
    if let Some(word) = after(line, b"want ") {
        return answer_to_word(alloc, Some(word));
    }
    if let Some(words) = after(line, b"yes? ") {
        return answer_to_word(alloc, second_of_three(words));
    }
    match after(line, b"trust? ") {
        Some(_) => Ok(Some(Bytes::from_vec(Vec::new(alloc)))),
        None => Ok(None),
    }
}
