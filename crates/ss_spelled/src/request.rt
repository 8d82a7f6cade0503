//! What a line asks for.
ghost use Rattle.std.specs.Prelude.{◌≡◌, IfOk, codes};
ghost use Rattle.std.specs.Option.{option_copied};
ghost use Rattle.ss_octets.specs.Number.{number_in};
ghost use Rattle.ss_spelled.specs.Requests.{after, fragment_of, fragment_in, request};

use crate::fragment::Fragment;
use ss_octets::strict_base64::decoded;
use ss_octets::{NoMemory, cut_first, number_of};
use std::alloc::Global;

/// The most octets of a payload, and so the greatest INDEX.
const LONGEST_PAYLOAD: u64 = 99_999_999;

/// The most octets of a fragment (FLEN).
const LONGEST_FRAGMENT: usize = 9_999;

/// What a line asks for.
#[derive(Debug, Drop)]
pub(crate) enum Request {
    /// To keep a fragment.
    Keep(Fragment),
    /// To answer what the fragments spell.
    Answer,
}

/// What follows a beginning, where a text begins so.
fn after<'a>(text: &'a [u8], beginning: &[u8]) -> Option<&'a [u8]>
    ensures { option_copied result ≡ after beginning.now text.now }
{
    text.strip_prefix(beginning)
}

/// The number that a text spells in decimal, from 1 to 99,999,999.
fn number_in(text: &[u8]) -> Option<u32>
    ensures { result ≡ number_in 1 99999999 text.now }
{
    match number_of(1, LONGEST_PAYLOAD, text) {
        Some(number) => Some(number as u32),
        None => None,
    }
}

/// The fragment that three words state: TPBL, INDEX and, in strict base64, FRAG. `None` if one is out of its range.
fn fragment_of(
    alloc: Global,
    total: &[u8],
    index: &[u8],
    octets: &[u8],
) -> Result<Option<Fragment>, NoMemory>
    ensures { IfOk result (λ o. o ≡ fragment_of total.now index.now octets.now) }
{
    let Some(total) = number_in(total) else {
        return Ok(None);
    };
    let Some(index) = number_in(index) else {
        return Ok(None);
    };
    let Some(octets) = decoded(alloc, octets)? else {
        return Ok(None);
    };
    if octets.as_slice().len() > LONGEST_FRAGMENT {
        return Ok(None);
    }
    Ok(Some(Fragment {
        total,
        index,
        octets,
    }))
}

/// The fragment of these words, if there are three.
fn fragment_in(alloc: Global, words: &[u8]) -> Result<Option<Fragment>, NoMemory>
    ensures { IfOk result (λ o. o ≡ fragment_in words.now) }
{
    let Some((total, others)) = cut_first(words, b' ') else {
        return Ok(None);
    };
    let Some((index, octets)) = cut_first(others, b' ') else {
        return Ok(None);
    };
    fragment_of(alloc, total, index, octets)
}

/// What a line asks for, which is given without its LF; `None` for a line of another form.
///
/// # Errors
///
/// `NoMemory` if memory runs out.
pub(crate) fn request_in(alloc: Global, line: &[u8]) -> Result<Option<Request>, NoMemory>
    ensures { IfOk result (λ o. o ≡ request line.now) }
{
    if line == b"spell".as_slice() {
        return Ok(Some(Request::Answer));
    }
    let Some(words) = after(line, b"fragment ") else {
        return Ok(None);
    };
    match fragment_in(alloc, words)? {
        Some(fragment) => Ok(Some(Request::Keep(fragment))),
        None => Ok(None),
    }
}
