//! The names of the files of a folder.
ghost use Rattle.std.specs.Prelude.{◌≡◌, ◌≤◌, ◌∷◌, ◌++◌, ℕ, List, Some, IfSome, IfOk, option_map, string_bytes};
ghost use Rattle.ss_folder.specs.Names.{called_as, file_name};

use ss_octets::{cut_first, number_of};
use std::alloc::{AllocError, Global};

/// The greatest name: an RSID has at most ten digits (RFC 5848, section 4.2.2).
const GREATEST: u64 = 9_999_999_999;

/// The ending of a file that is written.
pub(crate) const OPEN: &[u8] = b"open";

/// How many octets a stem has at most, so that names with it have less than 255.
const LONGEST_STEM: usize = 200;

/// Whether names may begin with it: 1 to 200 printable ASCII characters, none of them a space, a quotation mark, a backslash
/// or a slash, and no point in front. So a name stands in a chain message as it is, and in no other folder.
pub(crate) fn is_stem(stem: &[u8]) -> bool {
    let Some(first) = stem.first() else {
        return false;
    };
    *first != b'.' && stem.len() <= LONGEST_STEM && stem.iter().all(|octet| is_of_stem(*octet))
}

/// Whether an octet may stand in a stem.
fn is_of_stem(octet: u8) -> bool {
    matches!(octet, b'!'..=b'~') && !matches!(octet, b'"' | b'/' | b'\\')
}

/// The name that a file called `STEM-NAME.ENDING` uses up, with NAME in decimal, and ENDING; `None` if a file isn't called
/// so. What follows the first point is the ending.
pub(crate) fn name_in<'a>(stem: &[u8], called: &'a [u8]) -> Option<(u64, &'a [u8])>
    ensures so { IfSome result (λ it. called.now ≡ called_as stem.now it.0 it.1.now) }
    ensures each { (name : ℕ) (ending : List ℕ) → 1 ≤ name → name ≤ 9999999999 → called.now ≡ called_as stem.now name ending
        → option_map {U = ℕ × List ℕ} (λ it. (it.0, it.1.now)) result ≡ Some (name, ending) }
{
    let rest = called.strip_prefix(stem)?;
    let rest = rest.strip_prefix(b"-")?;
    let (digits, ending) = cut_first(rest, b'.')?;
    let name = number_of(1, GREATEST, digits)?;
    Some((name, ending))
}

/// The path of the file that is written under a name.
pub(crate) fn path_of(
    alloc: Global,
    folder: &str,
    stem: &str,
    name: u64,
) -> Result<String, AllocError>
    ensures { IfOk result (λ path. string_bytes path ≡ folder.now ++ (47 ∷ file_name stem.now name)) }
{
    format!(in alloc; "{folder}/{stem}-{name}.open")
}

/// The path of the copy that keeps a torn end of the file of a name. Copies are numbered from 1.
pub(crate) fn aside_path_of(
    alloc: Global,
    folder: &str,
    stem: &str,
    name: u64,
    copy: u32,
) -> Result<String, AllocError> {
    if copy == 1 {
        format!(in alloc; "{folder}/{stem}-{name}.torn")
    } else {
        format!(in alloc; "{folder}/{stem}-{name}.torn-{copy}")
    }
}
