//! What is announced, number by number.
ghost use Rattle.std.specs.Prelude.{◌≡◌, ◌<◌, List, All, Some, None, length, map, option_map, IfOk, if◌then◌else◌};
ghost use Rattle.std.specs.List.Sorted.{IsStrictlySortedBy};
ghost use Rattle.ss_block.specs.Order.{session_cmp};
ghost use Rattle.ss_review.specs.declared.sessions.joined_session.JoinedSession.{JoinedSession};
ghost use Rattle.ss_review.specs.announced.Announced.{row_cmp, keys};
ghost use Rattle.ss_review.specs.announced.Numbered.{key_of, only_hashes};
ghost use Rattle.ss_review.specs.announced.Indexed.{row_at, goes_on};

use crate::announced::announced_hash::AnnouncedHash;
use crate::announced::message_number::{MessageNumber, with_session};
use crate::announced::only_hash::OnlyHash;
use crate::sessions::joined_session::JoinedSession;
use ss_octets::NoMemory;
use std::alloc::Global;

/// Whether the row after this one, if there is one, is of its number too.
fn goes_on(row: &AnnouncedHash, next: Option<&AnnouncedHash>) -> bool
    ensures { result ≡ goes_on row.now (option_map (λ r. r.now) next.entry) }
{
    match next {
        Some(next) => next.number == row.number,
        None => false,
    }
}

/// The hash of the first row of a number, unless the row after it is of that number too.
fn only_hash(row: &AnnouncedHash, goes_on: bool) -> OnlyHash<'_>
    ensures { result ≡ (if goes_on then None else Some row.now.hash) }
{
    if goes_on {
        return OnlyHash::several();
    }
    OnlyHash::one(&row.hash)
}

/// The only hash of each number that these rows announce, in the order of the numbers, or none where there are several.
/// The rows are in order.
pub(crate) fn only_hashes(
    alloc: Global,
    rows: &[AnnouncedHash],
) -> Result<Vec<OnlyHash<'_>>, NoMemory>
    ensures { (js : List JoinedSession)
        → IsStrictlySortedBy session_cmp (map (λ s. s.session) js)
        → All (λ r. r.number.session < length js) rows.now
        → IsStrictlySortedBy row_cmp (map (row_at js) rows.now)
        → IfOk result (λ hashes. hashes.items ≡ only_hashes (map (row_at js) rows.now)) }
{
    let mut hashes = Vec::with_capacity(alloc, rows.len())?;
    let mut is_first = true;
    for (i, row) in rows.iter().enumerate() {
        let goes_on = goes_on(row, rows.get(i + 1));
        if is_first {
            hashes.push(only_hash(row, goes_on))?;
        }
        is_first = !goes_on;
    }
    Ok(hashes)
}

/// The message numbers that these rows announce, each once and in order. The rows are in order, and `sessions` are those
/// of the log, in theirs.
pub(crate) fn numbers<'a>(
    alloc: Global,
    sessions: &'a [JoinedSession],
    rows: &[AnnouncedHash],
) -> Result<Vec<MessageNumber<'a>>, NoMemory>
    requires sessions { IsStrictlySortedBy session_cmp (map (λ s. s.session) sessions.now) }
    requires known { All (λ r. r.number.session < length sessions.now) rows.now }
    requires rise { IsStrictlySortedBy row_cmp (map (row_at sessions.now) rows.now) }
    ensures { IfOk result (λ numbers. map key_of numbers.items ≡ keys (map (row_at sessions.now) rows.now)) }
{
    let mut numbers = Vec::with_capacity(alloc, rows.len())?;
    let mut is_first = true;
    for (i, row) in rows.iter().enumerate() {
        let goes_on = goes_on(row, rows.get(i + 1));
        if is_first {
            numbers.push(with_session(sessions, row.number))?;
        }
        is_first = !goes_on;
    }
    Ok(numbers)
}
