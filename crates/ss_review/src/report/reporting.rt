//! The report of a log whose blocks were judged.
ghost use Rattle.std.specs.Prelude.{◌≡◌, map, IfOk};
ghost use Rattle.std.specs.List.Sorted.{IsStrictlySortedBy};
ghost use Rattle.ss_block.specs.Order.{session_cmp};
ghost use Rattle.ss_review.specs.keep.Contents.{Contents};
ghost use Rattle.ss_review.specs.sessions.Verified.{Answers, is_verified};
ghost use Rattle.ss_review.specs.announced.Numbered.{session_with_joined, sessions_joined};
ghost use Rattle.ss_review.specs.report.Report.{report_of};

use crate::announced::announced::announced;
use crate::announced::only_hashes::{numbers, only_hashes};
use crate::assign::index::Index;
use crate::keep::review_input::ReviewInput;
use crate::keep::spoilt::SpoiltPlaces;
use crate::report::grouping::session_reports;
use crate::report::number_entry::{found_places, with_entries};
use crate::report::report::Report;
use crate::report::unlisted::unlisted;
use crate::sessions::joined_session::JoinedSession;
use crate::sessions::verified::unmarked;
use ss_octets::NoMemory;
use std::alloc::Global;
use std::mem::drop;

/// What a review reports about a log whose blocks were judged: `sessions` are theirs, in their order, and `verified` says
/// which of them are verified. The blocks are freed before the index is asked, the index before the numbers are collected,
/// and what is announced before they get their entries.
pub(crate) fn reported<I: Index + Drop>(
    alloc: Global,
    held: ReviewInput<'_, I>,
    sessions: &[JoinedSession],
    verified: Vec<bool>,
) -> Result<Report, NoMemory>
    requires { IsStrictlySortedBy session_cmp (map (λ s. s.session) sessions.now) }
    ensures { (says : Answers) (log : Contents)
        → I.has held.entry.index log.normal
        → held.entry.blocks.items ≡ log.blocks
        → held.entry.spoilt.now ≡ log.spoilt
        → held.entry.count ≡ log.count
        → map session_with_joined sessions.now ≡ sessions_joined says log.blocks
        → verified.items ≡ map (is_verified says log.blocks) log.blocks
        → IfOk result (λ r. r ≡ report_of says log) }
{
    let ReviewInput {
        index,
        blocks,
        spoilt,
        count,
    } = held;
    let refused = unmarked(alloc, blocks.as_slice(), verified.as_slice())?;
    let rows = announced(alloc, sessions, blocks, verified)?;
    let hashes = only_hashes(alloc, rows.as_slice())?;
    let places = index.assign(alloc, hashes.as_slice())?;
    let found = found_places(alloc, hashes.as_slice(), places.as_slice())?;
    drop(hashes);
    let stored = index.places(alloc)?;
    drop(index);
    let numbers = numbers(alloc, sessions, rows.as_slice())?;
    drop(rows);
    let entries = with_entries(alloc, numbers.as_slice(), found.as_slice())?;
    drop(numbers);
    Ok(Report {
        sessions: session_reports(alloc, sessions, entries.as_slice())?,
        unlisted: unlisted(alloc, stored.as_slice(), places.as_slice())?,
        refused,
        spoilt: SpoiltPlaces::from_vec(Vec::from_slice(alloc, spoilt)?),
        count,
    })
}
