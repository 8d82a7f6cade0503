//! Lookups in a report: of a session, of a group, and of the entries of some numbers.
ghost use Rattle.std.specs.Prelude.{◌≡◌, ◌==◌, ◌&&◌, false, [], nat_le, nat_lt, length, map, filter, flat_map};
ghost use Rattle.std.specs.Prelude.{MatchOption};
ghost use Rattle.std.specs.List.{list_any};
ghost use Rattle.std.specs.List.Sorted.{IsStrictlySortedBy};
ghost use Rattle.std.specs.Ordering.{nat_cmp};
ghost use Rattle.ss_review.specs.report.Entries.{same_group};
ghost use Rattle.ss_review.specs.report.Meaning.{IsInOrder, first_number};
ghost use Rattle.ss_report.specs.runs.Carrying.{is_joined_in, is_gap, is_numbered};
ghost use Rattle.ss_report.specs.runs.CarriedSoFar.{IsToldInOrder, IsToldJoined};

use crate::verdict::joined::is_joined;
use ss_block::{Group, Session, SigBlock};
use ss_review::{Entry, Report, SessionReport};

/// The report on a session, if the session is joined.
pub(crate) fn joined_session<'a>(report: &'a Report, session: &Session) -> Option<&'a SessionReport>
    requires { IsInOrder report.now }
    ensures { MatchOption result (is_joined_in report.now session.now ≡ false) (λ t.
        IsToldJoined report.now session.now t.now) }
{
    let sessions = report.sessions.as_slice();
    match sessions.binary_search_by(|known| known.session.cmp(session)) {
        Ok(index) => {
            let reported = &sessions[index];
            if is_joined(reported.state) {
                Some(reported)
            } else {
                None
            }
        }
        Err(_) => None,
    }
}

/// Whether the report has the block at this place among the refused ones.
pub(crate) fn is_refused(report: &Report, place: u32) -> bool
    requires { IsInOrder report.now }
    ensures { result ≡ list_any (λ p. p == place) report.now.refused }
{
    report.refused.as_slice().binary_search(&place).is_ok()
}

/// The entries of the numbers that a signature block announces, from the report on its session.
pub(crate) fn entries_under<'a>(reported: &'a SessionReport, block: &SigBlock) -> &'a [Entry]
    requires { IsToldInOrder reported.now }
    ensures { result.now ≡ filter (is_numbered block.now.first (length block.now.hashes))
        (flat_map (λ h. h.entries) (filter (λ h. same_group h.group block.now.group) reported.now.groups)) }
{
    block.assure_in_range();
    let end = block.first() + block.hashes().as_slice().len() as u64;
    entries_between(
        entries_of_group(reported, block.header().group),
        block.first(),
        end,
    )
}

/// The entries of a group, from the report on its session.
fn entries_of_group(reported: &SessionReport, group: Group) -> &[Entry]
    requires { IsToldInOrder reported.now }
    ensures told { result.now ≡ flat_map (λ h. h.entries) (filter (λ h. same_group h.group group) reported.now.groups) }
    ensures rising { IsStrictlySortedBy nat_cmp (map first_number result.now) }
{
    let groups = reported.groups.as_slice();
    match groups.binary_search_by(|known| known.group.cmp(&group)) {
        Ok(index) => groups[index].entries.as_slice(),
        Err(_) => &[],
    }
}

/// The number of an entry, the first of a hole.
fn first_number(entry: &Entry) -> u64
    ensures { result ≡ first_number entry.now }
{
    match entry {
        Entry::Listed { number, .. } => *number,
        Entry::Gap { number, .. } => *number,
        Entry::Hole { first, .. } => *first,
    }
}

/// The entries with a number from `first` on, below `end`, among entries whose numbers rise.
fn entries_between(entries: &[Entry], first: u64, end: u64) -> &[Entry]
    requires { IsStrictlySortedBy nat_cmp (map first_number entries.now) }
    ensures { result.now ≡ filter (λ e. nat_le first (first_number e) && nat_lt (first_number e) end) entries.now }
{
    let start = entries.partition_point(|entry| first_number(entry) < first);
    let (_, rest) = entries.split_at(start);
    let count = rest.partition_point(|entry| first_number(entry) < end);
    let (own, _) = rest.split_at(count);
    own
}

/// Whether one of the entries is a gap.
pub(crate) fn has_gap(entries: &[Entry]) -> bool
    ensures { result ≡ list_any is_gap entries.now }
{
    entries.iter().any(|entry| is_gap(entry))
}

/// Whether the entry is a gap.
fn is_gap(entry: &Entry) -> bool
    ensures { result ≡ is_gap entry.now }
{
    matches!(entry, Entry::Gap { .. })
}
