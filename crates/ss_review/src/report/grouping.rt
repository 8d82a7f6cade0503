//! What a report says about sessions, from the announced numbers in their order.
ghost use Rattle.std.specs.Prelude.{◌≡◌, ◌≤◌, List, length, map, IfOk};
ghost use Rattle.std.specs.List.{take_while};
ghost use Rattle.std.specs.Ordering.{is_lt};
ghost use Rattle.ss_block.specs.Order.{session_cmp};
ghost use Rattle.ss_review.specs.declared.keep.message.NormalMessage.{NormalMessage};
ghost use Rattle.ss_review.specs.keep.Contents.{Contents};
ghost use Rattle.ss_review.specs.sessions.Sessions.{same_session, sessions};
ghost use Rattle.ss_review.specs.sessions.Verified.{Answers, state_in};
ghost use Rattle.ss_review.specs.announced.Announced.{Row, keys, rows};
ghost use Rattle.ss_review.specs.report.Entries.{same_group};
ghost use Rattle.ss_review.specs.report.Report.{session_report};
ghost use Rattle.ss_review.specs.announced.Numbered.{session_with_joined, sessions_joined};
ghost use Rattle.ss_review.specs.report.Grouped.{with_entry, with_entries, Rise, GroupsRise, numbers_of_session};
ghost use Rattle.ss_review.specs.report.Grouped.{group_told, groups_told, session_told};

use crate::report::entries::entries;
use crate::report::group_report::{GroupReport, GroupReports};
use crate::report::number_entry::NumberEntry;
use crate::report::session_report::{SessionReport, SessionReports, SessionState};
use crate::sessions::joined_session::JoinedSession;
use ss_block::{Group, Session};
use ss_octets::{Bytes, NoMemory};
use std::alloc::Global;

/// Whether the number is of this group.
fn is_in(number: &NumberEntry<'_>, group: Group) -> bool
    ensures { result ≡ same_group number.now.number.group group }
{
    let own = number.number.group;
    own == group
}

/// How many of the numbers, from the first on, are of this group.
fn count_of_group(numbers: &[NumberEntry<'_>], group: Group) -> usize
    ensures count { result ≡ length (take_while (λ n. same_group n.number.group group) numbers.now) }
    ensures bound { result ≤ length numbers.now }
{
    numbers
        .iter()
        .take_while(|number| is_in(number, group))
        .count()
}

/// What a report says about a group, from the numbers of it.
fn group_report(
    alloc: Global,
    group: Group,
    numbers: &[NumberEntry<'_>],
) -> Result<GroupReport, NoMemory>
    ensures { IfOk result (λ g. g ≡ group_told group numbers.now) }
{
    Ok(GroupReport {
        group,
        entries: entries(alloc, numbers)?,
    })
}

/// What a report says about the groups of one session, from all its numbers in their order.
fn group_reports(alloc: Global, numbers: &[NumberEntry<'_>]) -> Result<GroupReports, NoMemory>
    ensures { GroupsRise numbers.now → IfOk result (λ g. g ≡ groups_told numbers.now) }
{
    let mut groups = Vec::new(alloc);
    let mut start = 0;
    while start < numbers.len() {
        let first = numbers[start];
        let group = first.number.group;
        let end = start + 1 + count_of_group(&numbers[start + 1..], group);
        groups.push(group_report(alloc, group, &numbers[start..end])?)?;
        start = end;
    }
    Ok(GroupReports::from_vec(groups))
}

/// Whether the number's session stands before this one.
fn is_before(number: &NumberEntry<'_>, session: &Session) -> bool
    ensures { result ≡ is_lt (session_cmp number.now.number.session.now session.now) }
{
    number.number.session.cmp(session).is_lt()
}

/// Whether the number is of this session.
fn is_of(number: &NumberEntry<'_>, session: &Session) -> bool
    ensures { result ≡ same_session number.now.number.session.now session.now }
{
    number.number.session == session
}

/// The numbers of a session, among all in their order.
fn numbers_of_session<'a, 'b>(
    numbers: &'a [NumberEntry<'b>],
    session: &Session,
) -> &'a [NumberEntry<'b>]
    ensures { Rise numbers.now → result.now ≡ numbers_of_session session.now numbers.now }
{
    let start = numbers.partition_point(|number| is_before(number, session));
    let (_, rest) = numbers.split_at(start);
    let count = rest.partition_point(|number| is_of(number, session));
    let (own, _) = rest.split_at(count);
    own
}

/// The state of a session.
fn state_in(joined: &Result<Bytes, SessionState>) -> SessionState
    ensures { result ≡ state_in joined.now }
{
    match joined {
        Ok(_) => SessionState::Joined,
        Err(state) => *state,
    }
}

/// What a report says about a session, from all announced numbers in their order.
fn session_report(
    alloc: Global,
    session: &JoinedSession,
    numbers: &[NumberEntry<'_>],
) -> Result<SessionReport, NoMemory>
    ensures { (ms : List NormalMessage) (rs : List Row)
        → map with_entry numbers.now ≡ with_entries ms rs (keys rs)
        → IfOk result (λ r. r ≡ session_told ms rs (session_with_joined session.now)) }
{
    let own = numbers_of_session(numbers, &session.session);
    Ok(SessionReport {
        session: session.session.try_clone(alloc)?,
        state: state_in(&session.joined),
        groups: group_reports(alloc, own)?,
    })
}

/// What a report says about the sessions of a log, which stand in their order. `numbers` has all announced numbers in
/// theirs, with their entries.
pub(crate) fn session_reports(
    alloc: Global,
    joined: &[JoinedSession],
    numbers: &[NumberEntry<'_>],
) -> Result<SessionReports, NoMemory>
    ensures { (says : Answers) (log : Contents) (rs : List Row)
        → rs ≡ rows says log.blocks
        → map session_with_joined joined.now ≡ sessions_joined says log.blocks
        → map with_entry numbers.now ≡ with_entries log.normal rs (keys rs)
        → IfOk result (λ r. r ≡ map (session_report says log rs) (sessions log.blocks)) }
{
    let mut reports = Vec::with_capacity(alloc, joined.len())?;
    for session in joined {
        reports.push(session_report(alloc, session, numbers)?)?;
    }
    Ok(SessionReports::from_vec(reports))
}
