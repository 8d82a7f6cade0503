//! The walk through a report, line by line, with what is missing beside it, if that is reported too.
ghost use Rattle.std.specs.Prelude.{◌≡◌, flat_map};
ghost use Rattle.std.specs.List.{zip};
ghost use Rattle.ss_report.specs.lines.Front.{IsReady};
ghost use Rattle.ss_report.specs.lines.Taken.{TakesAll};
ghost use Rattle.ss_report.specs.lines.Lines.{session_lines};
ghost use Rattle.ss_report.specs.lines.Between.{group_lines_outside, lines_beside, lines_of_absent, lines_of_night};
ghost use Rattle.ss_report.specs.lines.Between.{lines_outside, missing_lines, sessions_beside, told_beside};

use crate::lines::detail::Detail;
use crate::lines::front::{FrontMatter, walk_front};
use crate::lines::idle::is_idle_from;
use crate::lines::left::{walk_session_left, walk_shortfall_left};
use crate::lines::line::Line;
use crate::lines::missing::Missing;
use crate::lines::others::walk_others;
use crate::lines::outside::{Outside, Side, walk_outside};
use crate::lines::visitor::LineVisitor;
use crate::log::ending::Ending;
use ss_between::Bounds;
use ss_block::Session;
use ss_review::{GroupReport, Report, SessionReport, Shortfall};

/// Hands on the lines of a report on a log with this end, in their order, with what is missing beside it, if that is
/// reported too. Only the visitor may allocate.
pub(crate) fn walk_lines<S, V: LineVisitor<S>>(
    visitor: &V,
    into: &mut S,
    report: &Report,
    missing: &Option<Missing<'_>>,
    ending: &Ending,
    detail: Detail,
)
    ensures { TakesAll (V.takes visitor.now) into.old into.new
        (lines_beside detail report.now missing.now ending.now) }
{
    walk_reported(visitor, into, report.sessions.as_slice(), missing, detail);
    walk_others(visitor, into, report, ending, detail);
}

/// Hands on the same lines, after those in front of them.
pub(crate) fn walk_told<S, V: LineVisitor<S>>(
    visitor: &V,
    into: &mut S,
    front: &FrontMatter,
    report: &Report,
    missing: &Option<Missing<'_>>,
    ending: &Ending,
    detail: Detail,
)
    ensures { IsReady detail front.now report.now
        → TakesAll (V.takes visitor.now) into.old into.new
        (told_beside detail front.now.blocks report.now missing.now ending.now) }
{
    walk_front(visitor, into, front, report, detail);
    walk_lines(visitor, into, report, missing, ending, detail);
}

/// Hands on the lines of the sessions, with what is missing beside them, if that is reported too.
fn walk_reported<S, V: LineVisitor<S>>(
    visitor: &V,
    into: &mut S,
    sessions: &[SessionReport],
    missing: &Option<Missing<'_>>,
    detail: Detail,
)
    ensures { TakesAll (V.takes visitor.now) into.old into.new (sessions_beside detail missing.now sessions.now) }
{
    match missing {
        None => walk_sessions(visitor, into, sessions, detail),
        Some(missing) => walk_missing(visitor, into, sessions, missing, detail),
    }
}

/// Hands on the lines of the sessions.
fn walk_sessions<S, V: LineVisitor<S>>(
    visitor: &V,
    into: &mut S,
    sessions: &[SessionReport],
    detail: Detail,
)
    ensures { TakesAll (V.takes visitor.now) into.old into.new (flat_map (session_lines detail) sessions.now) }
{
    for session in sessions {
        walk_session_left(visitor, into, session, &None, detail);
    }
}

/// Hands on the lines of the sessions, each with those of what is missing of it, and then those of the sessions of which
/// the log has no block.
fn walk_missing<S, V: LineVisitor<S>>(
    visitor: &V,
    into: &mut S,
    sessions: &[SessionReport],
    missing: &Missing<'_>,
    detail: Detail,
)
    ensures { TakesAll (V.takes visitor.now) into.old into.new (missing_lines detail missing.now sessions.now) }
{
    let known = missing.short.known.as_slice();
    walk_nights(visitor, into, sessions, known, missing, detail);
    walk_absent(
        visitor,
        into,
        missing.short.absent.as_slice(),
        &missing.first,
    );
}

/// Hands on the lines of the sessions, each with those of what is missing of it.
fn walk_nights<S, V: LineVisitor<S>>(
    visitor: &V,
    into: &mut S,
    sessions: &[SessionReport],
    known: &[Shortfall],
    missing: &Missing<'_>,
    detail: Detail,
)
    ensures { TakesAll (V.takes visitor.now) into.old into.new
        (flat_map (lines_of_night detail missing.now.first missing.now.second) (zip sessions.now known.now)) }
{
    for (session, short) in sessions.iter().zip(known) {
        walk_night(visitor, into, session, short, missing, detail);
    }
}

/// Hands on the lines of a session in the night, then those of its numbers outside of it, and then those of what is
/// missing of it.
fn walk_night<S, V: LineVisitor<S>>(
    visitor: &V,
    into: &mut S,
    report: &SessionReport,
    short: &Shortfall,
    missing: &Missing<'_>,
    detail: Detail,
)
    ensures { TakesAll (V.takes visitor.now) into.old into.new
        (lines_of_night detail missing.now.first missing.now.second (report.now, short.now)) }
{
    walk_session_left(visitor, into, report, &missing.first, detail);
    walk_side(visitor, into, Side::Early, report, &missing.first);
    walk_side(visitor, into, Side::Beyond, report, &missing.second);
    walk_shortfall_left(visitor, into, short, &missing.first);
}

/// Hands on the lines of the numbers of a session on this side of a night, if there are counters on that side.
fn walk_side<S, V: LineVisitor<S>>(
    visitor: &V,
    into: &mut S,
    side: Side,
    report: &SessionReport,
    counters: &Option<Bounds<'_>>,
)
    ensures { TakesAll (V.takes visitor.now) into.old into.new (lines_outside side counters.now report.now) }
{
    match counters {
        Some(counters) => {
            let groups = report.groups.as_slice();
            walk_groups_outside(visitor, into, side, &report.session, groups, counters);
        }
        None => {}
    }
}

/// Hands on the lines of the announced numbers of these groups on this side of a night, with these counters there.
fn walk_groups_outside<S, V: LineVisitor<S>>(
    visitor: &V,
    into: &mut S,
    side: Side,
    session: &Session,
    groups: &[GroupReport],
    counters: &Bounds<'_>,
)
    ensures { TakesAll (V.takes visitor.now) into.old into.new
        (flat_map (group_lines_outside side counters.now session.now) groups.now) }
{
    for group in groups {
        walk_group_outside(visitor, into, side, session, group, counters);
    }
}

/// Hands on the lines of the announced numbers of a group on this side of a night, with these counters there.
fn walk_group_outside<S, V: LineVisitor<S>>(
    visitor: &V,
    into: &mut S,
    side: Side,
    session: &Session,
    report: &GroupReport,
    counters: &Bounds<'_>,
)
    ensures { TakesAll (V.takes visitor.now) into.old into.new
        (group_lines_outside side counters.now session.now report.now) }
{
    let group = report.group;
    let counter = counters.number(session, group);
    let outside = Outside {
        side,
        session,
        group,
        counter,
    };
    walk_outside(visitor, into, outside, report.entries.as_slice());
}

/// Hands on the lines of the sessions of which the log has no block, without those that sent nothing in the night.
fn walk_absent<S, V: LineVisitor<S>>(
    visitor: &V,
    into: &mut S,
    absent: &[Shortfall],
    first: &Option<Bounds<'_>>,
)
    ensures { TakesAll (V.takes visitor.now) into.old into.new
        (flat_map (lines_of_absent first.now) absent.now) }
{
    for short in absent {
        walk_absent_session(visitor, into, short, first);
    }
}

/// Hands on that the session is absent, and then what is missing of it, unless it sent nothing in the night.
fn walk_absent_session<S, V: LineVisitor<S>>(
    visitor: &V,
    into: &mut S,
    short: &Shortfall,
    first: &Option<Bounds<'_>>,
)
    ensures { TakesAll (V.takes visitor.now) into.old into.new (lines_of_absent first.now short.now) }
{
    if is_idle_from(first, short) {
        return;
    }
    let session = &short.session;
    visitor.visit(into, Line::Absent { session });
    walk_shortfall_left(visitor, into, short, first);
}
