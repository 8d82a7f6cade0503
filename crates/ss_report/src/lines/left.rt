//! The walk through what is left of a session and of what is missing of it, if a night begins at counters, or through
//! all of them.
ghost use Rattle.std.specs.Prelude.{◌≡◌, ◌++◌, ◌∷◌, [], map, flat_map, filter_map};
ghost use Rattle.ss_between.specs.Between.{entry_left, run_left, tail_left};
ghost use Rattle.ss_report.specs.lines.Taken.{TakesAll};
ghost use Rattle.ss_report.specs.lines.Lines.{TallyLine, entry_line, entry_lines, group_lines, order_lines, seen};
ghost use Rattle.ss_report.specs.lines.Lines.{session_lines};
ghost use Rattle.ss_report.specs.lines.Tally.{tally};
ghost use Rattle.ss_report.specs.lines.Between.{gbc_from, group_from, number_from, session_from, shortfall_from};
ghost use Rattle.ss_report.specs.lines.Between.{tail_from};
ghost use Rattle.ss_report.specs.lines.Whole.{missing_line, shortfall_lines, tail_line};

use crate::lines::brief::walk_brief_left;
use crate::lines::detail::{Detail, Listing};
use crate::lines::line::Line;
use crate::lines::order::Order;
use crate::lines::tally::Tally;
use crate::lines::visitor::LineVisitor;
use ss_between::{Bounds, entry_left, run_left, tail_left};
use ss_block::{Group, Session};
use ss_review::{Entry, GroupReport, GroupTail, MissingRun, SessionReport, Shortfall};

/// Hands on the line of a session, and then those of its groups without what lies below their first counters.
pub(crate) fn walk_session_left<S, V: LineVisitor<S>>(
    visitor: &V,
    into: &mut S,
    report: &SessionReport,
    first: &Option<Bounds<'_>>,
    detail: Detail,
)
    ensures { TakesAll (V.takes visitor.now) into.old into.new
        (session_lines detail (session_from first.now report.now)) }
{
    let session = &report.session;
    let state = report.state;
    visitor.visit(into, Line::Session { session, state });
    walk_groups_left(
        visitor,
        into,
        session,
        report.groups.as_slice(),
        first,
        detail,
    );
}

/// Hands on the lines of what is left of the groups of a session.
fn walk_groups_left<S, V: LineVisitor<S>>(
    visitor: &V,
    into: &mut S,
    session: &Session,
    groups: &[GroupReport],
    first: &Option<Bounds<'_>>,
    detail: Detail,
)
    ensures { TakesAll (V.takes visitor.now) into.old into.new
        (flat_map (λ g. group_lines detail session.now (group_from first.now session.now g)) groups.now) }
{
    for group in groups {
        walk_group_left(visitor, into, session, group, first, detail);
    }
}

/// Hands on the lines of what is left of a group, or its counts, and then the finding about its order, if that is one.
fn walk_group_left<S, V: LineVisitor<S>>(
    visitor: &V,
    into: &mut S,
    session: &Session,
    report: &GroupReport,
    first: &Option<Bounds<'_>>,
    detail: Detail,
)
    ensures { TakesAll (V.takes visitor.now) into.old into.new
        (group_lines detail session.now (group_from first.now session.now report.now)) }
{
    let group = report.group;
    let number = number_from(first, session, group);
    let entries = report.entries.as_slice();
    walk_listing(
        visitor,
        into,
        session,
        group,
        entries,
        number,
        detail.listing,
    );
    if detail.in_order {
        let order = Order::of_left(number, entries);
        walk_order(visitor, into, session, group, order);
    }
}

/// Hands on a line for each entry of a group, without the numbers of holes below this one, or their counts, or both in
/// brief.
fn walk_listing<S, V: LineVisitor<S>>(
    visitor: &V,
    into: &mut S,
    session: &Session,
    group: Group,
    entries: &[Entry],
    number: u64,
    listing: Listing,
)
    ensures { TakesAll (V.takes visitor.now) into.old into.new
        (entry_lines listing session.now group (filter_map (entry_left number) entries.now)) }
{
    match listing {
        Listing::Itemized => walk_entries_left(visitor, into, session, group, entries, number),
        Listing::Tally => walk_tally(visitor, into, session, group, entries, number),
        Listing::Brief => {
            walk_brief_left(visitor, into, session, group, entries, number);
            walk_tally(visitor, into, session, group, entries, number);
        }
    }
}

/// Hands on the counts of the entries of a group, without the numbers of holes below this one.
fn walk_tally<S, V: LineVisitor<S>>(
    visitor: &V,
    into: &mut S,
    session: &Session,
    group: Group,
    entries: &[Entry],
    number: u64,
)
    ensures { TakesAll (V.takes visitor.now) into.old into.new
        (TallyLine session.now group (tally (filter_map (entry_left number) entries.now)) ∷ []) }
{
    let tally = Tally::of_left(number, entries);
    visitor.visit(
        into,
        Line::Tally {
            session,
            group,
            tally,
        },
    );
}

/// Hands on that the listed messages of a group don't stand in the order of their numbers, if that is so.
fn walk_order<S, V: LineVisitor<S>>(
    visitor: &V,
    into: &mut S,
    session: &Session,
    group: Group,
    order: Order,
)
    ensures { TakesAll (V.takes visitor.now) into.old into.new (order_lines session.now group order) }
{
    if order.count != 0 {
        visitor.visit(
            into,
            Line::Disorder {
                session,
                group,
                order,
            },
        );
    }
}

/// The number below which nothing of the group is left: its first counter, or none.
fn number_from(first: &Option<Bounds<'_>>, session: &Session, group: Group) -> u64
    ensures { result ≡ number_from first.now session.now group }
{
    match first {
        Some(first) => first.number(session, group),
        None => 0,
    }
}

/// The GBC below which nothing of the session is left: its first counter, or none.
fn gbc_from(first: &Option<Bounds<'_>>, session: &Session) -> u64
    ensures { result ≡ gbc_from first.now session.now }
{
    match first {
        Some(first) => first.gbc(session),
        None => 0,
    }
}

/// Hands on a line for each entry of a group, without the numbers of holes below this one.
fn walk_entries_left<S, V: LineVisitor<S>>(
    visitor: &V,
    into: &mut S,
    session: &Session,
    group: Group,
    entries: &[Entry],
    number: u64,
)
    ensures { TakesAll (V.takes visitor.now) into.old into.new
        (map (entry_line session.now group) (filter_map (entry_left number) entries.now)) }
{
    for entry in entries {
        walk_entry_left(visitor, into, session, group, *entry, number);
    }
}

/// Hands on the line of what is left of an entry, if anything is.
fn walk_entry_left<S, V: LineVisitor<S>>(
    visitor: &V,
    into: &mut S,
    session: &Session,
    group: Group,
    entry: Entry,
    number: u64,
)
    ensures { TakesAll (V.takes visitor.now) into.old into.new
        (map (entry_line session.now group) (filter_map (entry_left number) (entry ∷ []))) }
{
    if let Some(left) = entry_left(number, entry) {
        visitor.visit(into, line_of_entry(session, group, left));
    }
}

/// The line of an entry.
pub(crate) fn line_of_entry(session: &Session, group: Group, entry: Entry) -> Line<'_>
    ensures { seen result ≡ entry_line session.now group entry }
{
    match entry {
        Entry::Listed { number, place } => Line::Ok {
            session,
            group,
            number,
            place,
        },
        Entry::Gap { number, why } => Line::Gap {
            session,
            group,
            number,
            why,
        },
        Entry::Hole { first, last } => Line::Hole {
            session,
            group,
            first,
            last,
        },
    }
}

/// Hands on what is left of what is missing of a session: of its tails, and then of its signature blocks.
pub(crate) fn walk_shortfall_left<S, V: LineVisitor<S>>(
    visitor: &V,
    into: &mut S,
    short: &Shortfall,
    first: &Option<Bounds<'_>>,
)
    ensures { TakesAll (V.takes visitor.now) into.old into.new
        (shortfall_lines (shortfall_from first.now short.now)) }
{
    let session = &short.session;
    let gbc = gbc_from(first, session);
    walk_tails_left(visitor, into, session, short.tails.as_slice(), first);
    walk_missing_left(visitor, into, session, short.blocks.as_slice(), gbc);
}

/// Hands on a line for what is left of each tail of a session.
fn walk_tails_left<S, V: LineVisitor<S>>(
    visitor: &V,
    into: &mut S,
    session: &Session,
    tails: &[GroupTail],
    first: &Option<Bounds<'_>>,
)
    ensures { TakesAll (V.takes visitor.now) into.old into.new
        (map (tail_line session.now) (filter_map (tail_from first.now session.now) tails.now)) }
{
    for tail in tails {
        let number = number_from(first, session, tail.group);
        walk_tail_left(visitor, into, session, *tail, number);
    }
}

/// Hands on the line of what is left of a tail from this number on, if anything is.
fn walk_tail_left<S, V: LineVisitor<S>>(
    visitor: &V,
    into: &mut S,
    session: &Session,
    tail: GroupTail,
    number: u64,
)
    ensures { TakesAll (V.takes visitor.now) into.old into.new
        (map (tail_line session.now) (filter_map (tail_left number) (tail ∷ []))) }
{
    if let Some(tail) = tail_left(number, tail) {
        visitor.visit(into, Line::Tail { session, tail });
    }
}

/// Hands on a line for what is left of each run of missing GBC values from this one on.
fn walk_missing_left<S, V: LineVisitor<S>>(
    visitor: &V,
    into: &mut S,
    session: &Session,
    runs: &[MissingRun],
    gbc: u64,
)
    ensures { TakesAll (V.takes visitor.now) into.old into.new
        (map (missing_line session.now) (filter_map (run_left gbc) runs.now)) }
{
    for run in runs {
        walk_run_left(visitor, into, session, *run, gbc);
    }
}

/// Hands on the line of what is left of a run from this GBC on, if anything is.
fn walk_run_left<S, V: LineVisitor<S>>(
    visitor: &V,
    into: &mut S,
    session: &Session,
    run: MissingRun,
    gbc: u64,
)
    ensures { TakesAll (V.takes visitor.now) into.old into.new
        (map (missing_line session.now) (filter_map (run_left gbc) (run ∷ []))) }
{
    if let Some(run) = run_left(gbc, run) {
        visitor.visit(into, Line::Blocks { session, run });
    }
}
