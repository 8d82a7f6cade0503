//! The walk through the announced numbers of a group that lie outside of a night.
ghost use Rattle.std.specs.Prelude.{◌≡◌, ◌==◌, ◌+◌, [], ◌∷◌, map, filter, flat_map};
ghost use Rattle.std.specs.List.{cons_option};
ghost use Rattle.ss_review.specs.counted.Counted.{number_announced};
ghost use Rattle.ss_report.specs.lines.Taken.{TakesAll};
ghost use Rattle.ss_report.specs.lines.Lines.{seen};
ghost use Rattle.ss_between.specs.Between.{runs};
ghost use Rattle.ss_report.specs.lines.Between.{GoesOn, is_outside, outside_line, runs_with};

use crate::lines::line::Line;
use crate::lines::visitor::LineVisitor;
use ss_block::{Group, Session};
use ss_review::Entry;

/// On which side of a night announced numbers lie.
#[derive(Clone, Copy)]
pub(crate) enum Side {
    /// Below the first counter of their group.
    Early,
    /// At the second counter of their group, or above it.
    Beyond,
}

/// Which numbers lie outside of a night, and of which group they are.
#[derive(Clone, Copy)]
pub(crate) struct Outside<'s> {
    pub(crate) side: Side,
    pub(crate) session: &'s Session,
    pub(crate) group: Group,
    /// The counter of the group on that side, 1 to 10,000,000,000.
    pub(crate) counter: u64,
}

/// The numbers from `first` to `last`, which may go on. There is none where `first` is greater.
#[derive(Clone, Copy)]
struct OpenRun {
    first: u64,
    last: u64,
}

/// No number.
const NONE_OPEN: OpenRun = OpenRun { first: 1, last: 0 };

/// Hands on a line for each greatest run of numbers that these entries announce outside of a night.
pub(crate) fn walk_outside<S, V: LineVisitor<S>>(
    visitor: &V,
    into: &mut S,
    outside: Outside<'_>,
    entries: &[Entry],
)
    ensures { TakesAll (V.takes visitor.now) into.old into.new
        (map (outside_line outside.entry.side outside.entry.session.now) (runs outside.entry.group
        (filter (is_outside outside.entry.side outside.entry.counter) (flat_map number_announced entries.now)))) }
{
    let mut run = NONE_OPEN;
    for entry in entries {
        run = walk_announced(visitor, into, outside, run, *entry);
    }
    close(visitor, into, outside, run);
}

/// Goes on with the number that the entry announces, if it lies outside. It gives the run that is open then.
fn walk_announced<S, V: LineVisitor<S>>(
    visitor: &V,
    into: &mut S,
    outside: Outside<'_>,
    run: OpenRun,
    entry: Entry,
) -> OpenRun
    ensures { GoesOn (V.takes visitor.now) (outside_line outside.entry.side outside.entry.session.now)
        outside.entry.group into.old into.new run result
        (filter (is_outside outside.entry.side outside.entry.counter) (number_announced entry)) }
{
    match announced(entry) {
        Some(number) if is_outside(outside.side, outside.counter, number) => {
            walk_number(visitor, into, outside, run, number)
        }
        _ => run,
    }
}

/// The number that the entry announces, if it does.
fn announced(entry: Entry) -> Option<u64>
    ensures { cons_option result [] ≡ number_announced entry }
{
    match entry {
        Entry::Listed { number, .. } | Entry::Gap { number, .. } => Some(number),
        Entry::Hole { .. } => None,
    }
}

/// Whether the number of a group with this counter lies on this side of a night.
fn is_outside(side: Side, counter: u64, number: u64) -> bool
    ensures { result ≡ is_outside side counter number }
{
    match side {
        Side::Early => number < counter,
        Side::Beyond => counter <= number,
    }
}

/// Goes on with a number that lies outside. It gives the run that is open then.
fn walk_number<S, V: LineVisitor<S>>(
    visitor: &V,
    into: &mut S,
    outside: Outside<'_>,
    run: OpenRun,
    number: u64,
) -> OpenRun
    ensures { GoesOn (V.takes visitor.now) (outside_line outside.entry.side outside.entry.session.now)
        outside.entry.group into.old into.new run result (number ∷ []) }
{
    if follows(run, number) {
        return OpenRun {
            first: run.first,
            last: number,
        };
    }
    close(visitor, into, outside, run);
    OpenRun {
        first: number,
        last: number,
    }
}

/// Whether the number comes next after those of the run.
fn follows(run: OpenRun, number: u64) -> bool
    ensures { result ≡ (number == run.last + 1) }
{
    number > 0 && number - 1 == run.last
}

/// Hands on the line of a run that doesn't go on, if it has a number.
fn close<S, V: LineVisitor<S>>(visitor: &V, into: &mut S, outside: Outside<'_>, run: OpenRun)
    ensures { TakesAll (V.takes visitor.now) into.old into.new
        (map (outside_line outside.entry.side outside.entry.session.now) (runs_with outside.entry.group run [])) }
{
    if run.first <= run.last {
        visitor.visit(into, line_of_run(outside, run));
    }
}

/// The line of a run.
fn line_of_run(outside: Outside<'_>, run: OpenRun) -> Line<'_>
    ensures { seen result ≡ outside_line outside.entry.side outside.entry.session.now
        (record { group = outside.entry.group; first = run.first; last = run.last }) }
{
    let Outside { session, group, .. } = outside;
    let OpenRun { first, last } = run;
    match outside.side {
        Side::Early => Line::Early {
            session,
            group,
            first,
            last,
        },
        Side::Beyond => Line::Beyond {
            session,
            group,
            first,
            last,
        },
    }
}
