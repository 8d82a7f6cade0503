//! The walk through the entries of a group in brief: those that aren't listed, the listed ones beside them, and the last
//! one.
ghost use Rattle.std.specs.Prelude.{◌≡◌, ◌∷◌, [], map, filter_map};
ghost use Rattle.std.specs.List.{cons_option};
ghost use Rattle.ss_between.specs.Between.{entry_left};
ghost use Rattle.ss_review.specs.report.Verdict.{is_listed};
ghost use Rattle.ss_report.specs.lines.Brief.{brief, brief_from, nothing_waits, shown_at, waiting_after, waiting_after_all};
ghost use Rattle.ss_report.specs.lines.Lines.{entry_line};
ghost use Rattle.ss_report.specs.lines.Taken.{TakesAll};

use crate::lines::left::line_of_entry;
use crate::lines::visitor::LineVisitor;
use ss_between::entry_left;
use ss_block::{Group, Session};
use ss_review::Entry;

/// What is known after an entry.
#[derive(Clone, Copy)]
struct Waiting {
    /// Whether it isn't listed.
    after: bool,
    /// The entry, if it is listed and wasn't handed on. It is, if the next one isn't listed, or none comes.
    entry: Option<Entry>,
}

/// Before the first entry.
const NOTHING_WAITS: Waiting = Waiting {
    after: false,
    entry: None,
};

/// Hands on the lines of a group's entries in brief, without the numbers of holes below this one.
pub(crate) fn walk_brief_left<S, V: LineVisitor<S>>(
    visitor: &V,
    into: &mut S,
    session: &Session,
    group: Group,
    entries: &[Entry],
    number: u64,
)
    ensures { TakesAll (V.takes visitor.now) into.old into.new
        (map (entry_line session.now group) (brief (filter_map (entry_left number) entries.now))) }
{
    let mut waiting = NOTHING_WAITS;
    for entry in entries {
        waiting = walk_next_left(visitor, into, session, group, waiting, *entry, number);
    }
    walk_waiting(visitor, into, session, group, waiting.entry);
}

/// Hands on the listed entry that waits, if one does.
fn walk_waiting<S, V: LineVisitor<S>>(
    visitor: &V,
    into: &mut S,
    session: &Session,
    group: Group,
    waits: Option<Entry>,
)
    ensures { TakesAll (V.takes visitor.now) into.old into.new
        (map (entry_line session.now group) (cons_option waits [])) }
{
    if let Some(listed) = waits {
        visitor.visit(into, line_of_entry(session, group, listed));
    }
}

/// Hands on what is shown at what is left of an entry, if anything is left. It gives what waits then.
fn walk_next_left<S, V: LineVisitor<S>>(
    visitor: &V,
    into: &mut S,
    session: &Session,
    group: Group,
    waiting: Waiting,
    entry: Entry,
    number: u64,
) -> Waiting
    ensures shown { TakesAll (V.takes visitor.now) into.old into.new
        (map (entry_line session.now group) (brief_from waiting (filter_map (entry_left number) (entry ∷ [])))) }
    ensures next { result ≡ waiting_after_all waiting (filter_map (entry_left number) (entry ∷ [])) }
{
    match entry_left(number, entry) {
        Some(left) => walk_next(visitor, into, session, group, waiting, left),
        None => waiting,
    }
}

/// Hands on what is shown at an entry. It gives what waits then.
fn walk_next<S, V: LineVisitor<S>>(
    visitor: &V,
    into: &mut S,
    session: &Session,
    group: Group,
    waiting: Waiting,
    entry: Entry,
) -> Waiting
    ensures shown { TakesAll (V.takes visitor.now) into.old into.new
        (map (entry_line session.now group) (shown_at waiting entry)) }
    ensures next { result ≡ waiting_after waiting entry }
{
    if !is_listed(entry) {
        walk_missing(visitor, into, session, group, waiting.entry, entry);
        return Waiting {
            after: true,
            entry: None,
        };
    }
    if waiting.after {
        visitor.visit(into, line_of_entry(session, group, entry));
        return NOTHING_WAITS;
    }
    Waiting {
        after: false,
        entry: Some(entry),
    }
}

/// Hands on the listed entry that waits, if one does, and then one that isn't listed.
fn walk_missing<S, V: LineVisitor<S>>(
    visitor: &V,
    into: &mut S,
    session: &Session,
    group: Group,
    waits: Option<Entry>,
    entry: Entry,
)
    ensures { TakesAll (V.takes visitor.now) into.old into.new
        (map (entry_line session.now group) (cons_option waits (entry ∷ []))) }
{
    match waits {
        Some(listed) => {
            visitor.visit(into, line_of_entry(session, group, listed));
            visitor.visit(into, line_of_entry(session, group, entry));
        }
        None => visitor.visit(into, line_of_entry(session, group, entry)),
    }
}

/// Whether the entry is a listed message.
pub(crate) fn is_listed(entry: Entry) -> bool
    ensures { result ≡ is_listed entry }
{
    match entry {
        Entry::Listed { .. } => true,
        Entry::Gap { .. } | Entry::Hole { .. } => false,
    }
}
