//! The walk through the lines of a report that come after those of its sessions.
ghost use Rattle.std.specs.Prelude.{◌≡◌, ◌++◌, ◌∷◌, [], map};
ghost use Rattle.ss_report.specs.lines.Taken.{TakesAll};
ghost use Rattle.ss_report.specs.lines.Lines.{UnlistedLine, RefusedLine, end_lines, item_lines, spoilt_place_line};
ghost use Rattle.ss_report.specs.lines.Lines.{single_lines};
ghost use Rattle.ss_report.specs.lines.Lines.{tail_lines, ending_lines, damage_lines, damage_count, damage_line, other_lines};

use crate::lines::detail::{Detail, Listing};
use crate::lines::line::Line;
use crate::lines::visitor::LineVisitor;
use crate::log::ending::{Damage, Ending, octets_of};
use ss_frame::Tail;
use ss_review::{Report, SpoiltPlace};

/// Hands on the lines that come after those of the sessions.
#[tactic(auto, unfolding(crate::specs::lines::Lines::other_lines))]
pub(crate) fn walk_others<S, V: LineVisitor<S>>(
    visitor: &V,
    into: &mut S,
    report: &Report,
    ending: &Ending,
    detail: Detail,
)
    ensures { TakesAll (V.takes visitor.now) into.old into.new (other_lines detail report.now ending.now) }
{
    walk_singles(visitor, into, report, detail.listing);
    walk_end(visitor, into, ending, report.count, detail);
}

/// Hands on the lines of single messages, or their counts.
#[tactic(auto, unfolding(crate::specs::lines::Lines::single_lines))]
fn walk_singles<S, V: LineVisitor<S>>(visitor: &V, into: &mut S, report: &Report, listing: Listing)
    ensures { TakesAll (V.takes visitor.now) into.old into.new (single_lines listing report.now) }
{
    match listing {
        Listing::Itemized | Listing::Brief => walk_items(visitor, into, report),
        Listing::Tally => walk_counts(visitor, into, report),
    }
}

/// Hands on a line for each unlisted, refused and spoilt message.
fn walk_items<S, V: LineVisitor<S>>(visitor: &V, into: &mut S, report: &Report)
    ensures { TakesAll (V.takes visitor.now) into.old into.new (item_lines report.now) }
{
    walk_unlisted(visitor, into, report.unlisted.as_slice());
    walk_refused(visitor, into, report.refused.as_slice());
    walk_spoilts(visitor, into, report.spoilt.as_slice());
}

/// Hands on how many messages are unlisted, refused and spoilt.
#[tactic(auto, unfolding(crate::specs::lines::Lines::single_lines))]
fn walk_counts<S, V: LineVisitor<S>>(visitor: &V, into: &mut S, report: &Report)
    ensures { TakesAll (V.takes visitor.now) into.old into.new (single_lines Listing.Tally report.now) }
{
    let unlisted = report.unlisted.as_slice().len() as u64;
    let refused = report.refused.as_slice().len() as u64;
    let spoilt = report.spoilt.as_slice().len() as u64;
    visitor.visit(into, Line::UnlistedCount { count: unlisted });
    visitor.visit(into, Line::RefusedCount { count: refused });
    visitor.visit(into, Line::SpoiltCount { count: spoilt });
}

/// Hands on a line for each unlisted message.
fn walk_unlisted<S, V: LineVisitor<S>>(visitor: &V, into: &mut S, places: &[u32])
    ensures { TakesAll (V.takes visitor.now) into.old into.new (map UnlistedLine places.now) }
{
    for place in places {
        visitor.visit(into, Line::Unlisted { place: *place });
    }
}

/// Hands on a line for each unverified block.
fn walk_refused<S, V: LineVisitor<S>>(visitor: &V, into: &mut S, places: &[u32])
    ensures { TakesAll (V.takes visitor.now) into.old into.new (map RefusedLine places.now) }
{
    for place in places {
        visitor.visit(into, Line::Refused { place: *place });
    }
}

/// Hands on a line for each spoilt block.
fn walk_spoilts<S, V: LineVisitor<S>>(visitor: &V, into: &mut S, spoilts: &[SpoiltPlace])
    ensures { TakesAll (V.takes visitor.now) into.old into.new (map spoilt_place_line spoilts.now) }
{
    for spoilt in spoilts {
        let place = spoilt.place;
        let cause = spoilt.cause;
        visitor.visit(into, Line::Spoilt { place, cause });
    }
}

/// Hands on what the log holds beside its messages, and the count of these.
fn walk_end<S, V: LineVisitor<S>>(
    visitor: &V,
    into: &mut S,
    ending: &Ending,
    count: u32,
    detail: Detail,
)
    ensures { TakesAll (V.takes visitor.now) into.old into.new
        (ending_lines detail.listing ending.now ++ end_lines detail.not_empty count) }
{
    walk_ending(visitor, into, ending, detail.listing);
    walk_count(visitor, into, count, detail.not_empty);
}

/// Hands on that the log has no message, if that is a finding, and then how many it has.
fn walk_count<S, V: LineVisitor<S>>(visitor: &V, into: &mut S, count: u32, not_empty: bool)
    ensures { TakesAll (V.takes visitor.now) into.old into.new (end_lines not_empty count) }
{
    if not_empty && count == 0 {
        visitor.visit(into, Line::Empty);
    }
    visitor.visit(into, Line::End { count });
}

/// Hands on what is damaged, and the torn end, if there is one.
fn walk_ending<S, V: LineVisitor<S>>(visitor: &V, into: &mut S, ending: &Ending, listing: Listing)
    ensures { TakesAll (V.takes visitor.now) into.old into.new (ending_lines listing ending.now) }
{
    walk_damage(visitor, into, ending.damaged.as_slice(), listing);
    walk_tail(visitor, into, ending.tail);
}

/// Hands on what is damaged, or how much.
fn walk_damage<S, V: LineVisitor<S>>(
    visitor: &V,
    into: &mut S,
    damaged: &[Damage],
    listing: Listing,
)
    ensures { TakesAll (V.takes visitor.now) into.old into.new (damage_lines listing damaged.now) }
{
    match listing {
        Listing::Itemized | Listing::Brief => walk_damaged(visitor, into, damaged),
        Listing::Tally => walk_damaged_count(visitor, into, damaged),
    }
}

/// Hands on a line for each damaged stretch.
fn walk_damaged<S, V: LineVisitor<S>>(visitor: &V, into: &mut S, damaged: &[Damage])
    ensures { TakesAll (V.takes visitor.now) into.old into.new (map damage_line damaged.now) }
{
    for stretch in damaged {
        let Damage {
            place,
            offset,
            length,
        } = *stretch;
        visitor.visit(
            into,
            Line::Damaged {
                place,
                offset,
                length,
            },
        );
    }
}

/// Hands on how many stretches are damaged, if any is.
fn walk_damaged_count<S, V: LineVisitor<S>>(visitor: &V, into: &mut S, damaged: &[Damage])
    ensures { TakesAll (V.takes visitor.now) into.old into.new (damage_count damaged.now) }
{
    let count = damaged.len() as u64;
    if count != 0 {
        let octets = octets_of(damaged);
        visitor.visit(into, Line::DamagedCount { count, octets });
    }
}

/// Hands on the line of a torn end, if the log has one.
fn walk_tail<S, V: LineVisitor<S>>(visitor: &V, into: &mut S, tail: Tail)
    ensures { TakesAll (V.takes visitor.now) into.old into.new (tail_lines tail) }
{
    match tail {
        Tail::Clean => {}
        Tail::Torn { pos } => visitor.visit(into, Line::Torn { offset: pos }),
    }
}
