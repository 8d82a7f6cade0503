//! The places of the messages that a report lists.
ghost use Rattle.std.specs.Prelude.{◌≡◌, IfOk};
ghost use Rattle.ss_review.specs.report.Extract.{listed_places};
ghost use Rattle.ss_report.specs.lines.Listed.{KeepsPlace};

use crate::lines::detail::{Detail, Listing};
use crate::lines::line::Line;
use crate::lines::visitor::LineVisitor;
use crate::lines::walk::walk_lines;
use crate::log::ending::Ending;
use ss_frame::Tail;
use ss_octets::NoMemory;
use ss_review::{Places, Report};
use std::alloc::Global;

/// The places of the messages that a report lists, in its order.
pub(crate) fn listed_places(alloc: Global, report: &Report) -> Result<Places, NoMemory>
    ensures { IfOk result (λ places. places ≡ listed_places report.now) }
{
    let mut so_far = PlacesSoFar {
        places: Vec::new(alloc),
        failed: false,
    };
    let ending = Ending::undamaged(alloc, Tail::Clean);
    let each = Detail::of(Listing::Itemized);
    walk_lines(&Keeping, &mut so_far, report, &None, &ending, each);
    let PlacesSoFar { places, failed } = so_far;
    if failed {
        return Err(NoMemory);
    }
    Ok(Places::from_vec(places))
}

/// The places that lines list, and whether memory has run out for one of them.
struct PlacesSoFar {
    places: Vec<u32>,
    failed: bool,
}

/// Keeps the place of each message that is listed.
struct Keeping;

impl LineVisitor<PlacesSoFar> for Keeping {
    ghost takes = { λ _. KeepsPlace };

    fn visit(&self, into: &mut PlacesSoFar, line: Line<'_>) {
        if let Line::Ok { place, .. } = line {
            if !into.failed {
                into.failed = into.places.push(place).is_err();
            }
        }
    }
}
