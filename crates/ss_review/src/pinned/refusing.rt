//! What a report refuses where blocks were left out before it was made.
ghost use Rattle.std.specs.Prelude.{◌≡◌, ℕ, List, IfOk};
ghost use Rattle.ss_review.specs.pinned.Finding.{IsTogether};

use crate::lists::ordered::put_in_order;
use crate::report::places::Places;
use crate::report::report::Report;
use ss_octets::NoMemory;

/// The places of both lists, in order and each once.
fn together(places: Places, others: &[u32]) -> Result<Places, NoMemory>
    ensures { (all : List ℕ) → IsTogether places others.now all → IfOk result (λ p. p ≡ all) }
{
    let mut together = places.into_vec();
    for place in others {
        together.push(*place)?;
    }
    put_in_order(&mut together);
    Ok(Places::from_vec(together))
}

/// The report, which refuses the blocks that were left out too.
pub(crate) fn with_left_out(report: Report, left_out: Vec<u32>) -> Result<Report, NoMemory>
    ensures { (all : List ℕ)
        → IsTogether report.refused left_out.items all
        → IfOk result (λ r. r ≡ record report { refused = all }) }
{
    let Report {
        sessions,
        unlisted,
        refused,
        spoilt,
        count,
    } = report;
    Ok(Report {
        sessions,
        unlisted,
        refused: together(refused, left_out.as_slice())?,
        spoilt,
        count,
    })
}
