//! The review of a log, with the GBC of its verified signature blocks.
ghost use Rattle.std.specs.Prelude.{◌≡◌, IfOk};
ghost use Rattle.ss_review.specs.keep.Contents.{Contents};
ghost use Rattle.ss_review.specs.sessions.Verified.{answers};
ghost use Rattle.ss_review.specs.questions.Questions.{questions, AreAskable};
ghost use Rattle.ss_review.specs.report.Report.{report_of};
ghost use Rattle.ss_review.specs.counted.Counted.{counted_sessions};

use crate::assign::index::Index;
use crate::counted::counted_report::CountedReport;
use crate::counted::counting::counted_sessions;
use crate::keep::review_input::ReviewInput;
use crate::report::reporting::reported;
use crate::sessions::states::joined_sessions;
use crate::sessions::verified::verified;
use crate::sessions::verifier::Judge;
use ss_octets::NoMemory;
use std::alloc::Global;
use std::mem::drop;

/// What a review reports about a log, and the GBC of the verified signature blocks of each of its sessions. The GBC are
/// taken before the blocks are freed. The judge is freed once it is known which blocks are verified.
pub(crate) fn review_counted<J: Judge + Drop, I: Index + Drop>(
    alloc: Global,
    judge: J,
    held: ReviewInput<'_, I>,
) -> Result<CountedReport, NoMemory>
    requires sound { J.sound judge }
    requires askable { AreAskable J.askable judge (questions held.blocks.items) }
    ensures report { (log : Contents)
        → I.has held.entry.index log.normal
        → held.entry.blocks.items ≡ log.blocks
        → held.entry.spoilt.now ≡ log.spoilt
        → held.entry.count ≡ log.count
        → IfOk result (λ r. r.report ≡ report_of (answers J.trusted J.valid judge) log) }
    ensures counted { IfOk result (λ r. r.counted
        ≡ counted_sessions (answers J.trusted J.valid judge) held.entry.blocks.items) }
{
    let blocks = held.blocks.as_slice();
    let sessions = joined_sessions(alloc, &judge, blocks)?;
    let verified = verified(alloc, &judge, sessions.as_slice(), blocks)?;
    drop(judge);
    let counted = counted_sessions(alloc, sessions.as_slice(), blocks, verified.as_slice())?;
    let report = reported(alloc, held, sessions.as_slice(), verified)?;
    Ok(CountedReport { report, counted })
}
