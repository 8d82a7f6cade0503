//! The review of a log, whatever finds its messages by their hashes.
ghost use Rattle.std.specs.Prelude.{◌≡◌, IfOk};
ghost use Rattle.ss_review.specs.keep.Contents.{Contents};
ghost use Rattle.ss_review.specs.sessions.Verified.{answers};
ghost use Rattle.ss_review.specs.questions.Questions.{questions, AreAskable};
ghost use Rattle.ss_review.specs.report.Report.{report_of};

use crate::assign::index::Index;
use crate::keep::review_input::ReviewInput;
use crate::report::report::Report;
use crate::report::reporting::reported;
use crate::sessions::states::joined_sessions;
use crate::sessions::verified::verified;
use crate::sessions::verifier::Judge;
use ss_octets::NoMemory;
use std::alloc::Global;
use std::mem::drop;

/// What a review reports about a log. What is held of it is freed part by part, each once it isn't needed any more, and
/// the judge once it is known which blocks are verified.
pub(crate) fn review<J: Judge + Drop, I: Index + Drop>(
    alloc: Global,
    judge: J,
    held: ReviewInput<'_, I>,
) -> Result<Report, NoMemory>
    requires sound { J.sound judge }
    requires askable { AreAskable J.askable judge (questions held.blocks.items) }
    ensures { (log : Contents)
        → I.has held.entry.index log.normal
        → held.entry.blocks.items ≡ log.blocks
        → held.entry.spoilt.now ≡ log.spoilt
        → held.entry.count ≡ log.count
        → IfOk result (λ r. r ≡ report_of (answers J.trusted J.valid judge) log) }
{
    let blocks = held.blocks.as_slice();
    let sessions = joined_sessions(alloc, &judge, blocks)?;
    let verified = verified(alloc, &judge, sessions.as_slice(), blocks)?;
    drop(judge);
    reported(alloc, held, sessions.as_slice(), verified)
}
