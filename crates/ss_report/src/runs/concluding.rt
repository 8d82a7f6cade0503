//! What a reviewer that was fed a log concludes, with what is to be reported beside the report.
ghost use Rattle.std.specs.Prelude.{◌≡◌, ◌≢◌, ℕ, List, true, false, IfOk, IfErr};
ghost use Rattle.ss_frame.specs.Watched.{Source};
ghost use Rattle.ss_review.specs.declared.questions.question.Question.{Question};
ghost use Rattle.ss_review.specs.sessions.Verified.{answers};
ghost use Rattle.ss_review.specs.counted.Kept.{AreReviewed, log_shortfalls};
ghost use Rattle.ss_review.specs.keep.Contents.{contents};
ghost use Rattle.ss_review.specs.keep.Keeping.{Keeps};
ghost use Rattle.ss_review.specs.keep.Notes.{notes};
ghost use Rattle.ss_review.specs.pinned.Pinned.{report_by};
ghost use Rattle.ss_review.specs.report.Meaning.{IsInOrder};
ghost use Rattle.ss_report.specs.log.Log.{StopsRun};
ghost use Rattle.ss_report.specs.runs.Run.{given};
ghost use Rattle.ss_report.specs.lines.Between.{end_counters, lines_beside, lines_between, lines_by};
ghost use Rattle.ss_report.specs.declared.lines.detail.Detail.{Detail};
ghost use Rattle.ss_report.specs.declared.log.ending.Ending.{Ending};
ghost use Rattle.ss_report.specs.declared.log.read_options.ReadOptions.{ReadOptions};
ghost use Rattle.ss_report.specs.declared.runs.beside.Beside.TheVariants.{Nothing};

use crate::fault::RunFault;
use crate::lines::missing::Missing;
use crate::runs::beside::Beside;
use ss_between::Bounds;
use ss_octets::{Bytes, NoMemory};
use ss_review::laws::kept::logs_are_reviewed;
use ss_review::laws::pinned::{pinned_reports_are_in_order, pinned_reports_are_of_logs};
use ss_review::laws::reports::reports_are_in_order;
use ss_review::{CountedReport, Counter, Judge, Report, Reviewer, log_shortfalls};
use std::alloc::Global;

/// The report of a log, and what is to be reported beside it.
#[derive(Drop)]
pub(crate) struct Concluded<'c> {
    pub(crate) report: Report,
    pub(crate) missing: Option<Missing<'c>>,
}

/// Makes the report on the messages that a reviewer was fed, and what is to be reported beside it.
pub(crate) fn conclude<'c, J: Judge + Drop>(
    alloc: Global,
    reviewer: Reviewer,
    judge: J,
    known: Option<&[Bytes]>,
    beside: Beside<'c>,
) -> Result<Concluded<'c>, RunFault>
    requires sound { J.sound judge }
    requires askable { (q : Question) → J.askable judge q }
    ensures made { (messages : List (List ℕ))
        → Keeps reviewer (notes messages)
        → IfOk result (λ concluded. (detail : Detail) (ending : Ending)
        → lines_beside detail concluded.report concluded.missing ending
        ≡ lines_by (given known.entry) detail (answers J.trusted J.valid judge) beside.entry messages ending) }
    ensures told { (messages : List (List ℕ))
        → Keeps reviewer (notes messages)
        → IfOk result (λ concluded. concluded.report
        ≡ report_by (given known.entry) (answers J.trusted J.valid judge) (contents (notes messages))) }
    ensures rising { (messages : List (List ℕ))
        → Keeps reviewer (notes messages)
        → IfOk result (λ concluded. IsInOrder concluded.report) }
    ensures stops { (options : ReadOptions) (before after : Source)
        → after.failed ≡ false → IfErr result (StopsRun true options before after) }
    ensures code { beside.entry ≡ Nothing → IfErr result (λ fault. fault ≢ RunFault.Memory) }
{
    pinned_reports_are_of_logs();
    reports_are_in_order();
    pinned_reports_are_in_order();
    logs_are_reviewed();
    match beside {
        Beside::Nothing => {
            let report = reviewer.conclude_by(judge, known)?;
            Ok(Concluded {
                report,
                missing: None,
            })
        }
        Beside::Missing { up_to } => {
            let counted = reviewer.conclude_counted_by(judge, known)?;
            let ends = end_counters(up_to);
            Ok(beside_counted(alloc, counted, ends, None, None)?)
        }
        Beside::Night { first, second } => {
            let counted = reviewer.conclude_counted_by(judge, known)?;
            let ends = end_counters(second);
            Ok(beside_counted(alloc, counted, ends, Some(first), second)?)
        }
    }
}

/// A report, with what is missing beside it up to these counters, and the bounds of its night.
fn beside_counted<'c>(
    alloc: Global,
    counted: CountedReport,
    up_to: &[Counter],
    first: Option<&'c [Counter]>,
    second: Option<&'c [Counter]>,
) -> Result<Concluded<'c>, NoMemory>
    ensures made { AreReviewed counted.report.sessions counted.counted
        → IfOk result (λ concluded. (detail : Detail) (ending : Ending)
        → lines_beside detail concluded.report concluded.missing ending
        ≡ lines_between detail (given first.entry) (given second.entry) counted.report
        (log_shortfalls up_to.now counted.report.sessions counted.counted) ending) }
    ensures told { IfOk result (λ concluded. concluded.report ≡ counted.report) }
{
    let CountedReport { report, counted } = counted;
    let sessions = report.sessions.as_slice();
    let short = log_shortfalls(alloc, up_to, sessions, counted.as_slice())?;
    let second = bounds_of(alloc, second)?;
    let first = bounds_of(alloc, first)?;
    Ok(Concluded {
        report,
        missing: Some(Missing {
            short,
            first,
            second,
        }),
    })
}

/// These counters, or none.
fn end_counters<'c>(counters: Option<&'c [Counter]>) -> &'c [Counter]
    ensures { result.now ≡ end_counters (given counters.entry) }
{
    match counters {
        Some(counters) => counters,
        None => &[],
    }
}

/// The bounds that these counters say, if they are given.
fn bounds_of<'c>(
    alloc: Global,
    counters: Option<&'c [Counter]>,
) -> Result<Option<Bounds<'c>>, NoMemory>
    ensures { IfOk result (λ bounds. bounds ≡ given counters.entry) }
{
    match counters {
        Some(counters) => Ok(Some(Bounds::of(alloc, counters)?)),
        None => Ok(None),
    }
}
