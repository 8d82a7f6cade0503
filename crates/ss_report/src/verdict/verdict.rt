//! Whether a run over a log found anything.
ghost use Rattle.std.specs.Prelude.{◌≡◌};
ghost use Rattle.ss_report.specs.Verdict.{end_verdict, is_clean_tail, report_verdict, verdict_of, verdict_where};
ghost use Rattle.ss_report.specs.lines.Front.{IsReady};
ghost use Rattle.ss_report.specs.lines.Between.{told_beside};
ghost use Rattle.ss_report.specs.lines.Lines.{itemizing};

use crate::lines::detail::{Detail, Listing};
use crate::lines::front::FrontMatter;
use crate::lines::missing::Missing;
use crate::lines::settled::Settling;
use crate::lines::walk::{walk_lines, walk_told};
use crate::log::ending::Ending;
use ss_frame::Tail;
use ss_review::Report;

/// Whether a log leaves anything to look into.
#[derive(Clone, Copy, Debug, PartialEq, Eq)]
pub enum Verdict {
    /// Of a review: each announced message is listed, each stored message is listed or a verified block, each session
    /// is joined, nothing is damaged, and the log has a clean end. Of a review that reports what is missing: nothing is
    /// missing either. Of a review of one night: nothing is missing of it, and nothing is announced outside of it. Of a
    /// review with findings besides: none of these was found. Of an inspection, of questions and of counters: nothing is
    /// damaged, and the log has a clean end.
    Clean,
    /// One of these conditions doesn't hold.
    Findings,
}

/// Whether nothing of the log is damaged, and its end is clean.
pub(crate) fn end_verdict(ending: &Ending) -> Verdict
    ensures { result ≡ end_verdict ending.now }
{
    verdict_of(ending.damaged.as_slice().is_empty() && is_clean_tail(ending.tail))
}

fn is_clean_tail(tail: Tail) -> bool
    ensures { result ≡ is_clean_tail tail }
{
    match tail {
        Tail::Clean => true,
        Tail::Torn { .. } => false,
    }
}

/// Whether no line of a report on a log with this ending leaves anything to look into.
pub(crate) fn report_verdict(report: &Report, ending: &Ending) -> Verdict
    ensures { result ≡ report_verdict report.now ending.now }
{
    let mut settled = true;
    let each = Detail::of(Listing::Itemized);
    let settling = Settling { ignoring: false };
    walk_lines(&settling, &mut settled, report, &None, ending, each);
    verdict_of(settled)
}

/// Whether no line of a report on a log with this ending leaves anything to look into, of those with each item and these
/// findings, and none of what is missing beside it, if that is reported too.
pub(crate) fn told_verdict(
    front: &FrontMatter,
    report: &Report,
    missing: &Option<Missing<'_>>,
    ending: &Ending,
    detail: Detail,
) -> Verdict
    ensures { IsReady detail front.now report.now
        → result ≡ verdict_where detail.ignore_strangers
        (told_beside (itemizing detail) front.now.blocks report.now missing.now ending.now) }
{
    let mut settled = true;
    let each = detail.itemized();
    let settling = Settling {
        ignoring: detail.ignore_strangers,
    };
    walk_told(
        &settling,
        &mut settled,
        front,
        report,
        missing,
        ending,
        each,
    );
    verdict_of(settled)
}

/// The verdict of lines that are all settled, or aren't.
fn verdict_of(settled: bool) -> Verdict
    ensures { result ≡ verdict_of settled }
{
    if settled {
        Verdict::Clean
    } else {
        Verdict::Findings
    }
}
