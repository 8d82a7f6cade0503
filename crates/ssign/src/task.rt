//! What the program makes of a log.
ghost use Rattle.std.specs.Prelude.{◌≡◌, ◌≢◌, ℕ, List, Option, false, IfOk, IfErr};
ghost use Rattle.ss_frame.specs.Watched.{has_failed, source_of, sink_of};
ghost use Rattle.ss_review.specs.declared.questions.question.Question.{Question};
ghost use Rattle.ss_review.specs.sessions.Verified.{Answers, answers};
ghost use Rattle.ss_report.specs.runs.Jobs.{reviewing_beside};
ghost use Rattle.ss_report.specs.runs.Run.{Runs, Stops, given};
ghost use Rattle.ssign.specs.Task.{carrying, inspection_form, job_of, review_of};

use ss_frame::{Form, Watched};
use ss_octets::Bytes;
use ss_report::{
    Beside, Detail, Extraction, InspectionForm, Payloads, ReadOptions, ReportForm, Run, RunFault,
    Selection, Verdict, run_counters, run_extract, run_inspect, run_questions, run_review_as,
};
use ss_review::{Counter, Judge, Places};
use std::alloc::Global;
use std::io::{Read, Write};

/// What is asked of a log.
#[derive(Clone, Copy, Debug, PartialEq, Eq)]
pub enum Task {
    /// The report of a review.
    Review,
    /// The questions of a review to a signature scheme.
    Questions,
    /// Messages as they stand.
    Extract,
    /// What each message is.
    Inspect,
    /// How far the signature blocks reach.
    Counters,
    /// What the review of the next log needs of this one.
    Carry,
}

/// How what is asked of a log is reported.
#[derive(Clone, Copy, Debug, PartialEq, Eq)]
pub struct Reporting {
    /// In which form.
    pub form: ReportForm,
    /// Whether a review reports what is missing beside the report: signature blocks below the greatest stored GBC of a
    /// session, and all up to the counters that were kept.
    pub whole: bool,
    /// What a review lists, and what it takes for a finding besides.
    pub detail: Detail,
    /// Whether questions have each payload in each question about it, or once.
    pub payloads: Payloads,
    /// Whether an inspection reports what the octets in a wrap are.
    pub unwrap: bool,
}

/// What is asked of a log.
#[derive(Drop)]
pub struct TaskRequest<'c> {
    /// What is asked of it.
    pub task: Task,
    /// How that is reported.
    pub reporting: Reporting,
    /// The payloads that are known beforehand, if they are given.
    pub known: Option<&'c [Bytes]>,
    /// At which counters a review of one night is to begin, if it is one.
    pub first: Option<&'c [Counter]>,
    /// Up to which counters a review is to be whole, if they are given.
    pub counters: Option<&'c [Counter]>,
    /// The places whose messages an inspection shows, if they are given.
    pub facts: Option<Places>,
    /// Which messages an extract writes, and in which form.
    pub extraction: Extraction,
    /// In which form the log is stored, how long it and its messages may be, and whether reading goes on after damage.
    pub reading: ReadOptions,
}

/// Reads a log to its end, and writes what is asked of it in the form that is wanted. A whole review goes up to these
/// counters, one of a night begins at the first ones, an inspection shows the messages at the places that are given, and
/// an extract has the messages that are wanted. Where payloads are known beforehand, sessions are joined by them;
/// inspections and extracts of given places don't look at them.
/// Questions, inspections and extracts of given places ask the judge nothing. The judge is freed once it is known which
/// blocks are verified.
///
/// Nothing is written before the log is read and the output can be written. `RunFault::Write` exactly where a call of
/// the writer failed; what was written then is a prefix of the output. After any other fault nothing was written:
/// `RunFault::Frame` where the log can't be read to its end, `RunFault::Extract` (E1, E2) where the log hasn't what is
/// to be extracted, or not as lines. Out of memory is `RunFault::Review` (V1) or `RunFault::Memory`.
pub fn run_task<R: Read, W: Write, J: Judge + Drop>(
    alloc: Global,
    reader: &mut Watched<R>,
    writer: &mut Watched<W>,
    request: TaskRequest<'_>,
    judge: J,
) -> Result<Verdict, RunFault>
    requires reader { has_failed reader.old ≡ false }
    requires writer { has_failed writer.old ≡ false }
    requires sound { J.sound judge }
    requires askable { (q : Question) → J.askable judge q }
    ensures done { IfOk result
        (Runs (job_of (answers J.trusted J.valid judge) request.entry.reporting (given request.entry.known)
        (given request.entry.first) (given request.entry.counters) request.entry.facts request.entry.extraction
        request.entry.task)
        request.entry.reading
        (source_of R.remaining reader.old) (source_of R.remaining reader.new)
        (sink_of W.contents writer.old) (sink_of W.contents writer.new)) }
    ensures stopped { IfErr result
        (Stops (job_of (answers J.trusted J.valid judge) request.entry.reporting (given request.entry.known)
        (given request.entry.first) (given request.entry.counters) request.entry.facts request.entry.extraction
        request.entry.task)
        request.entry.reading
        (source_of R.remaining reader.old) (source_of R.remaining reader.new)
        (sink_of W.contents writer.old) (sink_of W.contents writer.new)) }
    ensures untouched { IfErr result (λ fault. fault ≢ RunFault.Write → writer.new ≡ writer.old) }
{
    let TaskRequest {
        task,
        reporting,
        known,
        first,
        counters,
        facts,
        extraction,
        reading,
    } = request;
    let run = Run {
        reader,
        writer,
        options: reading,
        known,
        alloc,
    };
    let Reporting {
        form,
        detail,
        payloads,
        ..
    } = reporting;
    let notation = form.notation();
    match task {
        Task::Review => {
            let beside = beside_of(reporting, first, counters);
            run_review_as(run, judge, form, detail, beside)
        }
        Task::Questions => run_questions(run, notation, payloads),
        Task::Extract => run_extract(run, judge, extraction),
        Task::Inspect => run_inspect(run, inspection_form(reporting), facts),
        Task::Counters => run_counters(run, judge, notation),
        Task::Carry => run_extract(run, judge, carrying()),
    }
}

/// What a review reports beside its report: all of one night where the first counters are given, and what is missing
/// where it is to be whole.
pub fn beside_of<'c>(
    reporting: Reporting,
    first: Option<&'c [Counter]>,
    counters: Option<&'c [Counter]>,
) -> Beside<'c>
    ensures { (known : Option (List (List ℕ))) (says : Answers)
        → reviewing_beside reporting.form reporting.detail result known says
        ≡ review_of says reporting known (given first.entry) (given counters.entry) }
{
    match first {
        Some(first) => Beside::Night {
            first,
            second: counters,
        },
        None if reporting.whole => Beside::Missing { up_to: counters },
        None => Beside::Nothing,
    }
}

/// What is carried over to the next log, as octet-counted frames (RFC 6587, section 3.4.1), and as it stands.
fn carrying() -> Extraction
    ensures { result ≡ carrying }
{
    Extraction {
        selection: Selection::Carried,
        form: Form::Frames,
        unwrap: false,
    }
}

/// How an inspection is written that is reported so.
fn inspection_form(reporting: Reporting) -> InspectionForm
    ensures { result ≡ inspection_form reporting }
{
    InspectionForm {
        lines: reporting.form,
        unwrap: reporting.unwrap,
    }
}
