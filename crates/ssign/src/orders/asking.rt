//! A review that writes its questions to a file before it reads the answers to them.
ghost use Rattle.std.specs.Prelude.{◌≡◌, ◌≢◌, Some, false, true, IfOk, IfErr};
ghost use Rattle.ss_frame.specs.Watched.{Source, has_failed, source_of, sink_of};
ghost use Rattle.ss_report.specs.runs.Opened.{HasRead};
ghost use Rattle.ss_report.specs.runs.Run.{Runs, Stops};
ghost use Rattle.ssign.specs.AskOrder.{AsksOr, EndsAsking, asking_job, unasked};
ghost use Rattle.ssign.specs.GivenFiles.{files_of};
ghost use Rattle.ssign.specs.LogOrder.{asked_job};
ghost use Rattle.ssign.specs.Refusal.{is_before_questions, is_before_run, may_have_written};
ghost use Rattle.ssign.specs.declared.task.Task.TheVariants.{Review};

use crate::given_files::GivenFiles;
use crate::orders::prepare::{Asked, items_of, prepare};
use crate::questions_fault::QuestionsFault;
use crate::refusal::Refusal;
use crate::task::{Reporting, Task, beside_of};
use clap::ArgMatches;
use ss_answers::Answers;
use ss_frame::Watched;
use ss_report::{OpenReview, RunFault, Verdict};
use std::alloc::Global;
use std::io::{Read, Write};

/// Carries out a review by its options and by the files that they name. The files of `--from`, `--counters` and
/// `--pinned` are read, and then the log to its end. Then the questions are written to the file of the path `ask`, which
/// is closed. After that the answers are read of the file of the path `answers`, and the report is written.
///
/// # Errors
///
/// The first of: the options' own mistakes, the faults of the files that are read before the log, `Run` where the log
/// can't be read to its end, `Questions` where the questions can't be written, `LateAnswers` where the answers can't be
/// read, and `LateRun` where memory runs out after the log, or the report can't be written. The file of the questions
/// isn't made unless the log was read to its end. But for a failed write of the report, nothing was written to the writer.
pub fn run_asking<F: GivenFiles, R: Read, W: Write>(
    alloc: Global,
    files: &mut F,
    reader: &mut Watched<R>,
    writer: &mut Watched<W>,
    ask: &str,
    answers: &str,
    options: &ArgMatches<'_>,
) -> Result<Verdict, Refusal>
    requires reader { has_failed reader.old ≡ false }
    requires writer { has_failed writer.old ≡ false }
    ensures ends { EndsAsking ask.now answers.now (files_of F.contents F.written files.old)
        (files_of F.contents F.written files.new) options.now
        (source_of R.remaining reader.old) (source_of R.remaining reader.new)
        (sink_of W.contents writer.old) (sink_of W.contents writer.new) result }
    ensures unread { IfErr result (λ refusal. is_before_run refusal ≡ true → reader.new ≡ reader.old) }
    ensures untouched { IfErr result (λ refusal. may_have_written refusal ≡ false → writer.new ≡ writer.old) }
    ensures unopened { IfErr result (λ refusal. is_before_questions refusal ≡ true → files.new ≡ files.old) }
{
    let asked = match prepare(alloc, files, Task::Review, options) {
        Ok(asked) => asked,
        Err(refusal) => return Err(refusal),
    };
    let review = match OpenReview::read(alloc, reader, asked.reading) {
        Ok(review) => review,
        Err(fault) => return Err(Refusal::Run(fault)),
    };
    match ask_in(files, ask, &review, &asked) {
        Ok(()) => {}
        Err(refusal) => return Err(refusal),
    }
    let answers = match files.answers(answers) {
        Ok(answers) => answers,
        Err(fault) => return Err(Refusal::LateAnswers(fault)),
    };
    match report_on(writer, review, asked, answers) {
        Ok(verdict) => Ok(verdict),
        Err(fault) => Err(Refusal::LateRun(fault)),
    }
}

/// Writes what a review asks about a log that was read to the file of this path, and closes it.
fn ask_in<F: GivenFiles>(
    files: &mut F,
    path: &str,
    review: &OpenReview,
    asked: &Asked,
) -> Result<(), Refusal>
    ensures asks { (before after : Source) → HasRead asked.now.reading before after review.now
        → AsksOr (asking_job asked.now) asked.now.reading before after path.now
        (files_of F.contents F.written files.old) (files_of F.contents F.written files.new) result }
    ensures late { IfErr result (λ refusal. is_before_questions refusal ≡ false) }
{
    let output = match files.create(path) {
        Ok(output) => output,
        Err(fault) => return Err(Refusal::Questions(fault)),
    };
    let mut output = Watched::new(output);
    let known = items_of(&asked.known);
    let result = review.ask(&mut output, known, asked.reporting.form.notation());
    files.close(path, output.into_inner());
    match result {
        Ok(_) => Ok(()),
        Err(fault) => Err(unasked(fault)),
    }
}

/// Why the questions of a log that was read aren't there, by the fault of the review.
fn unasked(fault: RunFault) -> Refusal
    ensures refusal { result ≡ unasked fault }
    ensures late { is_before_questions result ≡ false }
{
    match fault {
        RunFault::Write => Refusal::Questions(QuestionsFault::File),
        _ => Refusal::LateRun(fault),
    }
}

/// Writes the report of a log that was read, by these answers.
fn report_on<W: Write>(
    writer: &mut Watched<W>,
    review: OpenReview,
    asked: Asked,
    answers: Answers,
) -> Result<Verdict, RunFault>
    requires writer { has_failed writer.old ≡ false }
    ensures done { (before after : Source) → HasRead asked.reading before after review
        → IfOk result (Runs (asked_job Review asked (Some answers)) asked.reading before after
        (sink_of W.contents writer.old) (sink_of W.contents writer.new)) }
    ensures stopped { (before after : Source) → HasRead asked.reading before after review
        → IfErr result (Stops (asked_job Review asked (Some answers)) asked.reading before after
        (sink_of W.contents writer.old) (sink_of W.contents writer.new)) }
    ensures untouched { (before after : Source) → HasRead asked.reading before after review
        → IfErr result (λ fault. fault ≢ RunFault.Write → writer.new ≡ writer.old) }
{
    let Asked {
        reporting,
        first,
        counters,
        known,
        ..
    } = asked;
    let Reporting { form, detail, .. } = reporting;
    let beside = beside_of(reporting, items_of(&first), items_of(&counters));
    let list = items_of(&known);
    review.report(writer, answers, list, form, detail, beside)
}
