//! A review whose log is read once: what it asks is written, and the report once the answers are there.
ghost use Rattle.std.specs.Prelude.{◌≡◌, ◌≢◌, ◌++◌, ◌||◌, ℕ, List, true, false, flat_map, IfOk, IfErr, MatchResult};
ghost use Rattle.ss_frame.specs.Watched.{Source, has_failed, source_of, sink_of};
ghost use Rattle.ss_review.specs.declared.questions.question.Question.{Question};
ghost use Rattle.ss_review.specs.declared.report.report.Report.{Report};
ghost use Rattle.ss_review.specs.keep.Contents.{blocks};
ghost use Rattle.ss_review.specs.keep.Keeping.{Keeps};
ghost use Rattle.ss_review.specs.keep.LogBlocks.{log_blocks};
ghost use Rattle.ss_review.specs.keep.Notes.{notes};
ghost use Rattle.ss_review.specs.report.Meaning.{IsInOrder};
ghost use Rattle.ss_review.specs.sessions.Verified.{answers};
ghost use Rattle.ss_report.specs.log.Fed.{FeedsLog};
ghost use Rattle.ss_report.specs.log.Log.{StopsRun};
ghost use Rattle.ss_report.specs.log.Writing.{Writes};
ghost use Rattle.ss_report.specs.runs.Opened.{HasRead};
ghost use Rattle.ss_report.specs.runs.Run.{FailsToWrite, Job, Makes, Runs, Stops, given};
ghost use Rattle.ss_report.specs.forms.Forms.{line_as};
ghost use Rattle.ss_report.specs.lines.Between.{told_beside};
ghost use Rattle.ss_report.specs.lines.Front.{IsReady, front_lines};
ghost use Rattle.ss_report.specs.strangers.Strangers.{suspects_if};
ghost use Rattle.ss_report.specs.texts.Payloads.{AreMarks};
ghost use Rattle.ss_report.specs.texts.QuestionForms.{asking_lines_as, questions_end};
ghost use Rattle.ss_report.specs.declared.notation.Notation.{Notation};
ghost use Rattle.ss_report.specs.declared.payloads.Payloads.TheVariants as payloads;
ghost use Rattle.ss_report.specs.declared.forms.report_form.ReportForm.{ReportForm};
ghost use Rattle.ss_report.specs.declared.lines.detail.Detail.{Detail};
ghost use Rattle.ss_report.specs.declared.log.ending.Ending.{Ending};
ghost use Rattle.ss_report.specs.declared.log.read_options.ReadOptions.{ReadOptions};
ghost use Rattle.ss_report.specs.declared.runs.beside.Beside.TheVariants.{Nothing};
ghost use Rattle.ss_report.specs.runs.Jobs.{ReviewsAs, asking_first, reviewing_beside};

use crate::fault::RunFault;
use crate::forms::report_form::ReportForm;
use crate::lines::detail::Detail;
use crate::lines::front::FrontMatter;
use crate::lines::missing::Missing;
use crate::lines::writing::write_report_as;
use crate::log::ending::Ending;
use crate::log::fed::{Fed, feed_log};
use crate::log::read_options::ReadOptions;
use crate::notation::Notation;
use crate::payloads::Payloads;
use crate::records::record::{begin, end};
use crate::runs::beside::Beside;
use crate::runs::concluding::{Concluded, conclude};
use crate::runs::outcome::end_run;
use crate::runs::questions::{Asked, marks_for, write_asked};
use crate::strangers::suspects::{Suspects, suspects};
use crate::verdict::verdict::{Verdict, end_verdict, told_verdict};
use ss_frame::Watched;
use ss_octets::Bytes;
use ss_review::laws::counted::counted_or_missing;
use ss_review::laws::kept::{every_block_is_told, every_number_is_told};
use ss_review::laws::pinned::pinned_reports_are_of_logs;
use ss_review::laws::reports::reports_list_what_is_announced;
use ss_review::{Judge, LogBlock, LogBlocks, Report, ReviewFault, Reviewer};
use std::alloc::Global;
use std::io::{Read, Write};

/// A log that was read to its end for a review, whose report isn't made yet. So what the review asks can be written, and
/// the answers read, between the two, and the log is read once.
#[derive(Drop)]
pub struct OpenReview {
    alloc: Global,
    fed: Fed,
}

impl OpenReview {
    /// Reads a log to its end. A message is fed to the reviewer as it is read, and then given up.
    ///
    /// `RunFault::Frame` where the log can't be read to its end, `RunFault::Review` (V1) if memory runs out.
    pub fn read<R: Read>(
        alloc: Global,
        reader: &mut Watched<R>,
        options: ReadOptions,
    ) -> Result<OpenReview, RunFault>
        requires { has_failed reader.old ≡ false }
        ensures read { MatchResult result
            (HasRead options (source_of R.remaining reader.old) (source_of R.remaining reader.new))
            (StopsRun true options (source_of R.remaining reader.old) (source_of R.remaining reader.new)) }
        // Out of memory is F4 or V1, and never W2.
        ensures code { IfErr result (λ fault. fault ≢ RunFault.Memory) }
    {
        let fed = feed_log(alloc, reader, options)?;
        Ok(OpenReview { alloc, fed })
    }

    /// Writes what the review asks of a signature scheme by these payloads that are known beforehand: the lines that
    /// `run_questions` writes of the same log with each payload once, and a last line `end`. The verdict is clean exactly
    /// at a clean end of the log. It can be called again.
    ///
    /// Nothing is allocated once the first octet is written. `RunFault::Write` exactly where a call of the writer failed;
    /// what was written then is a prefix of the text. After V1, where memory ran out, nothing was written.
    pub fn ask<W: Write>(
        &self,
        writer: &mut Watched<W>,
        known: Option<&[Bytes]>,
        notation: Notation,
    ) -> Result<Verdict, RunFault>
        requires { has_failed writer.old ≡ false }
        ensures asked { (options : ReadOptions) (before after : Source)
            → HasRead options before after self.now
            → MatchResult result
            (Runs (asking_first notation (given known.entry)) options before after (sink_of W.contents writer.old)
            (sink_of W.contents writer.new))
            (Stops (asking_first notation (given known.entry)) options before after (sink_of W.contents writer.old)
            (sink_of W.contents writer.new)) }
        ensures untouched { (options : ReadOptions) (before after : Source)
            → HasRead options before after self.now
            → IfErr result (λ fault. fault ≢ RunFault.Write → writer.new ≡ writer.old) }
    {
        match asked_of(self.alloc, &self.fed, known) {
            Ok(asked) => {
                write_asked(writer, &asked, notation, Payloads::Once);
                write_questions_end(writer, notation);
                end_run(writer, asked.verdict)
            }
            Err(fault) => Err(fault),
        }
    }

    /// Makes the report, and writes it as `run_review_as` does.
    pub fn report<W: Write, J: Judge + Drop>(
        self,
        writer: &mut Watched<W>,
        judge: J,
        known: Option<&[Bytes]>,
        form: ReportForm,
        detail: Detail,
        beside: Beside<'_>,
    ) -> Result<Verdict, RunFault>
        requires writer { has_failed writer.old ≡ false }
        requires sound { J.sound judge }
        requires askable { (q : Question) → J.askable judge q }
        ensures reviewed { (options : ReadOptions) (before after : Source)
            → HasRead options before after self
            → IfOk result
            (ReviewsAs form detail beside.entry (given known.entry) (answers J.trusted J.valid judge) options before after
            (sink_of W.contents writer.old) (sink_of W.contents writer.new)) }
        ensures stopped { (options : ReadOptions) (before after : Source)
            → HasRead options before after self
            → IfErr result
            (Stops (reviewing_beside form detail beside.entry (given known.entry) (answers J.trusted J.valid judge)) options
            before after (sink_of W.contents writer.old) (sink_of W.contents writer.new)) }
        ensures untouched { (options : ReadOptions) (before after : Source)
            → HasRead options before after self
            → IfErr result (λ fault. fault ≢ RunFault.Write → writer.new ≡ writer.old) }
        ensures code { (options : ReadOptions) (before after : Source)
            → HasRead options before after self
            → beside.entry ≡ Nothing
            → IfErr result (λ fault. fault ≢ RunFault.Memory) }
    {
        let OpenReview { alloc, fed } = self;
        pinned_reports_are_of_logs();
        reports_list_what_is_announced();
        counted_or_missing();
        every_number_is_told();
        every_block_is_told();
        match review_fed(alloc, fed, judge, known, beside, detail) {
            Ok(reviewed) => write_reviewed(writer, reviewed, form, detail),
            Err(fault) => Err(fault),
        }
    }
}

/// What a review asks of a log that was read, by these payloads that are known beforehand.
fn asked_of(alloc: Global, fed: &Fed, known: Option<&[Bytes]>) -> Result<Asked, RunFault>
    ensures made { (options : ReadOptions) (before after : Source)
        → FeedsLog options before after fed.now.reviewer fed.now.ending
        → MatchResult result
        (λ asked.
        (notation : Notation)
        → Makes (asking_first notation (given known.entry)) options before after
        (asking_lines_as notation payloads.Once asked.sessions ++ questions_end notation) asked.verdict)
        (StopsRun true options before after) }
    ensures marked { IfOk result (λ asked. AreMarks payloads.Once asked.sessions asked.marks.items) }
{
    let sessions = fed.reviewer.ask_by(known)?;
    let marks = marks_for(alloc, sessions.as_slice(), Payloads::Once)?;
    let verdict = end_verdict(&fed.ending);
    Ok(Asked {
        sessions,
        marks,
        verdict,
    })
}

/// Writes the line after the last question.
fn write_questions_end<W: Write>(writer: &mut Watched<W>, notation: Notation)
    ensures { Writes (sink_of W.contents writer.old) (sink_of W.contents writer.new) (questions_end notation) }
{
    begin(writer, notation, b"end");
    end(writer, notation);
}

/// The report of a log, what the lines in front of it are made of, what is to be reported beside it, what the log holds
/// beside its messages, and the verdict.
#[derive(Drop)]
struct Reviewed<'c> {
    front: FrontMatter,
    report: Report,
    missing: Option<Missing<'c>>,
    ending: Ending,
    verdict: Verdict,
}

/// Writes the report in a form, flushes the writer, and answers the verdict. `RunFault::Write` exactly where a call of
/// the writer has failed.
fn write_reviewed<W: Write>(
    writer: &mut Watched<W>,
    reviewed: Reviewed<'_>,
    form: ReportForm,
    detail: Detail,
) -> Result<Verdict, RunFault>
    ensures { (job : Job) (options : ReadOptions) (before after : Source)
        → IsReady detail reviewed.entry.front reviewed.entry.report
        → Makes job options before after
        (flat_map (line_as form)
        (told_beside detail reviewed.entry.front.blocks reviewed.entry.report reviewed.entry.missing
        reviewed.entry.ending))
        reviewed.entry.verdict
        → MatchResult result
        (λ told. Runs job options before after (sink_of W.contents writer.old) (sink_of W.contents writer.new) told)
        (λ fault. (fault ≡ RunFault.Write)
        × FailsToWrite job options before after (sink_of W.contents writer.old) (sink_of W.contents writer.new)) }
{
    let verdict = reviewed.verdict;
    let Reviewed {
        front,
        report,
        missing,
        ending,
        ..
    } = &reviewed;
    write_report_as(writer, front, report, missing, ending, form, detail);
    drop(reviewed);
    end_run(writer, verdict)
}

/// Makes the report on a log that was read, what is to be reported beside it, and the verdict.
fn review_fed<'c, J: Judge + Drop>(
    alloc: Global,
    fed: Fed,
    judge: J,
    known: Option<&[Bytes]>,
    beside: Beside<'c>,
    detail: Detail,
) -> Result<Reviewed<'c>, RunFault>
    requires sound { J.sound judge }
    requires askable { (q : Question) → J.askable judge q }
    ensures made { (options : ReadOptions) (before after : Source)
        → FeedsLog options before after fed.reviewer fed.ending
        → MatchResult result
        (λ reviewed.
        (form : ReportForm)
        → Makes (reviewing_beside form detail beside.entry (given known.entry) (answers J.trusted J.valid judge)) options
        before after
        (flat_map (line_as form)
        (told_beside detail reviewed.front.blocks reviewed.report reviewed.missing reviewed.ending)) reviewed.verdict)
        (StopsRun true options before after) }
    ensures ready { (options : ReadOptions) (before after : Source)
        → FeedsLog options before after fed.reviewer fed.ending
        → IfOk result (λ reviewed. IsReady detail reviewed.front reviewed.report) }
    ensures code { beside.entry ≡ Nothing → IfErr result (λ fault. fault ≢ RunFault.Memory) }
{
    let blocks = blocks_for(alloc, &fed.reviewer, detail)?;
    let Fed { reviewer, ending } = fed;
    let Concluded { report, missing } = conclude(alloc, reviewer, judge, known, beside)?;
    let suspects = suspects_for(alloc, blocks.as_slice(), &report, detail)?;
    let front = FrontMatter { blocks, suspects };
    let verdict = told_verdict(&front, &report, &missing, &ending, detail);
    Ok(Reviewed {
        front,
        report,
        missing,
        ending,
        verdict,
    })
}

/// The blocks of a log that a reviewer was fed, if lines in front of its report need them, and else none.
fn blocks_for(alloc: Global, reviewer: &Reviewer, detail: Detail) -> Result<LogBlocks, RunFault>
    ensures same { (messages : List (List ℕ))
        → Keeps reviewer.now (notes messages)
        → IfOk result (λ bs. (report : Report)
        → front_lines detail bs report ≡ front_lines detail (log_blocks (blocks (notes messages))) report) }
    ensures stops { (options : ReadOptions) (before after : Source)
        → after.failed ≡ false → IfErr result (StopsRun true options before after) }
    ensures code { IfErr result (λ fault. fault ≢ RunFault.Memory) }
{
    if needs_blocks(detail) {
        Ok(reviewer.log_blocks()?)
    } else {
        Ok(LogBlocks::from_vec(Vec::new(alloc)))
    }
}

/// Whether lines in front of a report need the blocks of its log.
fn needs_blocks(detail: Detail) -> bool
    ensures { result ≡ ((detail.blocks || detail.no_sha1) || detail.ignore_strangers) }
{
    detail.blocks || detail.no_sha1 || detail.ignore_strangers
}

/// The refused blocks that aren't to be ignored, if those of strangers are, and else none.
fn suspects_for(
    alloc: Global,
    blocks: &[LogBlock],
    report: &Report,
    detail: Detail,
) -> Result<Suspects, ReviewFault>
    ensures found { IsInOrder report.now
        → IfOk result (λ found. found ≡ suspects_if detail.ignore_strangers blocks.now report.now) }
    ensures fault { IfErr result (λ fault. fault ≡ ReviewFault.Memory) }
{
    if detail.ignore_strangers {
        Ok(suspects(alloc, blocks, report)?)
    } else {
        Ok(Suspects::from_vec(Vec::new(alloc)))
    }
}
