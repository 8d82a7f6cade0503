//! A command over a stored log.
ghost use Rattle.std.specs.Prelude.{◌≡◌, ◌≢◌, None, false, true, IfOk, IfErr, option_map};
ghost use Rattle.ss_frame.specs.Watched.{has_failed, source_of, sink_of};
ghost use Rattle.ss_report.specs.runs.Run.{Runs, Stops};
ghost use Rattle.ssign.specs.AskOrder.{EndsLog, ask_path};
ghost use Rattle.ssign.specs.GivenFiles.{files_of};
ghost use Rattle.ssign.specs.LogOrder.{EndsAtOnce, asked_job};
ghost use Rattle.ssign.specs.Refusal.{is_before_questions, is_before_run, may_have_written};

use crate::command_line::{answers_file, ask_file};
use crate::given_files::{GivenFiles, answers_in};
use crate::orders::asking::run_asking;
use crate::orders::prepare::{Asked, items_of, prepare};
use crate::refusal::Refusal;
use crate::refuse_all::RefuseAll;
use crate::task::{Task, TaskRequest, run_task};
use clap::ArgMatches;
use ss_answers::Answers;
use ss_frame::Watched;
use ss_report::{RunFault, Verdict};
use std::alloc::Global;
use std::io::{Read, Write};

/// Carries out a command over a log, by its options and by the files that they name. Files are read in the order
/// `--from`, `--counters`, `--pinned`, `--facts`, `--places`, `--answers`, and the log after them. Without an answers
/// file nobody answers for signatures. With `--ask` a review reads the log before the answers, and writes its questions
/// to a file between them.
///
/// # Errors
///
/// `UnansweredAsk` for `--ask` without `--answers`. Else the first of: the options' own mistakes, the faults of the
/// files, and those of the run. But for a failed write of the output, nothing was written to the writer then.
pub fn run_log<F: GivenFiles, R: Read, W: Write>(
    alloc: Global,
    files: &mut F,
    reader: &mut Watched<R>,
    writer: &mut Watched<W>,
    task: Task,
    options: &ArgMatches<'_>,
) -> Result<Verdict, Refusal>
    requires reader { has_failed reader.old ≡ false }
    requires writer { has_failed writer.old ≡ false }
    ensures ends { EndsLog (files_of F.contents F.written files.old) (files_of F.contents F.written files.new)
        options.now task
        (source_of R.remaining reader.old) (source_of R.remaining reader.new)
        (sink_of W.contents writer.old) (sink_of W.contents writer.new) result }
    ensures unread { IfErr result (λ refusal. is_before_run refusal ≡ true → reader.new ≡ reader.old) }
    ensures untouched { IfErr result (λ refusal. may_have_written refusal ≡ false → writer.new ≡ writer.old) }
    ensures unasked { ask_path task options.now ≡ None → files.new ≡ files.old }
    ensures unopened { IfErr result (λ refusal. is_before_questions refusal ≡ true → files.new ≡ files.old) }
{
    let ask = match ask_of(task, options) {
        Some(ask) => ask,
        None => return run_at_once(alloc, files, reader, writer, task, options),
    };
    let answers = match answers_file(options) {
        Some(answers) => answers,
        None => return Err(Refusal::UnansweredAsk),
    };
    run_asking(alloc, files, reader, writer, ask, answers, options)
}

/// The file to which a review is to write its questions, if it is.
fn ask_of<'a>(task: Task, options: &ArgMatches<'a>) -> Option<&'a str>
    ensures path { option_map (λ s. s.now) result ≡ ask_path task options.now }
{
    match task {
        Task::Review => ask_file(options),
        _ => None,
    }
}

/// The same, where the answers are read before the log.
fn run_at_once<F: GivenFiles, R: Read, W: Write>(
    alloc: Global,
    files: &F,
    reader: &mut Watched<R>,
    writer: &mut Watched<W>,
    task: Task,
    options: &ArgMatches<'_>,
) -> Result<Verdict, Refusal>
    requires reader { has_failed reader.old ≡ false }
    requires writer { has_failed writer.old ≡ false }
    ensures ends { EndsAtOnce (F.contents files.now) options.now task
        (source_of R.remaining reader.old) (source_of R.remaining reader.new)
        (sink_of W.contents writer.old) (sink_of W.contents writer.new) result }
    ensures unread { IfErr result (λ refusal. is_before_run refusal ≡ true → reader.new ≡ reader.old) }
    ensures untouched { IfErr result (λ refusal. may_have_written refusal ≡ false → writer.new ≡ writer.old) }
{
    let asked = match prepare(alloc, files, task, options) {
        Ok(asked) => asked,
        Err(refusal) => return Err(refusal),
    };
    let answers = match answers_in(files, answers_file(options)) {
        Ok(answers) => answers,
        Err(fault) => return Err(Refusal::Answers(fault)),
    };
    match run_answered(alloc, reader, writer, task, asked, answers) {
        Ok(verdict) => Ok(verdict),
        Err(fault) => Err(Refusal::Run(fault)),
    }
}

/// Makes a run over a log, as `run_task`, where the answers are those of a file, or nobody answers.
fn run_answered<R: Read, W: Write>(
    alloc: Global,
    reader: &mut Watched<R>,
    writer: &mut Watched<W>,
    task: Task,
    asked: Asked,
    answers: Option<Answers>,
) -> Result<Verdict, RunFault>
    requires reader { has_failed reader.old ≡ false }
    requires writer { has_failed writer.old ≡ false }
    ensures done { IfOk result
        (Runs (asked_job task asked answers) asked.reading
        (source_of R.remaining reader.old) (source_of R.remaining reader.new)
        (sink_of W.contents writer.old) (sink_of W.contents writer.new)) }
    ensures stopped { IfErr result
        (Stops (asked_job task asked answers) asked.reading
        (source_of R.remaining reader.old) (source_of R.remaining reader.new)
        (sink_of W.contents writer.old) (sink_of W.contents writer.new)) }
    ensures untouched { IfErr result (λ fault. fault ≢ RunFault.Write → writer.new ≡ writer.old) }
{
    let Asked {
        reading,
        extraction,
        reporting,
        first,
        counters,
        known,
        facts,
    } = asked;
    let request = TaskRequest {
        task,
        reporting,
        known: items_of(&known),
        first: items_of(&first),
        counters: items_of(&counters),
        facts,
        extraction,
        reading,
    };
    match answers {
        Some(answers) => run_task(alloc, reader, writer, request, answers),
        None => run_task(alloc, reader, writer, request, RefuseAll),
    }
}
