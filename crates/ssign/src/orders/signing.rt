//! A command over a log that is to be signed.
ghost use Rattle.std.specs.Prelude.{◌≡◌, false, true, IfErr};
ghost use Rattle.ss_frame.specs.Watched.{has_failed, source_of, sink_of};
ghost use Rattle.ssign.specs.Refusal.{is_before_run, may_have_written};
ghost use Rattle.ssign.specs.SigningOrder.{EndsSigning};

use crate::command_line::{answers_file, limits_of, resume_file, sending_of};
use crate::given_files::{GivenFiles, answers_in};
use crate::refusal::Refusal;
use crate::settings::settings_of;
use crate::signing::{Signing, SigningRequest, run_signing};
use crate::start::{StartRefusal, start_in};
use clap::ArgMatches;
use ss_frame::Watched;
use ss_report::Verdict;
use std::alloc::Global;
use std::io::{Read, Write};

/// Carries out a command that plans or signs, by its options and by the files that they name. The texts of the options
/// are looked at first, then the file of `--resume` is read, and then that of `--answers`, before the log.
///
/// # Errors
///
/// The first of: the options' own mistakes, the faults of the files, and those of the run. But for a failed write,
/// nothing was written then.
pub fn run_sent<F: GivenFiles, R: Read, W: Write>(
    alloc: Global,
    files: &F,
    reader: &mut Watched<R>,
    writer: &mut Watched<W>,
    signing: Signing,
    options: &ArgMatches<'_>,
) -> Result<Verdict, Refusal>
    requires reader { has_failed reader.old ≡ false }
    requires writer { has_failed writer.old ≡ false }
    ensures ends { EndsSigning (F.contents files.now) options.now signing
        (source_of R.remaining reader.old) (source_of R.remaining reader.new)
        (sink_of W.contents writer.old) (sink_of W.contents writer.new) result }
    ensures unread { IfErr result (λ refusal. is_before_run refusal ≡ true → reader.new ≡ reader.old) }
    ensures untouched { IfErr result (λ refusal. may_have_written refusal ≡ false → writer.new ≡ writer.old) }
{
    let limits = match limits_of(options) {
        Some(limits) => limits,
        None => return Err(Refusal::NoOption),
    };
    let settings = match settings_of(alloc, options) {
        Some(Ok(settings)) => settings,
        Some(Err(fault)) => return Err(Refusal::Settings(fault)),
        None => return Err(Refusal::NoOption),
    };
    let start = match start_in(alloc, files, resume_file(options), &settings.config) {
        Ok(start) => start,
        Err(StartRefusal::File(fault)) => return Err(Refusal::Resume(fault)),
        Err(StartRefusal::Counters(fault)) => return Err(Refusal::Start(fault)),
    };
    let answers = match answers_in(files, answers_file(options)) {
        Ok(answers) => answers,
        Err(fault) => return Err(Refusal::Answers(fault)),
    };
    let request = SigningRequest {
        signing,
        settings,
        sending: sending_of(options),
        start,
        answers,
        limits,
    };
    match run_signing(alloc, reader, writer, request) {
        Ok(()) => Ok(Verdict::Clean),
        Err(fault) => Err(Refusal::Signing(fault)),
    }
}
