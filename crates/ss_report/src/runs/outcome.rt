//! What a run makes of a log before it writes.
ghost use Rattle.std.specs.Prelude.{◌≡◌, ℕ, List, false, MatchResult};
ghost use Rattle.ss_frame.specs.Watched.{Source, Sink, has_failed, sink_of};
ghost use Rattle.ss_report.specs.log.Writing.{Writes};
ghost use Rattle.ss_report.specs.declared.log.read_options.ReadOptions.{ReadOptions};
ghost use Rattle.ss_report.specs.runs.Run.{Job, Makes, Runs, FailsToWrite};

use crate::fault::RunFault;
use crate::log::output::{end_text, write_whole};
use crate::verdict::verdict::Verdict;
use ss_frame::Watched;
use std::io::Write;

/// The whole output of a run, none of it written yet, and its verdict.
#[derive(Drop)]
pub(crate) struct Outcome {
    pub(crate) output: Vec<u8>,
    pub(crate) verdict: Verdict,
}

impl Outcome {
    /// Writes the output, and answers the verdict. `RunFault::Write` exactly where a call of the writer failed; what
    /// was written then is a prefix of the output.
    pub(crate) fn write<W: Write>(&self, writer: &mut Watched<W>) -> Result<Verdict, RunFault>
        requires { has_failed writer.old ≡ false }
        ensures { (job : Job) (options : ReadOptions) (before after : Source)
            → Makes job options before after self.now.output.items self.now.verdict
            → MatchResult result
            (λ verdict.
            Runs job options before after (sink_of W.contents writer.old) (sink_of W.contents writer.new) verdict)
            (λ fault.
            (fault ≡ RunFault.Write)
            × FailsToWrite job options before after (sink_of W.contents writer.old)
            (sink_of W.contents writer.new)) }
    {
        write_whole(writer, self.output.as_slice())?;
        Ok(self.verdict)
    }
}

/// Flushes the writer after the output of a run, and answers the verdict. `RunFault::Write` exactly where a call of
/// the writer has failed, in this call or before; what was written then is a prefix of the output.
pub(crate) fn end_run<W: Write>(
    writer: &mut Watched<W>,
    verdict: Verdict,
) -> Result<Verdict, RunFault>
    ensures { (job : Job) (options : ReadOptions) (before after : Source) (was : Sink) (output : List ℕ)
        → Makes job options before after output verdict → Writes was (sink_of W.contents writer.old) output
        → MatchResult result
        (λ told. Runs job options before after was (sink_of W.contents writer.new) told)
        (λ fault. (fault ≡ RunFault.Write) × FailsToWrite job options before after was (sink_of W.contents writer.new)) }
{
    end_text(writer)?;
    Ok(verdict)
}
