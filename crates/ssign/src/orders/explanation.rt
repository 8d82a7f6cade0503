//! The command that explains a code.
ghost use Rattle.std.specs.Prelude.{◌≡◌, false, IfErr};
ghost use Rattle.ss_frame.specs.Watched.{has_failed, sink_of};
ghost use Rattle.ssign.specs.Orders.{EndsExplaining};
ghost use Rattle.ssign.specs.Refusal.{may_have_written};

use crate::command_line::{asks_for_json, given_code};
use crate::explain::explained;
use crate::explanations::Tables;
use crate::refusal::Refusal;
use clap::ArgMatches;
use ss_frame::Watched;
use ss_report::{Verdict, write_whole};
use std::alloc::Global;
use std::io::Write;

/// Writes what the code means that is asked about, by its entry in one of the tables, or what all of them mean.
///
/// # Errors
///
/// `NoCode` where no code is given without `--json`; `NoEntry` where no entry has the code; `Run` with
/// `RunFault::Write` where a call of the writer failed, or with `RunFault::Memory`. But for a failed write, nothing was
/// written then.
pub fn run_explain<W: Write>(
    alloc: Global,
    writer: &mut Watched<W>,
    tables: Tables<'_>,
    options: &ArgMatches<'_>,
) -> Result<Verdict, Refusal>
    requires { has_failed writer.old ≡ false }
    ensures ends { EndsExplaining tables.entry options.now
        (sink_of W.contents writer.old) (sink_of W.contents writer.new) result }
    ensures untouched { IfErr result (λ refusal. may_have_written refusal ≡ false → writer.new ≡ writer.old) }
{
    let text = explained(alloc, tables, asks_for_json(options), given_code(options))?;
    match write_whole(writer, &text) {
        Ok(()) => Ok(Verdict::Clean),
        Err(fault) => Err(Refusal::Run(fault)),
    }
}
