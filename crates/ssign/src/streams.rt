//! Runs over any input, through a buffer, and the buffer of standard output.
ghost use Rattle.std.specs.Prelude.{◌≡◌, [], false, IfOk, MatchResult};
ghost use Rattle.ss_frame.specs.Buffered.{behind, has_failed_behind, waiting};
ghost use Rattle.ss_frame.specs.Watched.{has_failed, inner_of, sink_of};
ghost use Rattle.std.specs.Io.Buffered.{writer_buffer};
ghost use Rattle.ssign.specs.GivenFiles.{files_of};
ghost use Rattle.ssign.specs.Outcome.{EndsFrom};

use crate::command_line::{Order, form_in};
use crate::explanations::Tables;
use crate::given_files::GivenFiles;
use crate::orders::run_order;
use crate::progress::Progress;
use crate::refusal::Refusal;
use crate::refusing::Screen;
use clap::ArgMatches;
use ss_frame::{Buffered, Watched};
use ss_report::{RunFault, Verdict};
use std::alloc::Global;
use std::io;
use std::io::{BufWriter, Printer, Read, Write};
use std::rt::Clock;

/// How much is written at once, in octets.
const BUFFER_SIZE: usize = 65_536;

/// Carries out what a command asks for, and reports on a terminal how many messages it has read.
pub fn run_reported<R: Eprint + Screen + Clock + Drop, F: GivenFiles, I: Read + Drop, W: Write>(
    alloc: Global,
    rt: R,
    files: &mut F,
    input: I,
    writer: &mut Watched<W>,
    tables: Tables<'_>,
    order: Order,
    options: &ArgMatches<'_>,
) -> Result<Verdict, Refusal>
    requires { has_failed writer.old ≡ false }
    ensures { EndsFrom (files_of F.contents F.written files.old) (files_of F.contents F.written files.new) tables.entry options.now order (I.remaining input)
        (sink_of W.contents writer.old) (sink_of W.contents writer.new) result }
{
    let mut reader = Progress::new(rt, input, form_in(options));
    let ended = run_buffered(alloc, files, &mut reader, writer, tables, order, options);
    reader.finish();
    ended
}

/// Carries out what a command asks for, over the octets of the input, through a buffer.
fn run_buffered<F: GivenFiles, I: Read + Drop, W: Write>(
    alloc: Global,
    files: &mut F,
    input: I,
    writer: &mut Watched<W>,
    tables: Tables<'_>,
    order: Order,
    options: &ArgMatches<'_>,
) -> Result<Verdict, Refusal>
    requires { has_failed writer.old ≡ false }
    ensures { EndsFrom (files_of F.contents F.written files.old) (files_of F.contents F.written files.new) tables.entry options.now order (I.remaining input)
        (sink_of W.contents writer.old) (sink_of W.contents writer.new) result }
{
    let mut reader = match buffered(alloc, input) {
        Ok(reader) => reader,
        Err(fault) => return Err(Refusal::Run(fault)),
    };
    run_order(alloc, files, &mut reader, writer, tables, order, options)
}

/// The input, through a buffer.
fn buffered<I: Drop>(alloc: Global, input: I) -> Result<Watched<Buffered<I>>, RunFault>
    // No read has failed, of the buffer or of what it reads from.
    ensures opened { MatchResult result
        (λ reader. (has_failed reader ≡ false) × (has_failed_behind (inner_of reader) ≡ false))
        (λ fault. fault ≡ RunFault.Memory) }
    // Nothing was read: the buffer reads from the input, and no octet waits in it.
    ensures given { IfOk result (λ reader. (behind (inner_of reader) ≡ input) × (waiting (inner_of reader) ≡ [])) }
{
    let Ok(input) = Buffered::new(alloc, input) else {
        return Err(RunFault::Memory);
    };
    Ok(Watched::new(input))
}

/// Standard output, through a buffer.
pub fn standard_output<R: Print + AllocGlobal>(
    rt: &R,
) -> Result<Watched<BufWriter<Printer<'_, R>>>, RunFault>
    // No write has failed.
    ensures opened { MatchResult result (λ writer. has_failed writer ≡ false) (λ fault. fault ≡ RunFault.Memory) }
    // Nothing was written: no octet waits in the buffer.
    ensures empty { IfOk result (λ writer. writer_buffer (inner_of writer) ≡ []) }
{
    let Ok(output) = BufWriter::with_capacity(rt.alloc(), BUFFER_SIZE, io::writer(rt)) else {
        return Err(RunFault::Memory);
    };
    Ok(Watched::new(output))
}
