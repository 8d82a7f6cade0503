//! A run over lines: each is answered before the next one is read.
ghost use Rattle.std.specs.Prelude.{◌≡◌, false};
ghost use Rattle.ss_frame.specs.Watched.{has_failed, source_of, sink_of};
ghost use Rattle.ss_signed.specs.Runs.{Answers, EndsDescribing, ReadsLine, TakesOctet};

use crate::fault::DescribeFault;
use crate::line::answer_to;
use ss_frame::{Watched, write_octets};
use std::alloc::Global;
use std::io::{Read, Write};

/// The most octets of a line.
const LONGEST_LINE: u32 = u32::MAX;

/// How the reading of a line ended.
#[derive(Clone, Copy)]
pub(crate) enum LineEnd {
    /// With its LF.
    Lf,
    /// With the end of the input.
    End,
    /// With more octets than a line may have.
    Long,
    /// With a read that failed.
    Failed,
    /// Out of memory.
    Memory,
}

/// What a read of one octet gave.
#[derive(Clone, Copy)]
pub(crate) enum Octet {
    /// The octet that was taken.
    Taken(u8),
    /// The input has ended.
    End,
    /// The read failed.
    Failed,
}

/// Answers lines, each ended by LF, up to the end of what the reader gives: a line `want OCTETS` of `ssign plan` or
/// `yes? PAYLOAD OCTETS SIGNATURE` of `ssign questions` by the object of what its octets say. Lines `trust? PAYLOAD` are
/// passed over. The writer is flushed after each answer, before more is read.
///
/// # Errors
///
/// `Line` at the first line of another form, or without an LF; `Read`, `Write`, `Memory`. But for a failed write, all
/// lines before were answered.
pub fn run_describe<R: Read, W: Write>(
    alloc: Global,
    reader: &mut Watched<R>,
    writer: &mut Watched<W>,
) -> Result<(), DescribeFault>
    requires reader { has_failed reader.old ≡ false }
    requires writer { has_failed writer.old ≡ false }
    ensures { EndsDescribing (source_of R.remaining reader.old) (source_of R.remaining reader.new)
        (sink_of W.contents writer.old) (sink_of W.contents writer.new) result }
{
    let mut line = Vec::new(alloc);
    for number in 1..u64::MAX {
        match next_line(reader, &mut line) {
            LineEnd::Lf => write_answer(alloc, writer, line.as_slice(), number)?,
            LineEnd::End => {
                if line.is_empty() {
                    return Ok(());
                }
                return Err(DescribeFault::Line { number });
            }
            LineEnd::Long => return Err(DescribeFault::Line { number }),
            LineEnd::Failed => return Err(DescribeFault::Read),
            LineEnd::Memory => return Err(DescribeFault::Memory),
        }
    }
    Err(DescribeFault::Memory)
}

/// Reads the next line into `line`, octet by octet, up to its LF, which isn't kept.
fn next_line<R: Read>(reader: &mut Watched<R>, line: &mut Vec<u8>) -> LineEnd
    requires { has_failed reader.old ≡ false }
    ensures { ReadsLine (source_of R.remaining reader.old) (source_of R.remaining reader.new) line.new.items result }
{
    line.clear();
    for _ in 0..LONGEST_LINE {
        match read_octet(reader) {
            Octet::Taken(b'\n') => return LineEnd::Lf,
            Octet::Taken(octet) => {
                if line.push(octet).is_err() {
                    return LineEnd::Memory;
                }
            }
            Octet::End => return LineEnd::End,
            Octet::Failed => return LineEnd::Failed,
        }
    }
    LineEnd::Long
}

/// Takes one octet, by one read.
fn read_octet<R: Read>(reader: &mut Watched<R>) -> Octet
    ensures { TakesOctet (source_of R.remaining reader.old) (source_of R.remaining reader.new) result }
{
    let mut octet = [0u8; 1];
    match reader.read(&mut octet) {
        Ok(0) => Octet::End,
        Ok(_) => Octet::Taken(octet[0]),
        Err(_) => Octet::Failed,
    }
}

/// Writes the answer to the line of this number, and flushes the writer.
fn write_answer<W: Write>(
    alloc: Global,
    writer: &mut Watched<W>,
    line: &[u8],
    number: u64,
) -> Result<(), DescribeFault>
    requires { has_failed writer.old ≡ false }
    ensures { Answers line.now number (sink_of W.contents writer.old) (sink_of W.contents writer.new) result }
{
    let Ok(answer) = answer_to(alloc, line) else {
        return Err(DescribeFault::Memory);
    };
    let Some(text) = answer else {
        return Err(DescribeFault::Line { number });
    };
    if !write_octets(writer, text.as_slice()) || writer.flush().is_err() {
        return Err(DescribeFault::Write);
    }
    Ok(())
}
