//! The next line of a reader.
ghost use Rattle.std.specs.Prelude.{◌≡◌, false};
ghost use Rattle.ss_frame.specs.Watched.{has_failed, source_of};
ghost use Rattle.ss_lines.specs.Reading.{ReadsLine, TakesOctet};

use ss_frame::Watched;
use std::io::Read;

/// The most octets of a line.
const LONGEST_LINE: u32 = u32::MAX;

/// How the reading of a line ended.
#[derive(Clone, Copy)]
pub enum LineEnd {
    /// With its LF.
    Lf,
    /// With the end of the input.
    End,
    /// With more octets than a line may have.
    Long,
    /// With a read that failed.
    Failed,
    /// Out of memory.
    Memory,
}

/// What a read of one octet gave.
#[derive(Clone, Copy)]
pub(crate) enum Octet {
    /// The octet that was taken.
    Taken(u8),
    /// The input has ended.
    End,
    /// The read failed.
    Failed,
}

/// Reads the next line into `line`, octet by octet, up to its LF, which isn't kept. A line has 4,294,967,294 octets at
/// most.
pub fn next_line<R: Read>(reader: &mut Watched<R>, line: &mut Vec<u8>) -> LineEnd
    requires { has_failed reader.old ≡ false }
    ensures { ReadsLine (source_of R.remaining reader.old) (source_of R.remaining reader.new) line.new.items result }
{
    line.clear();
    for _ in 0..LONGEST_LINE {
        match read_octet(reader) {
            Octet::Taken(b'\n') => return LineEnd::Lf,
            Octet::Taken(octet) => {
                if line.push(octet).is_err() {
                    return LineEnd::Memory;
                }
            }
            Octet::End => return LineEnd::End,
            Octet::Failed => return LineEnd::Failed,
        }
    }
    LineEnd::Long
}

/// Takes one octet, by one read.
fn read_octet<R: Read>(reader: &mut Watched<R>) -> Octet
    ensures { TakesOctet (source_of R.remaining reader.old) (source_of R.remaining reader.new) result }
{
    let mut octet = [0u8; 1];
    match reader.read(&mut octet) {
        Ok(0) => Octet::End,
        Ok(_) => Octet::Taken(octet[0]),
        Err(_) => Octet::Failed,
    }
}
