//! Reading a file of counters.
ghost use Rattle.std.specs.Prelude.{◌≡◌, false, Err, IfOk, IfErr, MatchBool, MatchResult};
ghost use Rattle.ss_frame.specs.Watched.{has_failed, inner_of};
ghost use Rattle.ss_answers.specs.CounterInput.{AreCounters, AreCountersOfFile, IsCounterFault};
ghost use Rattle.ss_answers.specs.CounterInput.{AreHeldCounters, IsCountersFileFault, IsHeldCounterFault};
ghost use Rattle.ss_answers.specs.CounterInput.{is_too_long, read_failed};

use crate::counters::fault::CounterFault;
use crate::counters::lines::read_counter_lines;
use crate::input::{known_length, read_all};
use ss_frame::Watched;
use ss_octets::List;
use ss_review::Counters;
use std::alloc::Global;
use std::io::Read;
use std::rt::Files;
use std::{fs, io};

/// The most octets that a file may have.
const MOST_OCTETS: u32 = u32::MAX;

/// The counters that a reader gives, in at most `max` octets, in their order. All is read before a line is looked at,
/// at most one octet more than `max`, and the reader is one that hasn't failed yet.
///
/// # Errors
///
/// `Read` exactly where a read failed in the call, an interrupted one too; `TooBig` where there are more than
/// `max` octets; else the first that the text shows: `BadLine` with the number, from 1, of a line that neither is a
/// counter nor ends a part, or `NotWhole`; `Memory`.
pub fn read_counters<R: Read>(
    alloc: Global,
    reader: &mut Watched<R>,
    max: u32,
) -> Result<Counters, CounterFault>
    requires { has_failed reader.old ≡ false }
    ensures ok { IfOk result (λ counters. AreCounters (R.remaining (inner_of reader.old))
        (R.remaining (inner_of reader.new)) max counters) }
    ensures err { IfErr result (λ fault. IsCounterFault (R.remaining (inner_of reader.old))
        (R.remaining (inner_of reader.new)) max fault) }
    ensures failed { has_failed reader.new ≡ read_failed result }
{
    let text = read_all(alloc, reader, max)?;
    let counters = read_counter_lines(alloc, &text)?;
    Ok(List::from_vec(counters))
}

/// The counters of a file, of at most 4,294,967,295 octets, in their order.
///
/// # Errors
///
/// `Read` where the file can't be opened, is a folder or can't be read; the others as `read_counters`. `TooBig` comes
/// before anything is read where the size of the file is known.
pub fn open_counters<R: Files + AllocGlobal>(rt: &R, path: &str) -> Result<Counters, CounterFault>
    ensures ok { IfOk result AreCountersOfFile }
    ensures err { IfErr result IsCountersFileFault }
{
    let opened = fs::open(rt, path);
    let length = known_length(&opened);
    counters_from(rt.alloc(), opened, length)
}

/// The counters of a file that was opened or couldn't be, as `open_counters` gives them. `length` is how many octets it
/// has, where that is known: a file that is too long isn't read.
pub fn counters_from<F: Read + Drop>(
    alloc: Global,
    opened: io::Result<F>,
    length: Option<u64>,
) -> Result<Counters, CounterFault>
    ensures unopened { IfErr opened (λ _. result ≡ Err CounterFault.Read) }
    ensures opened { IfOk opened (λ file. MatchBool (is_too_long length)
        (result ≡ Err CounterFault.TooBig)
        (MatchResult result (AreHeldCounters (F.remaining file)) (IsHeldCounterFault (F.remaining file)))) }
{
    let Ok(file) = opened else {
        return Err(CounterFault::Read);
    };
    if let Some(length) = length
        && length > MOST_OCTETS as u64
    {
        return Err(CounterFault::TooBig);
    }
    let mut reader = Watched::new(file);
    read_file(alloc, &mut reader)
}

/// The counters that a file gives.
fn read_file<R: Read>(alloc: Global, reader: &mut Watched<R>) -> Result<Counters, CounterFault>
    requires { has_failed reader.old ≡ false }
    ensures ok { IfOk result (λ counters. AreCounters (R.remaining (inner_of reader.old))
        (R.remaining (inner_of reader.new)) 4294967295 counters) }
    ensures err { IfErr result (λ fault. IsCounterFault (R.remaining (inner_of reader.old))
        (R.remaining (inner_of reader.new)) 4294967295 fault) }
{
    read_counters(alloc, reader, MOST_OCTETS)
}
