//! Reading a file of answers.
ghost use Rattle.std.specs.Prelude.{◌≡◌, false, Err, IfOk, IfErr, MatchResult};
ghost use Rattle.ss_frame.specs.Watched.{has_failed, inner_of};
ghost use Rattle.ss_answers.specs.AnswerInput.{AreOfFile, ArePayloadsOfFile, AreRead, IsAnswerFault, IsFileFault};
ghost use Rattle.ss_answers.specs.AnswerInput.{AreHeld, ArePayloadsHeld, IsHeldFault, failed_read};

use crate::fault::AnswerFault;
use crate::reading::read_lines;
use crate::table::Answers;
use ss_frame::Watched;
use ss_octets::Bytes;
use std::alloc::Global;
use std::io::Read;
use std::rt::Files;
use std::{fs, io};

/// The answers that a reader gives, in at most `max` octets. All is read before a bad line is answered, at most one
/// octet more than `max`, and the reader is one that hasn't failed yet. The text is never held whole.
///
/// # Errors
///
/// `Read` exactly where a read failed in the call, an interrupted one too; `TooBig` where there are more than
/// `max` octets; else `BadLine` with the number, from 1, of the first line that is no answer; `Memory`.
pub fn read_answers<R: Read>(
    alloc: Global,
    reader: &mut Watched<R>,
    max: u32,
) -> Result<Answers, AnswerFault>
    requires { has_failed reader.old ≡ false }
    ensures ok { IfOk result (λ answers.
        AreRead (R.remaining (inner_of reader.old)) (R.remaining (inner_of reader.new)) max answers) }
    ensures err { IfErr result (λ fault.
        IsAnswerFault (R.remaining (inner_of reader.old)) (R.remaining (inner_of reader.new)) max fault) }
    ensures failed { has_failed reader.new ≡ failed_read result }
{
    let lines = read_lines(alloc, reader, max)?;
    match Answers::of_lines(lines) {
        Ok(answers) => Ok(answers),
        Err(_) => Err(AnswerFault::Memory),
    }
}

/// The answers of a file, of at most 4,294,967,295 octets.
///
/// # Errors
///
/// `Read` where the file can't be opened, is a folder or can't be read; the others as `read_answers`.
pub fn open_answers<R: Files + AllocGlobal>(rt: &R, path: &str) -> Result<Answers, AnswerFault>
    ensures ok { IfOk result AreOfFile }
    ensures err { IfErr result IsFileFault }
{
    answers_from(rt.alloc(), fs::open(rt, path))
}

/// The payloads that the lines `trust PAYLOAD` of an answers file trust, each once, in the order of their octets.
///
/// # Errors
///
/// As `open_answers`.
pub fn open_payloads<R: Files + AllocGlobal>(rt: &R, path: &str) -> Result<Vec<Bytes>, AnswerFault>
    ensures ok { IfOk result (λ payloads. ArePayloadsOfFile payloads.items) }
    ensures err { IfErr result IsFileFault }
{
    payloads_from(rt.alloc(), fs::open(rt, path))
}

/// The answers of a file that was opened or couldn't be, as `open_answers` gives them.
pub fn answers_from<F: Read + Drop>(
    alloc: Global,
    opened: io::Result<F>,
) -> Result<Answers, AnswerFault>
    ensures unopened { IfErr opened (λ _. result ≡ Err AnswerFault.Read) }
    ensures opened { IfOk opened (λ file. MatchResult result
        (AreHeld (F.remaining file))
        (IsHeldFault (F.remaining file))) }
{
    let Ok(file) = opened else {
        return Err(AnswerFault::Read);
    };
    let mut reader = Watched::new(file);
    read_file(alloc, &mut reader)
}

/// The payloads that a file trusts which was opened or couldn't be, as `open_payloads` gives them.
pub fn payloads_from<F: Read + Drop>(
    alloc: Global,
    opened: io::Result<F>,
) -> Result<Vec<Bytes>, AnswerFault>
    ensures unopened { IfErr opened (λ _. result ≡ Err AnswerFault.Read) }
    ensures opened { IfOk opened (λ file. MatchResult result
        (λ payloads. ArePayloadsHeld (F.remaining file) payloads.items)
        (IsHeldFault (F.remaining file))) }
{
    let answers = answers_from(alloc, opened)?;
    match answers.payloads(alloc) {
        Ok(payloads) => Ok(payloads),
        Err(_) => Err(AnswerFault::Memory),
    }
}

/// The answers that a file gives.
fn read_file<R: Read>(alloc: Global, reader: &mut Watched<R>) -> Result<Answers, AnswerFault>
    requires { has_failed reader.old ≡ false }
    ensures ok { IfOk result (λ answers.
        AreRead (R.remaining (inner_of reader.old)) (R.remaining (inner_of reader.new)) 4294967295 answers) }
    ensures err { IfErr result (λ fault.
        IsAnswerFault (R.remaining (inner_of reader.old)) (R.remaining (inner_of reader.new)) 4294967295 fault) }
{
    read_answers(alloc, reader, u32::MAX)
}
