//! Reading the lines of a file of answers, of which only a part is held at a time.
ghost use Rattle.std.specs.Prelude.{◌≡◌, false, IfOk, IfErr};
ghost use Rattle.ss_frame.specs.Watched.{has_failed, inner_of};
ghost use Rattle.ss_answers.specs.AnswerInput.{AreLinesRead, IsAnswerFault, failed_read};
ghost use Rattle.ss_answers.specs.AnswerLine.{answers_of};

use crate::fault::AnswerFault;
use crate::input::{CHUNK, read_part, skip_rest, zeros};
use crate::lines::{Lines, LinesSoFar};
use ss_frame::Watched;
use std::alloc::Global;
use std::io::Read;

/// The lines that a reader gives, in at most `max` octets. It takes at most one octet more.
///
/// # Errors
///
/// `Read` where a read failed, an interrupted one too; `TooBig` where there are more than `max` octets; else `BadLine`
/// with the number, from 1, of the first line that isn't an answer, once all was read; `Memory`.
#[inline(never)]
pub fn read_lines<R: Read>(
    alloc: Global,
    reader: &mut Watched<R>,
    max: u32,
) -> Result<Lines, AnswerFault>
    requires { has_failed reader.old ≡ false }
    ensures ok { IfOk result (λ lines. AreLinesRead
        (R.remaining (inner_of reader.old)) (R.remaining (inner_of reader.new)) max (answers_of lines)) }
    ensures err { IfErr result (λ fault.
        IsAnswerFault (R.remaining (inner_of reader.old)) (R.remaining (inner_of reader.new)) max fault) }
    ensures failed { has_failed reader.new ≡ failed_read result }
{
    let Ok(mut chunk) = zeros(alloc, CHUNK) else {
        return Err(AnswerFault::Memory);
    };
    let mut lines = LinesSoFar::new(alloc);
    let mut left = max as usize;
    loop {
        let most = (left + 1).min(CHUNK);
        let part = &mut chunk[..most];
        let count = read_part(reader, part)?;
        if count == 0 {
            return lines.finish(alloc);
        }
        if count > left {
            return Err(AnswerFault::TooBig);
        }
        left -= count;
        match lines.take(alloc, &part[..count]) {
            Ok(()) => {}
            Err(AnswerFault::BadLine { line }) => {
                // Nothing is kept after a bad line.
                drop(lines);
                skip_rest(reader, &mut chunk, left)?;
                return Err(AnswerFault::BadLine { line });
            }
            Err(fault) => return Err(fault),
        }
    }
}
