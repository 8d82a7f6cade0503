//! Fields of lines: their octets stand after those of the lines before.
ghost use Rattle.std.specs.Prelude.{◌≡◌, ◌+◌, ◌<◌, ◌^◌, length, IfOk, IfErr};
ghost use Rattle.ss_answers.specs.Answers.{IsNoField};
ghost use Rattle.ss_answers.specs.AnswerLine.{IfBad, KeepsField};

use base64::DecodeAllocError;
use base64::engine::general_purpose::STANDARD;

/// Where a field stands among the octets of all lines.
#[derive(Clone, Copy, Debug)]
pub struct Span {
    /// Where its first octet stands.
    pub start: u32,
    /// The place after its last octet.
    pub end: u32,
}

impl Span {
    ghost use Rattle.ss_answers.specs.AnswerLine.{no_span};

    /// That of a field that a line lacks.
    pub fn none() -> Span
        ensures { result ≡ no_span }
    {
        Span { start: 0, end: 0 }
    }
}

/// Why a line wasn't read.
#[derive(Clone, Copy, Debug)]
pub enum LineFault {
    /// It is not spelt as an answer.
    Bad,
    /// Memory ran out.
    Memory,
}

/// Decodes a field, the base64 of at least one octet, after the octets of those before it.
pub fn keep(octets: &mut Vec<u8>, text: &[u8]) -> Result<Span, LineFault>
    requires { length octets.old.items + length text.now < 2 ^ 32 }
    ensures ok { IfOk result (λ span. KeepsField octets.old.items octets.new.items text.now span) }
    ensures bad { IfErr result (λ fault. IfBad fault (IsNoField text.now)) }
{
    let start = octets.len() as u32;
    match STANDARD.decode_vec(text, octets) {
        Ok(()) => {
            let end = octets.len() as u32;
            if start == end {
                Err(LineFault::Bad)
            } else {
                Ok(Span { start, end })
            }
        }
        Err(DecodeAllocError::OutOfMemory) => Err(LineFault::Memory),
        Err(DecodeAllocError::DecodeError(_)) => Err(LineFault::Bad),
    }
}
