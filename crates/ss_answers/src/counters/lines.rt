//! The lines of a file of counters, and the parts that they make.
ghost use Rattle.std.specs.Prelude.{◌≡◌, ◌<◌, ◌^◌, true, false, length, decimal, IfOk, IfErr};
ghost use Rattle.ss_answers.specs.CounterFile.{HasCounters};
ghost use Rattle.ss_answers.specs.CounterInput.{IsCountersTextFault};

use crate::counters::fault::CounterFault;
use crate::counters::line::read_counter;
use crate::cut::cut_ended_line;
use crate::field::LineFault;
use ss_octets::number_of;
use ss_review::Counter;
use std::alloc::Global;

/// The counters of a text of parts, a line each. Each part ends with a line that says how many it has.
///
/// # Errors
///
/// The first that the text shows: `BadLine` with the number, from 1, of a line that isn't a counter and doesn't end a
/// part; `NotWhole` where a part has another number of counters than its end says, and where the text ends elsewhere than
/// after a part; `Memory`.
pub fn read_counter_lines(alloc: Global, text: &[u8]) -> Result<Vec<Counter>, CounterFault>
    requires { length text.now < 2 ^ 32 }
    ensures ok { IfOk result (λ counters. HasCounters text.now counters.items) }
    ensures err { IfErr result (λ fault. IsCountersTextFault text.now fault) }
{
    let mut counters = Vec::new(alloc);
    let mut ended = 0;
    let mut parts = 0;
    let mut rest = text;
    while !rest.is_empty() {
        let Some((line, after)) = cut_ended_line(rest) else {
            return Err(CounterFault::NotWhole);
        };
        if let Some(said) = line.strip_prefix(b"end ") {
            if !spells((counters.len() - ended) as u64, said) {
                return Err(CounterFault::NotWhole);
            }
            ended = counters.len();
            parts += 1;
        } else {
            match read_counter(alloc, line) {
                Ok(counter) => {
                    if counters.push(counter).is_err() {
                        return Err(CounterFault::Memory);
                    }
                }
                Err(LineFault::Bad) => {
                    return Err(CounterFault::BadLine {
                        line: counters.len() as u32 + parts + 1,
                    });
                }
                Err(LineFault::Memory) => return Err(CounterFault::Memory),
            }
        }
        rest = after;
    }
    if parts == 0 || ended < counters.len() {
        return Err(CounterFault::NotWhole);
    }
    Ok(counters)
}

/// Whether a text is this number in decimal.
fn spells(number: u64, text: &[u8]) -> bool
    ensures yes { result ≡ true → text.now ≡ decimal number }
    ensures no { result ≡ false → text.now ≡ decimal number → ⊥ }
{
    match number_of(number, number, text) {
        Some(_) => true,
        None => false,
    }
}
