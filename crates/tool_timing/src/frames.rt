//! Counts the messages of standard input, and the octets that they hold. It times the reader of frames and lines.
use ss_frame::{Buffered, FrameReader, Limits, Step, Watched};
use std::alloc::Global;
use std::io;
use std::io::Read;

/// What was read.
#[derive(Clone, Copy)]
struct Counts {
    messages: u64,
    octets: u64,
    whole: bool,
}

fn count<R: Read>(alloc: Global, reader: &mut Watched<R>, limits: Limits) -> Counts {
    let mut frames = FrameReader::new(alloc, limits);
    let mut counts = Counts {
        messages: 0,
        octets: 0,
        whole: false,
    };
    for _ in 0..u64::MAX {
        if reader.failed() {
            return counts;
        }
        match frames.next_frame(reader) {
            Ok(Step::Message(message)) => {
                counts.messages = counts.messages.wrapping_add(1);
                counts.octets = counts.octets.wrapping_add(message.as_slice().len() as u64);
            }
            Ok(Step::Done) => {
                counts.whole = true;
                return counts;
            }
            Ok(Step::Torn { .. }) | Err(_) => return counts,
        }
    }
    counts
}

/// Reads standard input under these limits, and prints what was read.
pub(crate) fn run<R: Input + Print + AllocGlobal>(rt: &R, limits: Limits) -> io::Result<()> {
    let mut reader = Watched::new(Buffered::new(rt.alloc(), rt.reader())?);
    let counts = count(rt.alloc(), &mut reader, limits);
    println!(rt;
        "{} messages, {} octets, {}",
        counts.messages,
        counts.octets,
        if counts.whole { "whole" } else { "broken off" }
    )?;
    Ok(())
}
