//! Counts the lines that are messages, and those that are refused. It times the reader of messages.
use ss_message::parse;
use std::alloc::Global;
use std::io;
use std::io::Read;

/// How many lines are messages, and how many aren't.
#[derive(Clone, Copy)]
struct Counts {
    read: u64,
    refused: u64,
}

impl Counts {
    fn add(&mut self, alloc: Global, line: &[u8], scan: bool) {
        if scan || parse(alloc, line).is_ok() {
            self.read = self.read.wrapping_add(1);
        } else {
            self.refused = self.refused.wrapping_add(1);
        }
    }
}

fn count(alloc: Global, log: &[u8], scan: bool) -> Counts {
    let mut counts = Counts {
        read: 0,
        refused: 0,
    };
    for line in log.split(|octet| *octet == b'\n') {
        counts.add(alloc, line, scan);
    }
    counts
}

/// Prints how many lines of the log are messages; with `scan` how many lines there are.
pub(crate) fn print<R: Print + AllocGlobal>(rt: &R, log: &[u8], scan: bool) -> io::Result<()> {
    let counts = count(rt.alloc(), log, scan);
    println!(rt; "{} read, {} refused", counts.read, counts.refused)?;
    Ok(())
}

/// As `print`, of standard input.
pub(crate) fn run<R: Input + Print + AllocGlobal>(rt: &R, scan: bool) -> io::Result<()> {
    let mut log = Vec::new(rt.alloc());
    rt.reader().read_to_end(&mut log)?;
    print(rt, &log, scan)
}
