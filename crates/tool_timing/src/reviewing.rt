//! Reviews the log of standard input under a scheme that says yes to everything, and counts what the report lists. It
//! times the reviewer.
ghost use Rattle.std.specs.Prelude.{true};

use ss_frame::{Buffered, FrameReader, Limits, MOST_MESSAGES, Step, Watched};
use ss_review::{Entry, Judge, Report, ReviewFault, Reviewer, SessionReport};
use std::io;
use std::io::Read;

/// Says yes to everything.
struct Yes;

impl Judge for Yes {
    ghost sound = { λ _. Unit {0} };

    ghost askable = { λ _ _. Unit {0} };

    ghost trusted = { λ _ _. true };

    ghost valid = { λ _ _ _ _. true };

    fn trusts(&self, _payload: &[u8]) -> bool {
        true
    }

    fn accepts(&self, _payload: &[u8], _octets: &[u8], _signature: &[u8]) -> bool {
        true
    }
}

/// Feeds the messages of the log, up to its end or its first fault.
fn feed_all<R: Read>(
    reviewer: &mut Reviewer,
    frames: &mut FrameReader,
    reader: &mut Watched<R>,
) -> Result<(), ReviewFault> {
    for _ in 0..u64::MAX {
        if reader.failed() {
            return Ok(());
        }
        match frames.next_frame(reader) {
            Ok(Step::Message(message)) => reviewer.feed(message.as_slice())?,
            Ok(Step::Done) | Ok(Step::Torn { .. }) | Err(_) => return Ok(()),
        }
    }
    Ok(())
}

/// How many numbers of a session are listed, and how many aren't.
fn count(session: &SessionReport) -> (u64, u64) {
    let mut listed: u64 = 0;
    let mut others: u64 = 0;
    for group in session.groups.as_slice() {
        for entry in group.entries.as_slice() {
            match entry {
                Entry::Listed { .. } => listed = listed.wrapping_add(1),
                Entry::Gap { .. } | Entry::Hole { .. } => others = others.wrapping_add(1),
            }
        }
    }
    (listed, others)
}

/// Prints what there is of each kind.
fn print_counts<R: Print + AllocGlobal>(rt: &R, report: &Report) -> io::Result<()> {
    let mut listed: u64 = 0;
    let mut others: u64 = 0;
    for session in report.sessions.as_slice() {
        let (more, more_others) = count(session);
        listed = listed.wrapping_add(more);
        others = others.wrapping_add(more_others);
    }
    println!(rt;
        "{} messages, {} sessions, {} listed, {} gaps and holes, {} unlisted, {} refused, {} spoilt",
        report.count,
        report.sessions.as_slice().len(),
        listed,
        others,
        report.unlisted.as_slice().len(),
        report.refused.as_slice().len(),
        report.spoilt.as_slice().len()
    )?;
    Ok(())
}

/// Prints a report, or why there is none.
fn print<R: Print + AllocGlobal>(rt: &R, said: &Result<Report, ReviewFault>) -> io::Result<()> {
    match said {
        Ok(report) => print_counts(rt, report),
        Err(fault) => {
            println!(rt; "{}", fault.code())?;
            Ok(())
        }
    }
}

/// Reviews standard input, or feeds it alone, and prints what the report has.
pub(crate) fn run<R: Input + Print + AllocGlobal>(
    rt: &R,
    limits: Limits,
    finish: bool,
) -> io::Result<()> {
    let mut reader = Watched::new(Buffered::new(rt.alloc(), rt.reader())?);
    let mut frames = FrameReader::new(rt.alloc(), limits);
    let mut reviewer = Reviewer::new(rt.alloc(), MOST_MESSAGES);
    match feed_all(&mut reviewer, &mut frames, &mut reader) {
        Ok(()) => {}
        Err(fault) => return print(rt, &Err(fault)),
    }
    if finish {
        let said = reviewer.finish(&Yes);
        return print(rt, &said);
    }
    println!(rt; "{} octets kept", reviewer.kept())?;
    Ok(())
}
