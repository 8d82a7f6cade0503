//! Reviews each log of standard input and prints its report, so that a script of `tests/` can compare it with another
//! review of the log. The input is octet-counted frames, of which the first octet says what the others are:
//!
//! - `m`: the next message of the log.
//! - `t`: a payload that is trusted.
//! - `p`, `o`, `s`: a payload, octets and a signature; the signature is valid of the octets under the payload. A
//!   payload and octets stay for the next signature.
//! - `.`: the end of a log; the next frame begins another one.
//!
//! For each log a line `log`, and then the report and the questions of a `Reviewer`. Octets are hexadecimal, and an
//! absent field is `-`.
#![tactic(auto)]

mod answers;
mod case;
mod frames;
mod printing;

use case::Case;
use frames::split_frame;
use printing::{print_questions, print_report};
use ss_frame::MOST_MESSAGES;
use ss_review::{Questions, Report, ReviewFault, Reviewer};
use std::io;
use std::io::Read;

/// The report and the questions of a reviewer, or why it gives none.
type Reviewed = Result<(Report, Questions), ReviewFault>;

/// The report on a log, and its questions.
fn reviewed<R: AllocGlobal>(rt: &R, case: &Case<'_>) -> Reviewed {
    let mut reviewer = Reviewer::new(rt.alloc(), MOST_MESSAGES);
    for message in case.messages.as_slice() {
        reviewer.feed(message)?;
    }
    Ok((reviewer.finish(&case.answers)?, reviewer.questions()?))
}

/// Prints the report and the questions, or the code of the refusal.
fn print_reviewed<R: Print + AllocGlobal>(rt: &R, reviewed: &Reviewed) -> io::Result<()> {
    match reviewed {
        Ok((report, questions)) => {
            print_report(rt, report)?;
            print_questions(rt, questions)
        }
        Err(fault) => {
            println!(rt; "{}", fault.code())?;
            Ok(())
        }
    }
}

/// Reviews a log.
fn review<R: Print + AllocGlobal>(rt: &R, case: &Case<'_>) -> io::Result<()> {
    println!(rt; "log")?;
    print_reviewed(rt, &reviewed(rt, case))
}

/// Reviews each log of the input.
fn run<R: Print + AllocGlobal>(rt: &R, input: &[u8]) -> io::Result<()> {
    let mut case = Case::new(rt.alloc());
    let mut rest = input;
    for _ in 0..input.len() {
        let Some((frame, after)) = split_frame(rest) else {
            break;
        };
        rest = after;
        match frame.split_first() {
            Some((b'.', _)) => {
                review(rt, &case)?;
                case = Case::new(rt.alloc());
            }
            Some((kind, octets)) => case.add(*kind, octets)?,
            None => {}
        }
    }
    Ok(())
}

fn main(rt: HostRuntime) -> io::Result<()> {
    let mut input = Vec::new(rt.alloc());
    rt.reader().read_to_end(&mut input)?;
    run(&rt, &input)
}
