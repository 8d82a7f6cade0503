//! What a run comes to: its exit status, and what is printed beside its output.
ghost use Rattle.std.specs.Prelude.{◌≡◌, IfOk};
ghost use Rattle.clap.specs.Words.{kind_of};
ghost use Rattle.ssign.specs.Outcome.{EndsWith, IsMemoryNotice, IsMistake, IsOutOfMemory, IsRefusalNotice};
ghost use Rattle.ssign.specs.Outcome.{IsUnexplained, IsUsage};
ghost use Rattle.ssign.specs.Outcome.{outcome_of_fault, silent, status_of_kind};
ghost use Rattle.ssign.specs.Refusal.{refusal_code};

use crate::command_line::{
    code_missing, extract_conflict, given_code, place_conflict, plain_facts, salvage_conflict,
    unanswered_ask, unlisted_conflict,
};
use crate::extraction::ExtractionFault;
use crate::refusal::Refusal;
use crate::refusing::{Remark, remark_on};
use clap::error::ErrorKind;
use clap::{ArgMatches, Error};
use ss_frame::Form;
use ss_octets::Code;
use ss_report::{RunFault, Verdict};
use std::alloc::{AllocError, Global};

/// No finding, or a log that was planned or signed.
const CLEAN: u8 = 0;
/// Findings.
const FINDINGS: u8 = 1;
/// A refusal or a usage fault.
pub const REFUSED: u8 = 2;

/// What is printed beside the output.
#[derive(Drop)]
pub enum Notice<'a> {
    /// Nothing.
    Nothing,
    /// The code of a refusal. Where a person looks, the code is explained, and the remark follows.
    Refused(Code, Remark<'a>),
    /// That no entry has this code, and which codes have one.
    Unexplained(&'a str),
    /// That a word of the command line can't be read.
    Words,
    /// What `clap` says about the words: a mistake in them, or the help or version that they ask for.
    Parsed(Error),
}

/// What a run comes to.
#[derive(Drop)]
pub struct Outcome<'a> {
    /// The exit status.
    pub status: u8,
    /// What is printed beside the output.
    pub notice: Notice<'a>,
}

/// A refusal being out of memory.
pub fn out_of_memory<'a>() -> Outcome<'a>
    ensures { IsOutOfMemory result }
{
    Outcome {
        status: REFUSED,
        notice: memory_notice(),
    }
}

/// W2, and nothing more.
fn memory_notice<'a>() -> Notice<'a>
    ensures { IsMemoryNotice result }
{
    Notice::Refused(RunFault::Memory.code(), Remark::Nothing)
}

/// A refusal of which nothing is printed, which a parse by the program's commands doesn't let through.
pub fn silent<'a>() -> Outcome<'a>
    ensures { result ≡ silent }
{
    Outcome {
        status: REFUSED,
        notice: Notice::Nothing,
    }
}

/// A refusal of words that aren't UTF-8.
pub fn unreadable_words<'a>() -> Outcome<'a>
    ensures { result ≡ record { status = 2; notice = Notice.Words } }
{
    Outcome {
        status: REFUSED,
        notice: Notice::Words,
    }
}

/// What comes of words of which `clap` says this.
pub fn outcome_of_fault<'a>(fault: Error) -> Outcome<'a>
    ensures { result ≡ outcome_of_fault fault }
{
    Outcome {
        status: status_of_kind(fault.kind()),
        notice: Notice::Parsed(fault),
    }
}

/// The status of a fault of this kind: help and the version were asked for.
fn status_of_kind(kind: ErrorKind) -> u8
    ensures { result ≡ status_of_kind kind }
{
    match kind {
        ErrorKind::DisplayHelp | ErrorKind::DisplayVersion => CLEAN,
        _ => REFUSED,
    }
}

/// What a command comes to that ended so, over a log of this form that begins with these octets.
pub fn outcome_of<'a>(
    alloc: Global,
    ended: Result<Verdict, Refusal>,
    options: &ArgMatches<'a>,
    form: Form,
    octets: &[u8],
) -> Outcome<'a>
    ensures { EndsWith options.now form octets.now ended result }
{
    match ended {
        Ok(Verdict::Clean) => Outcome {
            status: CLEAN,
            notice: Notice::Nothing,
        },
        Ok(Verdict::Findings) => Outcome {
            status: FINDINGS,
            notice: Notice::Nothing,
        },
        Err(refusal) => Outcome {
            status: REFUSED,
            notice: notice_of(alloc, refusal, options, form, octets),
        },
    }
}

/// What is printed of a refusal: its code and the remark on it, or the mistake of the command line.
fn notice_of<'a>(
    alloc: Global,
    refusal: Refusal,
    options: &ArgMatches<'a>,
    form: Form,
    octets: &[u8],
) -> Notice<'a>
    ensures { IsRefusalNotice options.now form octets.now refusal (refusal_code refusal) result }
{
    match refusal.code() {
        Some(code) => Notice::Refused(code, remark_on(refusal, options, form, octets)),
        None => mistake_of(alloc, refusal, options),
    }
}

/// What is printed of a refusal without a code.
fn mistake_of<'a>(alloc: Global, refusal: Refusal, options: &ArgMatches<'a>) -> Notice<'a>
    ensures { IsMistake options.now refusal result }
{
    match refusal {
        Refusal::SalvagedLines(task) => return conflict_of(salvage_conflict(alloc, task)),
        Refusal::Extraction(fault) => return extraction_mistake(alloc, fault),
        Refusal::UnansweredAsk => return missing_of(unanswered_ask(alloc)),
        Refusal::PlainFacts => return missing_of(plain_facts(alloc)),
        Refusal::NoCode => return missing_of(code_missing(alloc)),
        Refusal::NoEntry => return unexplained(options),
        _ => {}
    }
    Notice::Nothing
}

/// What is printed where options don't name what is to be extracted.
fn extraction_mistake<'a>(alloc: Global, fault: ExtractionFault) -> Notice<'a>
    ensures { (m : ArgMatches) → IsMistake m (Refusal.Extraction fault) result }
{
    match fault {
        ExtractionFault::Both => conflict_of(extract_conflict(alloc)),
        ExtractionFault::FileAndUnlisted => conflict_of(unlisted_conflict(alloc)),
        ExtractionFault::FileAndPlace => conflict_of(place_conflict(alloc)),
        ExtractionFault::NoNumber | ExtractionFault::Memory => Notice::Nothing,
    }
}

/// That no entry has the code that is asked about.
fn unexplained<'a>(options: &ArgMatches<'a>) -> Notice<'a>
    ensures { IsUnexplained options.now result }
{
    Notice::Unexplained(given_code(options).unwrap_or(""))
}

/// That two options exclude each other, like other mistakes of the command line, or that there is no memory for it.
fn conflict_of<'a>(conflict: Result<Error, AllocError>) -> Notice<'a>
    ensures { IfOk conflict (λ fault. kind_of fault ≡ ErrorKind.ArgumentConflict)
        → IsUsage ErrorKind.ArgumentConflict result }
{
    match conflict {
        Ok(fault) => Notice::Parsed(fault),
        Err(_) => memory_notice(),
    }
}

/// That an option or a code is missing, or that there is no memory for it.
fn missing_of<'a>(missing: Result<Error, AllocError>) -> Notice<'a>
    ensures { IfOk missing (λ fault. kind_of fault ≡ ErrorKind.MissingRequiredArgument)
        → IsUsage ErrorKind.MissingRequiredArgument result }
{
    match missing {
        Ok(fault) => Notice::Parsed(fault),
        Err(_) => memory_notice(),
    }
}
