//! What is asked of a stored log, by the options and by the files that they name.
ghost use Rattle.std.specs.Prelude.{◌≡◌, MatchResult};
ghost use Rattle.ss_report.specs.runs.Run.{given};
ghost use Rattle.ssign.specs.LogOrder.{HaveFailed, HaveNamed, IsAsked, IsUnasked};

use crate::command_line::{
    are_plain_facts, counters_file, facts_file, from_file, limits_of, pinned_file, places_file,
    reading_of, reporting_of,
};
use crate::extraction::{at_places, extraction_of};
use crate::given_files::{GivenFiles, counters_in, payloads_in, places_in};
use crate::refusal::Refusal;
use crate::task::{Reporting, Task};
use clap::ArgMatches;
use ss_octets::{Bytes, List as OwnedList};
use ss_report::{Extraction, ReadOptions};
use ss_review::{Counters, Places};
use std::alloc::Global;

/// What is asked of a log beside the task, but for the answers.
#[derive(Drop)]
pub struct Asked {
    /// In which form the log is stored, how long it and its messages may be, and whether reading goes on after damage.
    pub reading: ReadOptions,
    /// Which messages an extract writes, and in which form.
    pub extraction: Extraction,
    /// How what is asked is reported.
    pub reporting: Reporting,
    /// At which counters a review of one night is to begin, if it is one.
    pub first: Option<Counters>,
    /// Up to which counters a review is to be whole, if they are given.
    pub counters: Option<Counters>,
    /// The payloads that are known beforehand, if they are given.
    pub known: Option<OwnedList<Bytes>>,
    /// The places whose messages an inspection shows, if they are given.
    pub facts: Option<Places>,
}

/// What the options ask of a log, and the files of `--from`, `--counters`, `--pinned`, `--facts` and `--places`, which are
/// read in this order.
///
/// # Errors
///
/// The first of: the options' own mistakes, and the faults of these files.
pub fn prepare<F: GivenFiles>(
    alloc: Global,
    files: &F,
    task: Task,
    options: &ArgMatches<'_>,
) -> Result<Asked, Refusal>
    ensures { MatchResult result
        (IsAsked (F.contents files.now) options.now)
        (IsUnasked (F.contents files.now) options.now task) }
{
    let (reading, named) = match named_by(alloc, task, options) {
        Ok(named) => named,
        Err(refusal) => return Err(refusal),
    };
    let first = match counters_in(files, from_file(options)) {
        Ok(first) => first,
        Err(fault) => return Err(Refusal::From(fault)),
    };
    let counters = match counters_in(files, counters_file(options)) {
        Ok(counters) => counters,
        Err(fault) => return Err(Refusal::Counters(fault)),
    };
    let known = match payloads_in(files, pinned_file(options)) {
        Ok(known) => known,
        Err(fault) => return Err(Refusal::Pinned(fault)),
    };
    let facts = match places_in(files, facts_file(options)) {
        Ok(facts) => facts,
        Err(fault) => return Err(Refusal::Facts(fault)),
    };
    let places = match places_in(files, places_file(options)) {
        Ok(places) => places,
        Err(fault) => return Err(Refusal::Places(fault)),
    };
    Ok(Asked {
        reading,
        extraction: at_places(named, places),
        reporting: reporting_of(options),
        first,
        counters,
        known,
        facts,
    })
}

/// How a log is read, and what is extracted but for the places of a file, by the options alone.
///
/// # Errors
///
/// The first of the options' own mistakes: `NoOption`, `SalvagedLines`, `Extraction` and `PlainFacts`, in this order.
fn named_by(
    alloc: Global,
    task: Task,
    options: &ArgMatches<'_>,
) -> Result<(ReadOptions, Extraction), Refusal>
    ensures { MatchResult result
        (λ named. HaveNamed options.now named.0 named.1)
        (HaveFailed options.now task) }
{
    let limits = match limits_of(options) {
        Some(limits) => limits,
        None => return Err(Refusal::NoOption),
    };
    let reading = match reading_of(limits, options) {
        Some(reading) => reading,
        None => return Err(Refusal::SalvagedLines(task)),
    };
    let extraction = match extraction_of(alloc, options) {
        Ok(extraction) => extraction,
        Err(fault) => return Err(Refusal::Extraction(fault)),
    };
    if are_plain_facts(options) {
        return Err(Refusal::PlainFacts);
    }
    Ok((reading, extraction))
}

/// The items of a list, where one was given.
pub fn items_of<T>(list: &Option<OwnedList<T>>) -> Option<&[T]>
    ensures { given result ≡ list.now }
{
    match list {
        Some(list) => Some(list.as_slice()),
        None => None,
    }
}
