//! What the options of an extract ask for.
ghost use Rattle.std.specs.Prelude.{◌≡◌, ◌<◌, ◌^◌, ◌↔◌, ℕ, List, Contains, map, option_map, None};
ghost use Rattle.std.specs.Prelude.{codes, false, IfOk, IfErr, IsErrOf};
ghost use Rattle.std.specs.List.{AllByRecursion};
ghost use Rattle.std.specs.List.Sorted.{IsStrictlyIncreasing};
ghost use Rattle.std.specs.Option.{is_some};
ghost use Rattle.clap.specs.Words.{first_value, found_of};
ghost use Rattle.ssign.specs.CommandLine.{form_of, is_given};
ghost use Rattle.ssign.specs.Extraction.{AreInOrder, GivesExtraction, IsAt, Selects, SpellNumbers};
ghost use Rattle.ssign.specs.Extraction.{is_of_options, texts_given};
ghost use Rattle.ssign.specs.declared.extraction.ExtractionFault.TheVariants.{Memory, NoNumber};

use crate::command_line::places_file;
use crate::flags::is_given;
use crate::options;
use clap::ArgMatches;
use ss_frame::Form;
use ss_report::{Extraction, Selection};
use ss_review::Places;
use std::alloc::{AllocError, AllocFailed, Global};

/// Why the options don't name what is to be extracted.
#[derive(Clone, Copy, Debug, PartialEq, Eq)]
pub enum ExtractionFault {
    /// Places are given, and the unlisted messages are asked for too.
    Both,
    /// A file of places is named, and the unlisted messages are asked for too.
    FileAndUnlisted,
    /// A file of places is named, and places are given too.
    FileAndPlace,
    /// A place isn't a number below 2^32, which a parse by `command` doesn't let through.
    NoNumber,
    /// Out of memory.
    Memory,
}

impl<T: Drop> From<AllocFailed<T>> for ExtractionFault {
    ghost from_gives = { λ _ e. e ≡ Memory };

    fn from(_e: AllocFailed<T>) -> ExtractionFault {
        ExtractionFault::Memory
    }
}

/// What is to be extracted by the options, but for the places of a file. A command without them has the listed messages
/// as frames, as they stand.
pub fn extraction_of(alloc: Global, matches: &ArgMatches<'_>) -> Result<Extraction, ExtractionFault>
    ensures { GivesExtraction (is_given matches.now (codes "unlisted")) (texts_given matches.now (codes "place"))
        (is_some (first_value (found_of matches.now) (codes "places")))
        (is_given matches.now (codes "lines-out")) (is_given matches.now (codes "unwrap")) result }
{
    let selection = selection_of(
        alloc,
        matches.get_strs(options::PLACE.name),
        is_given(matches, options::UNLISTED.name),
        places_file(matches).is_some(),
    )?;
    let form = form_out(matches);
    let unwrap = is_given(matches, options::UNWRAP.name);
    Ok(Extraction {
        selection,
        form,
        unwrap,
    })
}

/// The form in which messages are to be written.
pub fn form_out(matches: &ArgMatches<'_>) -> Form
    ensures { result ≡ form_of (is_given matches.now (codes "lines-out")) }
{
    if is_given(matches, options::LINES_OUT.name) {
        Form::Lines
    } else {
        Form::Frames
    }
}

/// Which messages are asked for, by the texts of places, by whether the unlisted ones are, and by whether a file of places
/// is named.
fn selection_of(
    alloc: Global,
    texts: Option<&[&str]>,
    unlisted: bool,
    file: bool,
) -> Result<Selection, ExtractionFault>
    ensures { Selects unlisted (option_map (λ t. map (λ s. s.now) t.now) texts.entry) file result }
{
    let Some(texts) = texts else {
        return listed_or_not(unlisted, file);
    };
    if unlisted {
        return Err(ExtractionFault::Both);
    }
    if file {
        return Err(ExtractionFault::FileAndPlace);
    }
    let places = in_order(numbers_of(alloc, texts)?);
    Ok(Selection::At(Places::from_vec(places)))
}

/// The unlisted messages, or the listed ones.
fn listed_or_not(unlisted: bool, file: bool) -> Result<Selection, ExtractionFault>
    ensures { Selects unlisted None file result }
{
    match (unlisted, file) {
        (true, true) => Err(ExtractionFault::FileAndUnlisted),
        (true, false) => Ok(Selection::Unlisted),
        (false, _) => Ok(Selection::Listed),
    }
}

/// What is to be extracted, where a file gives these places: the messages there, each once, by rising place. Without a
/// file it is what the options name.
pub fn at_places(extraction: Extraction, places: Option<Places>) -> Extraction
    ensures { IsAt places extraction result }
{
    let Some(places) = places else {
        return extraction;
    };
    let Extraction { form, unwrap, .. } = extraction;
    let places = in_order(places.into_vec());
    Extraction {
        selection: Selection::At(Places::from_vec(places)),
        form,
        unwrap,
    }
}

/// The numbers that texts spell.
fn numbers_of(alloc: Global, texts: &[&str]) -> Result<Vec<u32>, ExtractionFault>
    ensures found { IfOk result (λ numbers. SpellNumbers (map (λ s. s.now) texts.now) numbers.items) }
    ensures kinds { IfErr result (λ fault. is_of_options fault ≡ false) }
    ensures none { IsErrOf result NoNumber → (ns : List ℕ) → SpellNumbers (map (λ s. s.now) texts.now) ns
        → ¬ AllByRecursion (λ n. n < 2 ^ 32) ns }
{
    let mut numbers = Vec::new(alloc);
    for text in texts {
        let Ok(number) = text.parse::<u32>() else {
            return Err(ExtractionFault::NoNumber);
        };
        numbers.push(number)?;
    }
    Ok(numbers)
}

/// The same numbers, each once, rising.
fn in_order(numbers: Vec<u32>) -> Vec<u32>
    ensures { AreInOrder numbers.items result.items }
{
    let mut numbers = numbers;
    numbers.sort_unstable();
    numbers.dedup();
    numbers
}
