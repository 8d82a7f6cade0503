//! Announced message numbers with what a report says about them.
ghost use Rattle.std.specs.Prelude.{◌≡◌, List, map, option_map, IfOk};
ghost use Rattle.std.specs.List.{zip};
ghost use Rattle.ss_review.specs.declared.keep.message.NormalMessage.{NormalMessage};
ghost use Rattle.ss_review.specs.announced.Announced.{Row, keys};
ghost use Rattle.ss_review.specs.assign.Assigned.{assigned};
ghost use Rattle.ss_review.specs.announced.Numbered.{key_of, only_hashes};
ghost use Rattle.ss_review.specs.report.Grouped.{found_for, found_with, entry_by, numbered, with_entry, with_entries};

use crate::announced::message_number::MessageNumber;
use crate::announced::only_hash::OnlyHash;
use crate::report::entry::{Entry, Why};
use ss_block::Hash;
use ss_octets::NoMemory;
use std::alloc::Global;

/// An announced message number with its entry.
#[derive(Clone, Copy)]
pub(crate) struct NumberEntry<'a> {
    pub(crate) number: MessageNumber<'a>,
    pub(crate) entry: Entry,
}

/// The place that a number is assigned, or why it has none. It is announced with one hash, or with several.
fn found_for(hash: Option<&Hash>, place: Option<u32>) -> Result<u32, Why>
    ensures { result ≡ found_for (option_map (λ h. h.now) hash.entry) place }
{
    match (place, hash) {
        (Some(place), _) => Ok(place),
        (None, Some(_)) => Err(Why::Lost),
        (None, None) => Err(Why::Disputed),
    }
}

/// The place of each number, or why it has none. `hashes` has the hash that each is announced with, or none where there
/// are several, and `places` the place that each is assigned, if any.
pub(crate) fn found_places(
    alloc: Global,
    hashes: &[OnlyHash<'_>],
    places: &[Option<u32>],
) -> Result<Vec<Result<u32, Why>>, NoMemory>
    ensures { IfOk result (λ v. v.items ≡ map found_with (zip hashes.now places.now)) }
{
    Ok(
        hashes
            .iter()
            .zip(places.iter())
            .map(|(hash, place)| found_for(hash.get(), *place))
            .collect(alloc)?,
    )
}

/// The entry of a number, by its place or by why it has none.
fn entry_by(number: u64, found: Result<u32, Why>) -> Entry
    ensures { result ≡ entry_by number found }
{
    match found {
        Ok(place) => Entry::Listed { number, place },
        Err(why) => Entry::Gap { number, why },
    }
}

/// The numbers with their entries, by the place of each or why it has none.
fn zipped<'a>(
    alloc: Global,
    numbers: &[MessageNumber<'a>],
    found: &[Result<u32, Why>],
) -> Result<Vec<NumberEntry<'a>>, NoMemory>
    ensures { IfOk result (λ v. v.items ≡ numbered numbers.now found.now) }
{
    Ok(
        numbers
            .iter()
            .zip(found.iter())
            .map(|(number, found)| NumberEntry {
                number: *number,
                entry: entry_by(number.number, *found),
            })
            .collect(alloc)?,
    )
}

/// All announced numbers with their entries, in their order. `found` has the place of each, or why it has none.
pub(crate) fn with_entries<'a>(
    alloc: Global,
    numbers: &[MessageNumber<'a>],
    found: &[Result<u32, Why>],
) -> Result<Vec<NumberEntry<'a>>, NoMemory>
    ensures { (ms : List NormalMessage) (rs : List Row)
        → map key_of numbers.now ≡ keys rs
        → found.now ≡ map found_with (zip (only_hashes rs) (map (assigned ms rs) (keys rs)))
        → IfOk result (λ v. map with_entry v.items ≡ with_entries ms rs (keys rs)) }
{
    zipped(alloc, numbers, found)
}
