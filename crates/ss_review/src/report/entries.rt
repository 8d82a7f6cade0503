//! What a report says about the numbers of a group.
ghost use Rattle.std.specs.Prelude.{◌≡◌, ◌++◌, ◌∷◌, [], map, IfOk, OnOk};
ghost use Rattle.ss_review.specs.report.Entries.{hole_between};
ghost use Rattle.ss_review.specs.report.Grouped.{with_entry, entries_after};

use crate::report::entry::{Entries, Entry};
use crate::report::number_entry::NumberEntry;
use ss_octets::NoMemory;
use std::alloc::Global;

/// Adds the entry of a number, after the hole between `last`, the number before it, and its own.
fn add_entry(entries: &mut Vec<Entry>, last: u64, number: &NumberEntry<'_>) -> Result<(), NoMemory>
    ensures { OnOk result (entries.new.items
        ≡ entries.old.items ++ (hole_between last number.now.number.number ++ number.now.entry ∷ [])) }
{
    let next = number.number.number;
    if next.saturating_sub(last) > 1 {
        entries.push(Entry::Hole {
            first: last + 1,
            last: next - 1,
        })?;
    }
    entries.push(number.entry)?;
    Ok(())
}

/// The entries of the numbers of a group, each after the hole between the number before it and its own. There is at least
/// one for each number, so room for these is taken at once.
pub(crate) fn entries(alloc: Global, numbers: &[NumberEntry<'_>]) -> Result<Entries, NoMemory>
    ensures { IfOk result (λ e. e ≡ entries_after 0 (map with_entry numbers.now)) }
{
    let mut entries = Vec::with_capacity(alloc, numbers.len())?;
    let mut last = 0;
    for number in numbers {
        add_entry(&mut entries, last, number)?;
        last = number.number.number;
    }
    Ok(Entries::from_vec(entries))
}
