//! Lists of places.
ghost use Rattle.std.specs.Prelude.{◌≡◌, ◌++◌, ◌∷◌, [], filter_map, OnOk};
ghost use Rattle.std.specs.Ordering.{nat_cmp};
ghost use Rattle.ss_review.specs.Ordered.{in_order};
ghost use Rattle.ss_review.specs.report.Extract.{place_listed};

use ss_review::Entry;
use std::alloc::AllocError;

/// Brings places in order, each once.
pub(crate) fn put_in_order(places: &mut Vec<u32>)
    ensures { places.new.items ≡ in_order nat_cmp places.old.items }
{
    places.sort_unstable();
    places.dedup();
}

/// Adds the places that entries list.
pub(crate) fn add_of_entries(places: &mut Vec<u32>, entries: &[Entry]) -> Result<(), AllocError>
    ensures { OnOk result (places.new.items ≡ places.old.items ++ filter_map place_listed entries.now) }
{
    for entry in entries {
        add_of_entry(places, *entry)?;
    }
    Ok(())
}

/// Adds the place that an entry lists, if it lists one.
fn add_of_entry(places: &mut Vec<u32>, entry: Entry) -> Result<(), AllocError>
    ensures { OnOk result (places.new.items ≡ places.old.items ++ filter_map place_listed (entry ∷ [])) }
{
    let Entry::Listed { place, .. } = entry else {
        return Ok(());
    };
    places.push(place)?;
    Ok(())
}
