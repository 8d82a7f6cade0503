//! Which messages without a block are listed nowhere.
ghost use Rattle.std.specs.Prelude.{◌≡◌, ◌==◌, ℕ, not, List, map, filter, IfOk};
ghost use Rattle.std.specs.List.{list_any, filter_map};
ghost use Rattle.std.specs.List.Sorted.{IsNonDecreasing};
ghost use Rattle.std.specs.Result.{is_ok};
ghost use Rattle.ss_review.specs.declared.keep.message.NormalMessage.{NormalMessage};
ghost use Rattle.ss_review.specs.announced.Announced.{Row, keys};
ghost use Rattle.ss_review.specs.assign.Assigned.{is_place, assigned};
ghost use Rattle.ss_review.specs.report.Report.{unlisted};

use crate::report::places::Places;
use ss_octets::NoMemory;
use std::alloc::Global;

/// The places that are given, in the order of who is given them.
fn given(alloc: Global, places: &[Option<u32>]) -> Result<Vec<u32>, NoMemory>
    ensures { IfOk result (λ v. v.items ≡ filter_map (λ o. o) places.now) }
{
    Ok(places.iter().filter_map(|place| *place).collect(alloc)?)
}

/// The places that are given, in their order.
fn taken(alloc: Global, places: &[Option<u32>]) -> Result<Vec<u32>, NoMemory>
    ensures rise { IfOk result (λ v. IsNonDecreasing v.items) }
    ensures taken { IfOk result (λ v.
        (place : ℕ) → list_any (λ p. p == place) v.items ≡ list_any (is_place place) places.now) }
{
    let mut taken = given(alloc, places)?;
    taken.sort_unstable();
    Ok(taken)
}

/// Where the place stands among these, which rise, or else where it would. The index `next` is tried first: places that
/// are looked for in their order mostly stand one after the other.
fn search(places: &[u32], next: usize, place: u32) -> Result<usize, usize>
    requires { IsNonDecreasing places.now }
    ensures { is_ok result ≡ list_any (λ p. p == place) places.now }
{
    if next < places.len() && places[next] == place {
        return Ok(next);
    }
    places.binary_search(&place)
}

/// Those of the places that aren't among others, which rise.
fn outside(alloc: Global, places: &[u32], others: &[u32]) -> Result<Vec<u32>, NoMemory>
    requires { IsNonDecreasing others.now }
    ensures { IfOk result (λ v. v.items ≡ filter (λ place. not (list_any (λ p. p == place) others.now)) places.now) }
{
    let mut outside = Vec::new(alloc);
    let mut next: usize = 0;
    for place in places {
        match search(others, next, *place) {
            Ok(index) => next = index.saturating_add(1),
            Err(index) => {
                next = index;
                outside.push(*place)?;
            }
        }
    }
    Ok(outside)
}

/// The places of `all` that no announced key is assigned. `places` has the place that each key is assigned, if any.
pub(crate) fn unlisted(
    alloc: Global,
    all: &[u32],
    places: &[Option<u32>],
) -> Result<Places, NoMemory>
    ensures { (ms : List NormalMessage) (rs : List Row)
        → all.now ≡ map (λ m. m.place) ms
        → places.now ≡ map (assigned ms rs) (keys rs)
        → IfOk result (λ p. p ≡ unlisted ms rs) }
{
    let taken = taken(alloc, places)?;
    Ok(Places::from_vec(outside(alloc, all, &taken)?))
}
