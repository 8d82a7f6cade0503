//! Which signature blocks are missing, from the GBC of those that are there.
ghost use Rattle.std.specs.Prelude.{◌≡◌, ◌++◌, ◌<◌, ◌^◌, IfOk, OnOk};
ghost use Rattle.std.specs.Ordering.{nat_cmp};
ghost use Rattle.std.specs.List.Sorted.{IsStrictlySortedBy};
ghost use Rattle.ss_review.specs.counted.Counted.{next_after, run_between, missing};

use ss_octets::{List, NoMemory};
use std::alloc::Global;

/// Signature blocks of a session that are missing: those with the GBC from `first` to `last`, each 0 to 9,999,999,999.
/// The blocks beside them aren't missing.
#[derive(Clone, Copy, Debug, PartialEq, Eq)]
pub struct MissingRun {
    pub first: u64,
    pub last: u64,
}

/// Signature blocks of a session that are missing, by rising GBC. Contracts see the list alone.
pub type MissingRuns = List<MissingRun>;

/// Adds the values from `first` up to `end`, which isn't one, if there are any.
fn add_run(runs: &mut Vec<MissingRun>, first: u64, end: u64) -> Result<(), NoMemory>
    ensures { OnOk result (runs.new.items ≡ runs.old.items ++ run_between first end) }
{
    if first < end {
        runs.push(MissingRun {
            first,
            last: end - 1,
        })?;
    }
    Ok(())
}

/// Which signature blocks of a session are missing below the GBC `next`, from the GBC of those that are there, each
/// once and rising. `next_gbc` gives the bound for a log alone. `NoMemory` where memory runs out.
pub fn missing_runs(alloc: Global, gbcs: &[u64], next: u64) -> Result<MissingRuns, NoMemory>
    ensures { IsStrictlySortedBy nat_cmp gbcs.now → IfOk result (λ r. r ≡ missing gbcs.now next) }
{
    let mut runs = Vec::new(alloc);
    let mut first = 0;
    for gbc in gbcs {
        if *gbc >= next {
            break;
        }
        add_run(&mut runs, first, *gbc)?;
        first = *gbc + 1;
    }
    add_run(&mut runs, first, next)?;
    Ok(MissingRuns::from_vec(runs))
}

/// The GBC of the next signature block of a session, from those of the blocks that are there: one more than the
/// greatest, or 0 where there is none.
pub fn next_gbc(gbcs: &[u64]) -> u64
    ensures { let next = next_after gbcs.now in next < 2 ^ 64 → result ≡ next }
{
    let mut next: u64 = 0;
    for gbc in gbcs {
        next = next.max(gbc.saturating_add(1));
    }
    next
}
