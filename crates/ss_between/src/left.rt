//! What is left of what is missing, where a night begins at a counter.
ghost use Rattle.std.specs.Prelude.{◌≡◌};
ghost use Rattle.ss_between.specs.Between.{entry_left, run_left, tail_left};

use ss_review::{Entry, GroupTail, MissingRun};

/// An entry of a group without the numbers of a hole below `number`, which is 1 to 10,000,000,000. `None` where none is
/// left. Announced numbers stay wherever they are.
#[tactic(auto, unfolding(crate::specs::Between::entry_left))]
pub fn entry_left(number: u64, entry: Entry) -> Option<Entry>
    ensures { result ≡ entry_left number entry }
{
    match entry {
        Entry::Hole { first, last } => {
            if last < number {
                None
            } else {
                Some(Entry::Hole {
                    first: first.max(number),
                    last,
                })
            }
        }
        _ => Some(entry),
    }
}

/// A tail of a group without the numbers below `number`, which is 1 to 10,000,000,000. `None` where none is left.
#[tactic(auto, unfolding(crate::specs::Between::tail_left))]
pub fn tail_left(number: u64, tail: GroupTail) -> Option<GroupTail>
    ensures { result ≡ tail_left number tail }
{
    if tail.last < number {
        return None;
    }
    Some(GroupTail {
        first: tail.first.max(number),
        ..tail
    })
}

/// A run of missing signature blocks without the GBC values below `gbc`, which is 0 to 10,000,000,000. `None` where none
/// is left.
#[tactic(auto, unfolding(crate::specs::Between::run_left))]
pub fn run_left(gbc: u64, run: MissingRun) -> Option<MissingRun>
    ensures { result ≡ run_left gbc run }
{
    if run.last < gbc {
        return None;
    }
    Some(MissingRun {
        first: run.first.max(gbc),
        last: run.last,
    })
}
