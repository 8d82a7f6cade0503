//! The number of the next message of a group.
ghost use Rattle.std.specs.Prelude.{◌≡◌, ◌-◌, ◌<◌, ◌^◌, min};
ghost use Rattle.ss_review.specs.counted.Counted.{next_after, number_announced, next_number};

use crate::report::entry::Entry;
use crate::report::group_report::GroupReport;

/// One more than the number of an entry, or 0 for a hole.
fn next_behind(entry: &Entry) -> u64
    ensures { result ≡ min (next_after (number_announced entry.now)) (2 ^ 64 - 1) }
{
    match entry {
        Entry::Listed { number, .. } => number.saturating_add(1),
        Entry::Gap { number, .. } => number.saturating_add(1),
        Entry::Hole { .. } => 0,
    }
}

impl GroupReport {
    /// The number of the next message of the group, 0 to 10,000,000,000: one more than the greatest number that is
    /// announced, or 0 where none is.
    pub fn next_number(&self) -> u64
        ensures { let next = next_number self.now in next < 2 ^ 64 → result ≡ next }
    {
        let mut next: u64 = 0;
        for entry in self.entries.as_slice() {
            next = next.max(next_behind(entry));
        }
        next
    }
}
