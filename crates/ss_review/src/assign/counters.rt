//! How often messages were wanted.
ghost use Rattle.std.specs.Prelude.{◌≡◌, ◌<◌, ◌≤◌, ◌+◌, ◌^◌, ℕ, [], length, map, Contains, IfOk, if◌then◌else◌, ◌==◌};
ghost use Rattle.std.specs.Ordering.{nat_cmp};
ghost use Rattle.std.specs.List.Sorted.{IsStrictlySortedBy};
ghost use Rattle.ss_review.specs.declared.keep.stored_message.StoredMessage.{StoredMessage};
ghost use Rattle.ss_review.specs.assign.StoredHashes.{counted_at, Tallies};

use crate::keep::stored_message::StoredMessage;
use ss_octets::NoMemory;
use std::alloc::Global;

/// For each place of a log, how often the message there was wanted. Each announced number wants one at most, and these
/// are counted by 32 bits.
#[derive(Drop)]
pub(crate) struct Counters {
    counts: Vec<u32>,
}

/// How many counts there have to be for these messages, whose places rise.
fn room_for(messages: &[StoredMessage]) -> usize
    ensures room { IsStrictlySortedBy nat_cmp (map (λ m. m.place) messages.now)
        → (m : StoredMessage) → Contains messages.now m → m.place < result }
    ensures least { (n : ℕ) → ((m : StoredMessage) → Contains messages.now m → m.place < n) → result ≤ n }
{
    if messages.is_empty() {
        return 0;
    }
    let last = messages[messages.len() - 1];
    last.place as usize + 1
}

impl Counters {
    /// Of these messages none was wanted yet. Their places rise.
    pub(crate) fn new(alloc: Global, messages: &[StoredMessage]) -> Result<Counters, NoMemory>
        ensures none { IfOk result (λ c. Tallies c []) }
        ensures room { IsStrictlySortedBy nat_cmp (map (λ m. m.place) messages.now)
            → IfOk result (λ c. (m : StoredMessage) → Contains messages.now m → m.place < length c.counts.items) }
        ensures least { (n : ℕ)
            → ((m : StoredMessage) → Contains messages.now m → m.place < n)
            → IfOk result (λ c. length c.counts.items ≤ n) }
    {
        let count = room_for(messages);
        let mut counts = Vec::with_capacity(alloc, count)?;
        counts.resize(count, 0)?;
        Ok(Counters { counts })
    }

    /// How often the message at the place was wanted before. It is wanted once more now.
    pub(crate) fn count(&mut self, place: u32) -> u32
        ensures before { result ≡ counted_at self.old place }
        ensures after { place < length self.old.counts.items
            → result + 1 < 2 ^ 32
            → (q : ℕ) → counted_at self.new q ≡ (if q == place then result + 1 else counted_at self.old q) }
        ensures length { length self.new.counts.items ≡ length self.old.counts.items }
    {
        let index = place as usize;
        if index >= self.counts.len() {
            return 0;
        }
        let before = self.counts[index];
        self.counts[index] = before.saturating_add(1);
        before
    }
}
