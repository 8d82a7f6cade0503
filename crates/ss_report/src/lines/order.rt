//! The order of a group's listed messages: whether they stand in the log by their numbers.
ghost use Rattle.std.specs.Prelude.{◌≡◌, ◌≤◌, ◌+◌, ◌^◌, ℕ, [], ◌∷◌, filter_map, fold};
ghost use Rattle.ss_between.specs.Between.{entry_left};
ghost use Rattle.ss_report.specs.lines.Order.{order, with_entry, with_early, HasOneMore, IsWithin};

use ss_between::entry_left;
use ss_review::Entry;

/// How the listed messages of a group stand in the log, by rising number.
#[derive(Clone, Copy)]
pub(crate) struct Order {
    /// How many stand in front of the one that is listed before them.
    pub(crate) count: u64,
    /// The number of the first of these, 1 to 9,999,999,999, or 0 where there is none.
    pub(crate) number: u64,
    /// The place of the first of these, or 0 where there is none.
    pub(crate) place: u32,
    /// The place of the last listed one, or 0 where none is listed.
    pub(crate) last: u32,
}

/// The order of no message.
const NO_ORDER: Order = Order {
    count: 0,
    number: 0,
    place: 0,
    last: 0,
};

impl Order {
    /// The order of the entries of a group, without the numbers of holes below this one.
    pub(crate) fn of_left(number: u64, entries: &[Entry]) -> Order
        ensures { result ≡ order (filter_map (entry_left number) entries.now) }
    {
        let mut so_far = NO_ORDER;
        for entry in entries {
            so_far = so_far.with_left(number, *entry);
        }
        so_far
    }

    /// The order with what is left of one more entry from this number on, if anything is.
    fn with_left(self, number: u64, entry: Entry) -> Order
        requires { self.count ≤ 2 ^ 63 }
        ensures told { result ≡ fold with_entry self (filter_map (entry_left number) (entry ∷ [])) }
        ensures within { (count : ℕ) → IsWithin count self → IsWithin (count + 1) result }
    {
        match entry_left(number, entry) {
            Some(left) => self.with(left),
            None => self,
        }
    }

    /// The order with one more entry.
    #[tactic(auto, unfolding(crate::specs::lines::Order::with_entry))]
    fn with(self, entry: Entry) -> Order
        requires { self.count ≤ 2 ^ 63 }
        ensures { HasOneMore self result entry }
    {
        match entry {
            Entry::Listed { number, place } => {
                if place < self.last {
                    self.with_early(number, place)
                } else {
                    Order {
                        last: place,
                        ..self
                    }
                }
            }
            Entry::Gap { .. } | Entry::Hole { .. } => self,
        }
    }

    /// The order with one more listed message, which stands in front of the one before it.
    fn with_early(self, number: u64, place: u32) -> Order
        requires { self.count ≤ 2 ^ 63 }
        ensures { result ≡ with_early self number place }
    {
        let (number, first) = if self.count == 0 {
            (number, place)
        } else {
            (self.number, self.place)
        };
        Order {
            count: self.count + 1,
            number,
            place: first,
            last: place,
        }
    }
}
