//! The tally of a group: how many of its numbers are listed, lost, disputed or in holes.
ghost use Rattle.std.specs.Prelude.{◌≡◌, ◌≤◌, ◌+◌, ◌-◌, ◌^◌};
ghost use Rattle.std.specs.Prelude.{ℕ, [], ◌∷◌, filter_map, fold};
ghost use Rattle.ss_between.specs.Between.{entry_left};
ghost use Rattle.ss_report.specs.lines.Tally.{announcing, tally, with_entry, HasOneMore, IsWithin};

use ss_between::entry_left;
use ss_review::{Entry, Why};

/// How many numbers of a group are listed, lost, disputed or in holes. The numbers are 1 to 9,999,999,999; `first` and
/// `last` are 0 where none is announced.
#[derive(Clone, Copy)]
pub(crate) struct Tally {
    /// How many are announced, and their messages are listed.
    pub(crate) listed: u64,
    /// How many are announced, and no message is listed for them.
    pub(crate) lost: u64,
    /// For how many two different hashes were announced.
    pub(crate) disputed: u64,
    /// How many lie in holes.
    pub(crate) holes: u128,
    /// The first announced number.
    pub(crate) first: u64,
    /// The last announced number.
    pub(crate) last: u64,
}

/// The tally of no entry.
const NO_TALLY: Tally = Tally {
    listed: 0,
    lost: 0,
    disputed: 0,
    holes: 0,
    first: 0,
    last: 0,
};

impl Tally {
    /// The tally of the entries of a group, without the numbers of holes below this one.
    pub(crate) fn of_left(number: u64, entries: &[Entry]) -> Tally
        ensures { result ≡ tally (filter_map (entry_left number) entries.now) }
    {
        let mut so_far = NO_TALLY;
        for entry in entries {
            so_far = so_far.with_left(number, *entry);
        }
        so_far
    }

    /// The tally with what is left of one more entry from this number on, if anything is.
    fn with_left(self, number: u64, entry: Entry) -> Tally
        requires { IsWithin (2 ^ 63) self }
        ensures told { result ≡ fold with_entry self (filter_map (entry_left number) (entry ∷ [])) }
        ensures within { (count : ℕ) → IsWithin count self → IsWithin (count + 1) result }
    {
        match entry_left(number, entry) {
            Some(left) => self.with(left),
            None => self,
        }
    }

    /// The tally with one more entry.
    #[tactic(auto, unfolding(crate::specs::lines::Tally::with_entry))]
    fn with(self, entry: Entry) -> Tally
        requires { IsWithin (2 ^ 63) self }
        ensures { HasOneMore self result entry }
    {
        match entry {
            Entry::Listed { number, .. } => Tally {
                listed: self.listed + 1,
                ..self.announcing(number)
            },
            Entry::Gap {
                number,
                why: Why::Lost,
            } => Tally {
                lost: self.lost + 1,
                ..self.announcing(number)
            },
            Entry::Gap {
                number,
                why: Why::Disputed,
            } => Tally {
                disputed: self.disputed + 1,
                ..self.announcing(number)
            },
            Entry::Hole { first, last } => Tally {
                holes: self.holes + numbers_in(first, last),
                ..self
            },
        }
    }

    /// The tally whose last announced number is this one.
    fn announcing(self, number: u64) -> Tally
        ensures { result ≡ announcing self number }
    {
        let first = if self.first == 0 { number } else { self.first };
        Tally {
            first,
            last: number,
            ..self
        }
    }
}

/// How many numbers there are from the first to the last.
fn numbers_in(first: u64, last: u64) -> u128
    ensures count { result ≡ last + 1 - first }
    ensures most { result ≤ 2 ^ 64 }
{
    (u128::from(last) + 1).saturating_sub(u128::from(first))
}
