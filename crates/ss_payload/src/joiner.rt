//! A payload joined from the fragments of certificate blocks (RFC 5848, section 5.3.2).
ghost use Rattle.std.specs.Prelude.{◌≡◌, ◌+◌, ◌-◌, ◌≤◌, ◌↔◌, length, MatchResult, IfOk, MatchOption, IfSome, IfNone};
ghost use Rattle.std.specs.Prelude.{ℕ, false, IsOk};
ghost use Rattle.ss_payload.specs.declared.joiner.JoinState.TheVariants.{Whole};
ghost use Rattle.ss_payload.specs.declared.joiner.Joined.TheVariants.{Disagrees};
ghost use Rattle.ss_payload.specs.Joining.{Stated, nothing_stated, with_fragment, DisagreesWith, HasState, IsPayload};
ghost use Rattle.ss_payload.specs.Joiner.{Stands, KeepsAll, LacksSome};
ghost use Rattle.ss_payload.specs.Room.{HasRoom, HasNoRoom, HasRoomFor, GrowsFor};
ghost use Rattle.ss_payload.specs.Ranges.{longest_payload};

mod runs;
mod slot;
mod totals;

use runs::Runs;
use ss_octets::{Bytes, NoMemory};
use std::alloc::Global;
use totals::Totals;

/// Whether a fragment agrees with those before it.
#[derive(Clone, Copy, Debug, PartialEq, Eq)]
pub enum Joined {
    /// It states their total, and their octet wherever they stated one.
    Agreed,
    /// Another total was stated before, or another octet at one of its indexes.
    Disagrees,
}

/// How far a payload is joined.
#[derive(Clone, Copy, Debug, PartialEq, Eq)]
pub enum JoinState {
    /// Nothing disagrees, and no total was stated, or an index from 1 to the total has no octet yet.
    Incomplete,
    /// Two totals were stated, or two octets at one index. It stays so.
    Disputed,
    /// Nothing disagrees, and each index from 1 to the total has its octet.
    Whole,
}

/// Joins the fragments of a payload, which may come in any order, overlap and come again.
///
/// Nothing is reserved for a total that is stated: room is kept for the octets that came, sixteen indexes at a time. A
/// fragment takes time by its octets, and for each sixteen of them by the logarithm of how many are kept.
#[derive(Drop)]
pub struct Joiner {
    alloc: Global,
    totals: Totals,
    runs: Runs,
    /// Whether two octets were stated at some index.
    marked: bool,
}

impl Joiner {
    /// A joiner to which nothing was stated. It takes no memory, and keeps the allocator for later.
    pub fn new(alloc: Global) -> Joiner
        ensures stands { Stands result nothing_stated }
        ensures room { HasNoRoom result }
    {
        Joiner {
            alloc,
            totals: Totals::Unstated,
            runs: Runs::new(alloc),
            marked: false,
        }
    }

    /// Adds a fragment: the octets of a payload of `total` octets (TPBL, 1 to 99,999,999) from the index `index` on
    /// (INDEX, 1 to 99,999,999). There are 1 to 9,999 octets (FLEN), and the last lies within the total. The answer
    /// says whether it disagrees with a fragment that was added before; it is added also if it does.
    ///
    /// # Errors
    ///
    /// `NoMemory` if memory runs out; the joiner then stands for what it did before.
    pub fn add(&mut self, total: u32, index: u32, fragment: &[u8]) -> Result<Joined, NoMemory>
        requires total { (1 ≤ total) × (total ≤ longest_payload) }
        requires index { (1 ≤ index) × (index ≤ longest_payload) }
        requires length { (1 ≤ length fragment.now) × (length fragment.now ≤ 9999) }
        requires within { index + length fragment.now - 1 ≤ total }
        ensures joined { (stated : Stated)
            → Stands self.old stated
            → MatchResult result (λ joined. Stands self.new (with_fragment stated total index fragment.now))
            (λ e. Stands self.new stated) }
        ensures answer { (stated : Stated)
            → Stands self.old stated
            → IfOk result (λ joined. (joined ≡ Disagrees) ↔ DisagreesWith stated total index fragment.now) }
        // It makes room for the octets of this fragment alone, even if memory runs out.
        ensures room { GrowsFor self.old self.new index (length fragment.now) }
        // Room that was made stays.
        ensures kept { (number : ℕ) → HasRoom self.old number → HasRoom self.new number }
        // If the runs of its octets exist, it takes no memory.
        ensures had { HasRoomFor self.old index (length fragment.now) → IsOk result }
    {
        self.runs.make_room(index, fragment.len())?;
        let other_total = self.totals.differs(total);
        self.totals = self.totals.joined(total);
        let other_octet = self.runs.put_all(index, fragment);
        self.marked |= other_octet;
        if other_total | other_octet {
            Ok(Joined::Disagrees)
        } else {
            Ok(Joined::Agreed)
        }
    }

    /// The total, if the payload is whole.
    fn whole(&self) -> Option<u32>
        ensures some { IfSome result (KeepsAll self.now) }
        ensures none { IfNone result (self.now.marked ≡ false → LacksSome self.now.totals self.now.runs) }
    {
        match self.totals {
            Totals::One(total) => {
                if !self.marked && self.runs.covers(total) {
                    Some(total)
                } else {
                    None
                }
            }
            Totals::Unstated | Totals::Many => None,
        }
    }

    /// How far the payload is joined. It takes no memory.
    pub fn state(&self) -> JoinState
        ensures { (stated : Stated) → Stands self.now stated → HasState stated result }
    {
        if self.marked {
            return JoinState::Disputed;
        }
        if let Totals::Many = self.totals {
            return JoinState::Disputed;
        }
        match self.whole() {
            Some(_) => JoinState::Whole,
            None => JoinState::Incomplete,
        }
    }

    /// The payload if the state is `Whole`, otherwise none.
    ///
    /// # Errors
    ///
    /// `NoMemory` if memory runs out.
    pub fn payload(&self) -> Result<Option<Bytes>, NoMemory>
        ensures payload { (stated : Stated)
            → Stands self.now stated
            → IfOk result
            (λ text. MatchOption text (¬ HasState stated Whole) (λ t. HasState stated Whole × IsPayload stated t)) }
        // Another state is seen before memory is taken.
        ensures state_first { (stated : Stated) → Stands self.now stated → ¬ HasState stated Whole → result ≡ Ok None }
    {
        match self.whole() {
            Some(total) => Ok(Some(self.runs.text(self.alloc, total)?)),
            None => Ok(None),
        }
    }
}
