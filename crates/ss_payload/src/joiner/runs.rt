//! The octets of a payload by their indexes, in sorted runs.
ghost use Rattle.std.specs.Prelude.{◌≡◌, ◌+◌, ◌-◌, ◌/◌, ◌%◌, ◌<◌, ◌≤◌, ◌≢◌, ◌^◌, ◌⊎◌, ℕ, List, length, slice_index_or};
ghost use Rattle.std.specs.Prelude.{IsTrue, true, false, OnOk, IfOk, IsOk};
ghost use Rattle.ss_payload.specs.declared.joiner.slot.Slot.TheVariants.{Empty};
ghost use Rattle.ss_payload.specs.Slots.{slot_at, HasRun, HasRuns, IsOne, IsPut, IsTextOf, NoneDiffers, SomeDiffers};
ghost use Rattle.ss_payload.specs.Slots.{joined_slot, slot_differs};
ghost use Rattle.ss_payload.specs.RunSlots.{IsWritten, SomeDiffersIn, NoneDiffersIn, IsPushed, BelongsTo};

use super::slot::Slot;
use ss_octets::{Bytes, NoMemory};
use std::alloc::{AllocError, Global};
use std::collections::BTreeMap;

/// How many indexes stand in a run.
const RUN: u32 = 16;

/// Octets by their indexes. A run has room for 16 indexes that follow each other. The first of them is a multiple of
/// 16, and the number of the run is a sixteenth of it.
///
/// There are runs only where octets came, or were to come when memory ran out, so the length of a payload takes no
/// room. No run is ever merged or cut, because their borders are fixed. All octets of a fragment that lie in one run
/// take one search, in time by the logarithm of how many runs there are. The order in which octets come doesn't matter.
#[derive(Drop)]
pub struct Runs {
    runs: BTreeMap<u32, [Slot; 16]>,
}

/// States `octet` at the place `at` of a run, and answers whether another octet was stated there before.
fn say(run: &mut [Slot; 16], at: usize, octet: u8) -> bool
    requires { at < 16 }
    ensures here { slice_index_or run.new at Empty ≡ joined_slot (slice_index_or run.old at Empty) octet }
    ensures elsewhere { (k : ℕ) → k ≢ at → slice_index_or run.new k Empty ≡ slice_index_or run.old k Empty }
    ensures differs { result ≡ slot_differs (slice_index_or run.old at Empty) octet }
{
    let slot = run[at];
    run[at] = slot.joined(octet);
    slot.differs(octet)
}

/// States the octets of `piece` at the places of a run from `at` on, and answers whether another octet was stated at
/// one of them before.
fn write(run: &mut [Slot; 16], at: usize, piece: &[u8]) -> bool
    requires { at + length piece.now ≤ 16 }
    ensures written { IsWritten run.old run.new at piece.now (length piece.now) }
    ensures some { result ≡ true → SomeDiffersIn run.old at piece.now }
    ensures none { result ≡ false → NoneDiffersIn run.old at piece.now (length piece.now) }
{
    let mut differs = false;
    for (j, octet) in piece.iter().enumerate() {
        if say(run, at + j, *octet) {
            differs = true;
        }
    }
    differs
}

/// Whether something was stated at each of `count` places of a run from `at` on.
fn are_said(run: &[Slot; 16], at: usize, count: usize) -> bool
    requires { at + count ≤ 16 }
    ensures yes { result ≡ true → (j : ℕ) → j < count → slice_index_or run.now (at + j) Empty ≢ Empty }
    ensures no { result ≡ false → (j : ℕ) × (j < count) × (slice_index_or run.now (at + j) Empty ≡ Empty) }
{
    for j in 0..count {
        if let Slot::Empty = run[at + j] {
            return false;
        }
    }
    true
}

/// Writes the octets at `count` places of a run from `at` on at the end of `text`.
fn push(text: &mut Vec<u8>, run: &[Slot; 16], at: usize, count: usize) -> Result<(), AllocError>
    requires { at + count ≤ 16 }
    ensures { ((j : ℕ) → j < count → IsOne (slice_index_or run.now (at + j) Empty))
        → OnOk result (IsPushed text.old.items text.new.items run.now at count) }
{
    for j in 0..count {
        if let Slot::One(octet) = run[at + j] {
            text.push(octet)?;
        }
    }
    Ok(())
}

impl Runs {
    /// Runs without an octet. The call takes no memory.
    #[tactic(auto, unfolding(crate::specs::Slots::slot_at, crate::specs::Slots::HasRun))]
    pub fn new(alloc: Global) -> Runs
        ensures unsaid { (i : ℕ) → slot_at result i ≡ Empty }
        ensures none { (n : ℕ) → ¬ HasRun result n }
    {
        Runs {
            runs: BTreeMap::new(alloc),
        }
    }

    /// Makes the run with the number `number`, if there is none yet. What was stated doesn't change.
    fn make_run(&mut self, number: u32) -> Result<(), NoMemory>
        ensures same { (i : ℕ) → slot_at self.new i ≡ slot_at self.old i }
        ensures made { OnOk result (HasRun self.new number) }
        ensures kept { (n : ℕ) → HasRun self.old n → HasRun self.new n }
        ensures alone { (n : ℕ) → n ≢ number → HasRun self.new n → HasRun self.old n }
        ensures had { HasRun self.old number → IsOk result }
    {
        if !self.runs.contains_key(&number) {
            self.runs.insert(number, [Slot::Empty; 16])?;
        }
        Ok(())
    }

    /// Makes the runs of `length` indexes from `index` on, and no others. What was stated doesn't change, even if
    /// memory runs out.
    pub fn make_room(&mut self, index: u32, length: usize) -> Result<(), NoMemory>
        requires some { 1 ≤ length }
        requires fits { index + length < 2 ^ 31 }
        ensures same { (i : ℕ) → slot_at self.new i ≡ slot_at self.old i }
        ensures room { OnOk result (HasRuns self.new index length) }
        ensures kept { (n : ℕ) → HasRun self.old n → HasRun self.new n }
        ensures alone { (n : ℕ) → HasRun self.new n → HasRun self.old n ⊎ BelongsTo n index length }
        ensures had { HasRuns self.old index length → IsOk result }
    {
        let behind = index + length as u32 + (RUN - 1);
        for number in index / RUN..behind / RUN {
            self.make_run(number)?;
        }
        Ok(())
    }

    /// States the octets of `piece` at the indexes from `index` on, all of one run that was made. Answers whether
    /// another octet was stated at one of them before.
    fn put(&mut self, index: u32, piece: &[u8]) -> bool
        requires one { index % 16 + length piece.now ≤ 16 }
        requires room { HasRun self.old (index / 16) }
        ensures put { IsPut self.old self.new index piece.now (length piece.now) }
        ensures some { result ≡ true → SomeDiffers self.old index piece.now }
        ensures none { result ≡ false → NoneDiffers self.old index piece.now (length piece.now) }
        ensures kept { (n : ℕ) → HasRun self.old n → HasRun self.new n }
        ensures alone { (n : ℕ) → HasRun self.new n → HasRun self.old n }
    {
        match self.runs.get_mut(&(index / RUN)) {
            Some(run) => write(run, (index % RUN) as usize, piece),
            None => false,
        }
    }

    /// States the octets of `fragment` at the indexes from `index` on, whose runs were made. Answers whether another
    /// octet was stated at one of them before.
    pub fn put_all(&mut self, index: u32, fragment: &[u8]) -> bool
        requires room { (j : ℕ) → j < length fragment.now → HasRun self.old ((index + j) / 16) }
        requires fits { index + length fragment.now < 2 ^ 31 }
        ensures put { IsPut self.old self.new index fragment.now (length fragment.now) }
        ensures some { result ≡ true → SomeDiffers self.old index fragment.now }
        ensures none { result ≡ false → NoneDiffers self.old index fragment.now (length fragment.now) }
        ensures kept { (n : ℕ) → HasRun self.old n → HasRun self.new n }
        ensures alone { (n : ℕ) → HasRun self.new n → HasRun self.old n }
    {
        let mut differs = false;
        let mut start = 0;
        while start < fragment.len() {
            let first = index + start as u32;
            let end = fragment.len().min(start + (RUN - first % RUN) as usize);
            if self.put(first, &fragment[start..end]) {
                differs = true;
            }
            start = end;
        }
        differs
    }

    /// Whether something was stated at each of `count` indexes from `index` on, all of one run.
    fn covers_part(&self, index: u32, count: u32) -> bool
        requires some { 1 ≤ count }
        requires one { index % 16 + count ≤ 16 }
        ensures yes { result ≡ true → (j : ℕ) → j < count → slot_at self.now (index + j) ≢ Empty }
        ensures no { result ≡ false → (j : ℕ) × (j < count) × (slot_at self.now (index + j) ≡ Empty) }
    {
        match self.runs.get(&(index / RUN)) {
            Some(run) => are_said(run, (index % RUN) as usize, count as usize),
            None => false,
        }
    }

    /// Whether something was stated at each index from 1 to `total`. It looks no further than the run of the first
    /// index where nothing was stated, however large `total` is.
    pub fn covers(&self, total: u32) -> bool
        ensures yes { IsTrue result → (k : ℕ) → k < total → slot_at self.now (k + 1) ≢ Empty }
        ensures no { result ≡ false → (k : ℕ) × (k < total) × (slot_at self.now (k + 1) ≡ Empty) }
    {
        let mut before = 0;
        while before < total {
            let index = before + 1;
            let count = (RUN - index % RUN).min(total - before);
            if !self.covers_part(index, count) {
                return false;
            }
            before += count;
        }
        true
    }

    /// Writes the octets at `count` indexes from `index` on, all of one run, at the end of `text`, which has the octets
    /// of the indexes before.
    fn push_part(&self, text: &mut Vec<u8>, index: u32, count: u32) -> Result<(), AllocError>
        requires { index % 16 + count ≤ 16 }
        ensures { (before : ℕ)
            → index ≡ before + 1
            → IsTextOf self.now text.old.items before
            → ((j : ℕ) → j < count → IsOne (slot_at self.now (index + j)))
            → OnOk result (IsTextOf self.now text.new.items (before + count)) }
    {
        if let Some(run) = self.runs.get(&(index / RUN)) {
            push(text, run, (index % RUN) as usize, count as usize)?;
        }
        Ok(())
    }

    /// The octets at the indexes from 1 to `total`, if one octet was stated at each of them.
    pub fn text(&self, alloc: Global, total: u32) -> Result<Bytes, NoMemory>
        ensures { ((k : ℕ) → k < total → IsOne (slot_at self.now (k + 1)))
            → IfOk result (λ text. IsTextOf self.now text total) }
    {
        let mut text = Vec::with_capacity(alloc, total as usize)?;
        let mut before = 0;
        while before < total {
            let index = before + 1;
            let count = (RUN - index % RUN).min(total - before);
            self.push_part(&mut text, index, count)?;
            before += count;
        }
        Ok(Bytes::from_vec(text))
    }
}
