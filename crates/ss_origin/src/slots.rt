//! The groups of an originator, one for each SPRI.
ghost use Rattle.std.specs.Prelude.{◌≡◌, ◌==◌, ◌<◌, ◌+◌, ◌++◌, ◌∷◌, [], length, map, slice_set, vec_len, vec_capacity};
ghost use Rattle.std.specs.Prelude.{IfOk, OnOk, OnErr, is_ok, if◌then◌else◌};
ghost use Rattle.ss_origin.specs.State.{spris};
ghost use Rattle.ss_origin.specs.Step.{group_flushed};
ghost use Rattle.ss_origin.specs.Slots.{IsRoom, slot_in, slot_from, slot_with, number_if_known, next_numbers};
ghost use Rattle.ss_origin.specs.Pending.{runs_pending};
ghost use Rattle.ss_origin.specs.Counting.{names, number_in};
ghost use Rattle.ss_block.specs.Ranges.{past_last_number};

use crate::counters::{NextNumber, NextNumbers};
use ss_block::Hash;
use ss_octets::NoMemory;
use std::alloc::Global;
use std::marker::Model;

/// How many hashes can be pending in a group at most: one more fills the largest block.
const MOST_PENDING: usize = 98;

/// What is kept of a group. Contracts see the same. There is room for at most twice as many hashes as are pending.
#[derive(Drop)]
pub struct Slot {
    known: bool,
    number: u64,
    pending: Vec<Hash>,
}

impl Model for Slot {
    ghost use Rattle.std.specs.Prelude.{vec_len, vec_capacity};
    ghost use Rattle.ss_origin.specs.State.{GroupState};
    ghost use Rattle.ss_origin.specs.Slots.{IsRoom};

    ghost Value = { GroupState };

    ghost view = { λ s. record { known = s.known; number = s.number; pending = s.pending.items } };

    ghost invariant = { λ s. IsRoom (vec_capacity s.pending) (vec_len s.pending) };
}

/// Whether the group is named.
fn names(numbers: &[NextNumber], spri: u8) -> bool
    ensures { result ≡ names numbers.now spri }
{
    numbers.iter().any(|next| next.spri == spri)
}

/// The next number of a group; 1 where it isn't named.
fn number_in(numbers: &[NextNumber], spri: u8) -> u64
    ensures { result ≡ number_in numbers.now spri }
{
    for next in numbers {
        if next.spri == spri {
            return next.number;
        }
    }
    1
}

/// Makes room for one hash more. Room is doubled, so that a group's hashes are moved a few times and not at each one.
fn make_room(pending: &mut Vec<Hash>) -> Result<(), NoMemory>
    requires few { vec_len pending.old < 98 }
    requires room { IsRoom (vec_capacity pending.old) (vec_len pending.old) }
    ensures items { pending.new.items ≡ pending.old.items }
    ensures len { vec_len pending.new ≡ vec_len pending.old }
    ensures some { OnOk result (vec_len pending.new < vec_capacity pending.new) }
    ensures most { OnOk result (IsRoom (vec_capacity pending.new) (vec_len pending.old + 1)) }
    ensures same { OnErr result (vec_capacity pending.new ≡ vec_capacity pending.old) }
{
    let count = pending.len();
    if count < pending.capacity() {
        return Ok(());
    }
    pending.reserve_exact(count.max(1).min(MOST_PENDING - count))?;
    Ok(())
}

impl Slot {
    /// A group that begins with the next number that is named for it, or 1.
    fn from_numbers(alloc: Global, numbers: &[NextNumber], spri: u8) -> Slot
        ensures { result ≡ slot_from numbers.now spri }
    {
        Slot {
            known: names(numbers, spri),
            number: number_in(numbers, spri),
            pending: Vec::new(alloc),
        }
    }

    /// Whether the group was named at the start or given a message.
    pub fn is_known(&self) -> bool
        ensures { result ≡ self.now.known }
    {
        self.known
    }

    /// Its next number.
    pub fn number(&self) -> u64
        ensures { result ≡ self.now.number }
    {
        self.number
    }

    /// The hashes that no block has yet.
    pub fn pending(&self) -> &[Hash]
        ensures { result.now ≡ self.now.pending }
    {
        self.pending.as_slice()
    }

    /// How many runs are made by its hashes that no block has yet: 1 or 0.
    fn pending_runs(&self) -> u64
        ensures { result ≡ (if length self.now.pending == 0 then 0 else 1) }
    {
        if self.pending.as_slice().is_empty() {
            0
        } else {
            1
        }
    }

    /// Takes the hash of its next message. Where memory runs out, it stays as it is.
    fn push(&mut self, hash: Hash) -> Result<(), NoMemory>
        requires number { self.old.number < past_last_number }
        requires few { length self.old.pending < 98 }
        ensures { self.new ≡ (if is_ok result then slot_with self.old (self.old.pending ++ hash ∷ []) else self.old) }
    {
        make_room(&mut self.pending)?;
        self.pending.push_reserved(hash);
        self.known = true;
        self.number += 1;
        Ok(())
    }

    /// Counts its next message, with which all its hashes are in blocks, and frees their room.
    fn close(&mut self)
        requires { self.old.number < past_last_number }
        ensures { self.new ≡ slot_with self.old [] }
    {
        self.clear();
        self.known = true;
        self.number += 1;
    }

    /// Notes that all its hashes are in blocks, and frees their room.
    fn clear(&mut self)
        ensures { self.new ≡ group_flushed self.old }
    {
        self.pending.clear();
        self.pending.shrink_to_fit();
    }
}

/// The groups by SPRI, of which there are 192. Contracts see the list.
#[derive(Drop)]
pub struct Slots {
    slots: Vec<Slot>,
}

impl Model for Slots {
    ghost use Rattle.std.specs.Prelude.{List, ◌≡◌, length};
    ghost use Rattle.ss_origin.specs.State.{GroupState};

    ghost Value = { List GroupState };

    ghost view = { λ s. s.slots.items };

    ghost invariant = { λ s. length s.slots.items ≡ 192 };
}

impl Slots {
    /// Groups with nothing pending, each of which begins with the next number that is named for it, or 1.
    pub fn from_numbers(alloc: Global, numbers: &[NextNumber]) -> Result<Slots, NoMemory>
        ensures { IfOk result (λ s. s ≡ map (slot_from numbers.now) spris) }
    {
        let mut slots = Vec::with_capacity(alloc, 192)?;
        for spri in 0..192u8 {
            slots.push(Slot::from_numbers(alloc, numbers, spri))?;
        }
        Ok(Slots { slots })
    }

    /// The group of an SPRI.
    pub fn slot(&self, spri: u8) -> &Slot
        requires { spri < 192 }
        ensures value { result.now ≡ slot_in self.now spri }
        ensures many { length self.now ≡ 192 }
    {
        &self.slots[usize::from(spri)]
    }

    /// The next numbers of the groups that are known, by rising SPRI.
    pub fn next_numbers(&self, alloc: Global) -> Result<NextNumbers, NoMemory>
        ensures { IfOk result (λ v. v ≡ next_numbers self.now spris) }
    {
        let mut numbers = Vec::new(alloc);
        for spri in 0..192u8 {
            push_known(&mut numbers, spri, self.slot(spri))?;
        }
        Ok(NextNumbers::from_vec(numbers))
    }

    /// How many groups have hashes that no block has yet.
    pub fn pending_groups(&self) -> u64
        ensures { result ≡ length (runs_pending self.now spris) }
    {
        let mut count = 0;
        for spri in 0..192u8 {
            count += self.slot(spri).pending_runs();
        }
        count
    }

    /// Takes the hash of the next message of a group. Where memory runs out, the groups stay as they are.
    pub fn push(&mut self, spri: u8, hash: Hash) -> Result<(), NoMemory>
        requires spri { spri < 192 }
        requires number { (slot_in self.old spri).number < past_last_number }
        requires few { length (slot_in self.old spri).pending < 98 }
        ensures { self.new
            ≡ (if is_ok result
            then slice_set self.old spri (slot_with (slot_in self.old spri) ((slot_in self.old spri).pending ++ hash
            ∷ [])) else self.old) }
    {
        self.slots[usize::from(spri)].push(hash)
    }

    /// Counts the next message of a group, with which all its hashes are in blocks.
    pub fn close(&mut self, spri: u8)
        requires spri { spri < 192 }
        requires number { (slot_in self.old spri).number < past_last_number }
        ensures { self.new ≡ slice_set self.old spri (slot_with (slot_in self.old spri) []) }
    {
        self.slots[usize::from(spri)].close();
    }

    /// Notes that all hashes are in blocks.
    pub fn clear(&mut self)
        ensures { self.new ≡ map group_flushed self.old }
    {
        clear_all(self.slots.as_mut_slice());
    }
}

/// Puts the next number of a group after the others, where it is known.
fn push_known(numbers: &mut Vec<NextNumber>, spri: u8, slot: &Slot) -> Result<(), NoMemory>
    ensures { OnOk result (numbers.new.items ≡ numbers.old.items ++ number_if_known spri slot.now) }
{
    if !slot.is_known() {
        return Ok(());
    }
    let number = slot.number();
    numbers.push(NextNumber { spri, number })?;
    Ok(())
}

/// Notes for each group that all its hashes are in blocks.
fn clear_all(slots: &mut [Slot])
    ensures { slots.new ≡ map group_flushed slots.old }
{
    for slot in slots.iter_mut() {
        slot.clear();
    }
}
