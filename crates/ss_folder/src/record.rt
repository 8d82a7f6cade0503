//! A list of calls that only clauses read.
ghost use Rattle.std.specs.Prelude.{◌≡◌, ◌⊎◌, ◌≤◌, List, [], ◌∷◌, IfOk};
ghost use Rattle.std.specs.Borrow.{ftrue};
ghost use Rattle.ss_journal.specs.declared.disk.JournalError.TheVariants as errors;
ghost use Rattle.ss_folder.specs.Events as events;

use ss_journal::{JournalError, Look};
use std::io;
use std::io::ErrorKind;
use std::marker::{Model, PhantomData};

// The numbers of the calls, as `call_of` reads them.
const LOOK: u64 = 0;

const SETTLE: u64 = 1;

const DIGEST: u64 = 2;

pub(crate) const CREATE: u64 = 3;

pub(crate) const SYNC_NAMES: u64 = 4;

pub(crate) const APPEND: u64 = 5;

pub(crate) const CUT: u64 = 6;

pub(crate) const SET_ASIDE: u64 = 7;

pub(crate) const SYNC: u64 = 8;

/// The calls so far, with their answers, the newest first.
#[derive(Drop)]
pub(crate) struct Record {
    marker: PhantomData<u8>,
    pub ghost notes: { List events.Note },
}

impl Model for Record {
    ghost also_owns = { λ _. ftrue };
}

impl Record {
    pub(crate) fn new() -> Record
        ensures { result.notes ≡ [] }
    {
        Record {
            marker: PhantomData,
        }
    }

    /// Notes a call by its numbers and octets, as `event_of` reads them.
    fn note(&mut self, _numbers: &[u64], _octets: &[u8])
        ensures { self.new.notes ≡ (_numbers.now, _octets.now) ∷ self.old.notes }
    {}

    /// Notes a call that shows nothing.
    pub(crate) fn conclude(
        &mut self,
        answer: io::Result<()>,
        call: u64,
        name: u64,
        size: u64,
        octets: &[u8],
    ) -> Result<(), JournalError>
        ensures { events.IsNoted result (λ _. events.call_of call name size octets.now) (events.call_of call name size octets.now)
            (events.events_of self.old.notes) (events.events_of self.new.notes) }
    {
        match answer {
            Ok(()) => {
                self.note(&[call, 1, name, size], octets);
                Ok(())
            }
            Err(error) => {
                self.note(&[call, 0, name, size], octets);
                Err(error_of(&error))
            }
        }
    }

    /// Notes a look.
    pub(crate) fn looked(&mut self, answer: io::Result<Look>) -> Result<Look, JournalError>
        ensures noted { events.IsNoted result (λ look. events.look look.top) (events.look 0)
            (events.events_of self.old.notes) (events.events_of self.new.notes) }
        ensures shown { IfOk result (λ look. IfOk answer (λ shown. look ≡ shown)) }
        ensures written { IfOk answer (λ look. look.written ≤ look.top) → IfOk result (λ look. look.written ≤ look.top) }
    {
        match answer {
            Ok(look) => {
                self.note(&[LOOK, 1, look.top, 0], &[]);
                Ok(look)
            }
            Err(error) => {
                self.note(&[LOOK, 0, 0, 0], &[]);
                Err(error_of(&error))
            }
        }
    }

    /// Notes that a file was settled.
    pub(crate) fn settled(
        &mut self,
        answer: io::Result<Vec<u8>>,
        name: u64,
    ) -> Result<Vec<u8>, JournalError>
        ensures noted { events.IsNoted result (λ octets. events.settle name octets.items) (events.settle name [])
            (events.events_of self.old.notes) (events.events_of self.new.notes) }
    {
        match answer {
            Ok(octets) => {
                self.note(&[SETTLE, 1, name, 0], &octets);
                Ok(octets)
            }
            Err(error) => {
                self.note(&[SETTLE, 0, name, 0], &[]);
                Err(error_of(&error))
            }
        }
    }

    /// Notes the sum of a file.
    pub(crate) fn digested(
        &mut self,
        answer: io::Result<[u8; 32]>,
        name: u64,
    ) -> Result<[u8; 32], JournalError>
        ensures noted { events.IsNoted result (λ sum. events.digest name sum) (events.digest name [])
            (events.events_of self.old.notes) (events.events_of self.new.notes) }
    {
        match answer {
            Ok(sum) => {
                self.note(&[DIGEST, 1, name, 0], &sum);
                Ok(sum)
            }
            Err(error) => {
                self.note(&[DIGEST, 0, name, 0], &[]);
                Err(error_of(&error))
            }
        }
    }
}

/// What a failed call comes to: out of memory, or else the disk has failed.
pub(crate) fn error_of(error: &io::Error) -> JournalError
    ensures { (result ≡ errors.Memory) ⊎ (result ≡ errors.Failed) }
{
    if error.kind() == ErrorKind::OutOfMemory {
        JournalError::Memory
    } else {
        JournalError::Failed
    }
}
