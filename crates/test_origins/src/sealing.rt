//! A scheme in which each signature is valid, and what its sealer answers.
ghost use Rattle.std.specs.Prelude.{true};

use ss_block::{Payload, Scheme};
use ss_origin::{SealFault, Seals};
use std::alloc::{AllocError, Global};

/// Everything is trusted and valid.
#[derive(Clone, Copy)]
pub struct Lenient;

impl Scheme for Lenient {
    ghost trusted = { λ _ _. true };

    ghost valid = { λ _ _ _ _. true };
}

/// What a sealer answers.
#[derive(Clone, Copy, Debug)]
pub enum Seal {
    /// A signature of so many octets 0.
    Zeros(usize),
    Refused,
    Memory,
}

fn zeros(alloc: Global, count: usize) -> Result<Vec<u8>, AllocError> {
    let mut zeros = Vec::new(alloc);
    for _ in 0..count {
        zeros.push(0u8)?;
    }
    Ok(zeros)
}

/// Answers so.
pub(crate) fn answer(alloc: Global, seal: Seal) -> Result<Vec<u8>, SealFault> {
    match seal {
        Seal::Refused => Err(SealFault::Refused),
        Seal::Memory => Err(SealFault::Memory),
        Seal::Zeros(count) => match zeros(alloc, count) {
            Ok(signature) => Ok(signature),
            Err(_) => Err(SealFault::Memory),
        },
    }
}

/// The count of a sealer that wasn't asked yet. No other one has it, so the sealer with it is the one that was given.
pub const COUNT: u64 = 1_000;

/// Signs nothing, and counts on what it is asked.
#[derive(Drop)]
pub struct Counting {
    pub payload: Payload,
    pub count: u64,
}

impl Seals for Counting {
    ghost sound = { λ _. Unit {0} };

    ghost payload = { λ s. s.payload };

    ghost valid = { λ _ _ _ _. true };

    ghost answers = { λ _ _ _. Unit {0} };

    ghost asked = { λ _ _ _ _. Unit {0} };

    fn payload_block(&self) -> &Payload {
        &self.payload
    }

    fn seal(&mut self, _alloc: Global, _octets: &[u8]) -> Result<Vec<u8>, SealFault> {
        self.count = self.count.saturating_add(1);
        Err(SealFault::Refused)
    }
}
