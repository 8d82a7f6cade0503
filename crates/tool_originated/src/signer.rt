//! A sealer that answers as the script orders.
ghost use Rattle.std.specs.Prelude.{true};

use ss_block::{Payload, pair_of};
use ss_origin::{SealFault, Seals};
use std::alloc::{AllocError, Global};
use std::cell::Cell;

/// How often the sealer was asked in this call, and what it has to answer.
#[derive(Drop)]
pub struct Desk {
    asked: Cell<u64>,
    count: Cell<u64>,
    then: Cell<u8>,
}

impl Desk {
    pub(crate) fn new() -> Desk {
        Desk {
            asked: Cell::new(0),
            count: Cell::new(0),
            then: Cell::new(b's'),
        }
    }

    /// From here on a signature of 32 octets, so many times, and then what the letter says.
    pub(crate) fn order(&self, count: u64, then: u8) {
        self.asked.set(0);
        self.count.set(count);
        self.then.set(then);
    }

    /// How often it was asked since its last order.
    pub(crate) fn asked(&self) -> u64 {
        self.asked.get()
    }

    /// The letter for the next seal.
    fn next(&self) -> u8 {
        let asked = self.asked.get();
        self.asked.set(asked.saturating_add(1));
        if asked < self.count.get() {
            b's'
        } else {
            self.then.get()
        }
    }
}

/// Signs for a payload as it stands at the desk.
#[derive(Drop)]
pub struct Signer<'d> {
    pub desk: &'d Desk,
    pub payload: Payload,
}

/// The octets of SHA-256, over and over, so many of them.
fn signature(alloc: Global, octets: &[u8], length: usize) -> Result<Vec<u8>, AllocError> {
    let pair = pair_of(octets);
    let mut signature = Vec::new(alloc);
    for place in 0..length {
        signature.push(pair.sha256[place % 32])?;
    }
    Ok(signature)
}

/// How many octets the signature of a letter has; none where it isn't one.
fn length_of(letter: u8) -> Option<usize> {
    match letter {
        b'0' => Some(0),
        b'1' => Some(1),
        b's' => Some(32),
        b'k' => Some(1_024),
        b'l' => Some(1_025),
        _ => None,
    }
}

impl<'d> Seals for Signer<'d> {
    ghost sound = { λ _. Unit {0} };

    ghost payload = { λ s. s.payload };

    ghost valid = { λ _ _ _ _. true };

    ghost answers = { λ _ _ _. Unit {0} };

    ghost asked = { λ _ _ _ _. Unit {0} };

    fn payload_block(&self) -> &Payload {
        &self.payload
    }

    /// Signs with no octet for `0`, one for `1`, 32 for `s`, 1,024 for `k` and 1,025 for `l`; wants memory for `m`, and
    /// refuses for any other letter.
    fn seal(&mut self, alloc: Global, octets: &[u8]) -> Result<Vec<u8>, SealFault> {
        let letter = self.desk.next();
        let Some(length) = length_of(letter) else {
            return Err(if letter == b'm' {
                SealFault::Memory
            } else {
                SealFault::Refused
            });
        };
        match signature(alloc, octets, length) {
            Ok(signature) => Ok(signature),
            Err(_) => Err(SealFault::Memory),
        }
    }
}
