//! A scheme in which everything is valid, and who seals and judges in it.
ghost use Rattle.std.specs.Prelude.{true};

use ss_block::Scheme;
use ss_origin::SealFault;
use ss_review::Judge;
use std::alloc::Global;

/// Everything is trusted and valid.
pub struct Lenient;

impl Scheme for Lenient {
    ghost trusted = { λ _ _. true };

    ghost valid = { λ _ _ _ _. true };
}

impl Judge for Lenient {
    ghost sound = { λ _. Unit {0} };

    ghost askable = { λ _ _. Unit {0} };

    ghost trusted = { λ _ _. true };

    ghost valid = { λ _ _ _ _. true };

    fn trusts(&self, _payload: &[u8]) -> bool {
        true
    }

    fn accepts(&self, _payload: &[u8], _octets: &[u8], _signature: &[u8]) -> bool {
        true
    }
}

/// What a sealer answers: three octets 0, but where it says otherwise.
#[derive(Clone, Copy, Debug)]
pub enum Seal {
    Zeros,
    /// One octet 0.
    Zero,
    /// A signature without an octet, for octets with this end.
    EmptyFor(&'static [u8]),
    /// A fault, for octets with this end.
    FaultFor(SealFault, &'static [u8]),
}

/// Whether the octets end so.
fn ends_so(octets: &[u8], end: &[u8]) -> bool {
    match octets.len().checked_sub(end.len()) {
        Some(start) => &octets[start..] == end,
        None => false,
    }
}

/// Answers so.
pub(crate) fn answer(alloc: Global, seal: Seal, octets: &[u8]) -> Result<Vec<u8>, SealFault> {
    match seal {
        Seal::EmptyFor(end) if ends_so(octets, end) => return Ok(Vec::new(alloc)),
        Seal::FaultFor(fault, end) if ends_so(octets, end) => return Err(fault),
        Seal::Zeros | Seal::Zero | Seal::EmptyFor(_) | Seal::FaultFor(..) => {}
    }
    let octets = match seal {
        Seal::Zero => b"\0".as_slice(),
        _ => b"\0\0\0",
    };
    match Vec::from_slice(alloc, octets) {
        Ok(signature) => Ok(signature),
        Err(_) => Err(SealFault::Memory),
    }
}
