//! A sealer that signs nothing.
use ss_block::Payload;
use ss_origin::{SealFault, Seals};
use std::alloc::Global;

/// Gives one octet 0 for whatever is to be signed, in a scheme in which everything is valid: what is signed of a block
/// doesn't depend on its signature, so block messages can be made before there are signatures.
#[derive(Drop)]
pub(crate) struct Blank {
    pub(crate) payload: Payload,
}

impl Seals for Blank {
    ghost use Rattle.std.specs.Prelude.{◌≡◌, true};
    ghost use Rattle.ss_signing.specs.Jobs.{gives_0};

    ghost sound = { λ _. Unit {0} };

    ghost payload = { λ s. s.payload };

    ghost valid = { λ _ text octets signature. true };

    ghost answers = { λ _ octets answer. gives_0 octets answer };

    // It is the same after each question.
    ghost asked = { λ old octets answer new. (new ≡ old) × gives_0 octets answer };

    fn payload_block(&self) -> &Payload {
        &self.payload
    }

    fn seal(&mut self, alloc: Global, _octets: &[u8]) -> Result<Vec<u8>, SealFault> {
        let mut signature = Vec::new(alloc);
        match signature.push(0) {
            Ok(()) => Ok(signature),
            Err(_) => Err(SealFault::Memory),
        }
    }
}
