//! A sealer that has its signatures from an answers file.
ghost use Rattle.std.specs.Prelude.{◌≡◌};
ghost use Rattle.ss_answers.specs.Seals.{file_of, key_of};

use crate::table::Answers;
use ss_block::Payload;
use ss_origin::{SealFault, Seals};
use std::alloc::Global;

/// Gives the signatures of the `seal` lines of an answers file, and refuses octets that none of them has. Without a
/// file it refuses everything.
#[derive(Debug, Drop)]
pub struct GivenSeals {
    answers: Option<Answers>,
    payload: Payload,
}

impl GivenSeals {
    /// Keeps the answers beside the key. Takes no memory.
    pub fn new(answers: Option<Answers>, payload: Payload) -> GivenSeals
        ensures answers { file_of result ≡ answers }
        ensures payload { key_of result ≡ payload }
    {
        GivenSeals { answers, payload }
    }
}

impl Seals for GivenSeals {
    ghost use Rattle.ss_answers.specs.Seals.{is_given, seals_of, asked_of, file_of, key_of};

    ghost sound = { λ _. Unit {0} };

    ghost payload = { key_of };

    ghost valid = { λ s _ octets signature. is_given (file_of s) octets signature };

    ghost answers = { λ s octets answer. seals_of (file_of s) octets answer };

    ghost asked = { λ old octets answer new. asked_of (file_of old) octets answer old new };

    fn payload_block(&self) -> &Payload {
        &self.payload
    }

    fn seal(&mut self, alloc: Global, octets: &[u8]) -> Result<Vec<u8>, SealFault> {
        match &self.answers {
            Some(answers) => answers.seal(alloc, octets),
            None => Err(SealFault::Refused),
        }
    }
}
