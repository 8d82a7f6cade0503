//! A sealer that writes a plan.
ghost use Rattle.std.specs.Prelude.{◌≡◌, ◌++◌, OnOk};
ghost use Rattle.ss_signing.specs.Wants.{want_line};

use crate::blank::Blank;
use crate::text::Text;
use base64::engine::general_purpose::STANDARD;
use ss_block::Payload;
use ss_origin::{SealFault, Seals};
use std::alloc::{AllocError, Global};

/// Signs as `Blank` does, and writes a line `want` for the octets that it is asked to sign. So a plan needs no block
/// message to be read again.
#[derive(Drop)]
pub(crate) struct WantWriter {
    pub(crate) blank: Blank,
    /// The lines, each ended by LF.
    pub(crate) lines: Text,
}

impl Seals for WantWriter {
    ghost use Rattle.std.specs.Prelude.{true};
    ghost use Rattle.ss_signing.specs.Jobs.{gives_0, writes_want};

    ghost sound = { λ _. Unit {0} };

    ghost payload = { λ s. s.blank.payload };

    ghost valid = { λ _ text octets signature. true };

    ghost answers = { λ _ octets answer. gives_0 octets answer };

    // When it gave a signature, the line of the octets stands after its lines.
    ghost asked = { writes_want (λ s. s.lines) };

    fn payload_block(&self) -> &Payload {
        self.blank.payload_block()
    }

    fn seal(&mut self, alloc: Global, octets: &[u8]) -> Result<Vec<u8>, SealFault> {
        let signature = self.blank.seal(alloc, octets)?;
        match put_want_line(alloc, &mut self.lines, octets) {
            Ok(()) => Ok(signature),
            Err(_) => Err(SealFault::Memory),
        }
    }
}

/// want OCTETS, with the octets in strict base64.
#[tactic(auto, unfolding(ss_octets::specs::StrictBase64::base64))]
fn put_want_line(alloc: Global, text: &mut Text, octets: &[u8]) -> Result<(), AllocError>
    ensures { OnOk result (text.new ≡ text.old ++ want_line octets.now) }
{
    let encoded = STANDARD.encode(alloc, octets)?;
    text.put(b"want ")?;
    text.put(encoded.as_bytes())?;
    text.put(b"\n")
}
