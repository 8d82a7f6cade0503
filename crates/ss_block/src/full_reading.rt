//! All that a message is found to be, by one parse.
ghost use Rattle.std.specs.Prelude.{◌≡◌, IfOk, IfSome};
ghost use Rattle.ss_block.specs.Reading.{reading};
ghost use Rattle.ss_block.specs.Session.{session};
ghost use Rattle.ss_block.specs.Signed.{signed, IsWithoutSign};

use crate::reading::{Reading, read};
use crate::session::{Session, session_with};
use crate::signed::signed_with;
use ss_octets::{Bytes, NoMemory};
use std::alloc::Global;

/// What a message is, who sent it, and which of its octets are signed.
#[derive(Debug, Drop)]
pub struct FullReading {
    /// What it is, as `classify` gives it.
    pub reading: Reading,
    /// The session of a block, as `session_of` gives it.
    pub session: Option<Session>,
    /// The signed octets of a block, as `signed_bytes` gives them.
    pub signed: Option<Bytes>,
}

/// What the message in `bytes` is, with its session and its signed octets, by one parse.
///
/// Errs only where memory runs out. Memory is taken as `classify`, `session_of` and `signed_bytes` take it, once.
pub fn read_fully(alloc: Global, bytes: &[u8]) -> Result<FullReading, NoMemory>
    ensures reading { IfOk result (λ r. r.reading ≡ reading bytes.now) }
    ensures session { IfOk result (λ r. r.session ≡ session bytes.now) }
    ensures signed { IfOk result (λ r. r.signed ≡ signed bytes.now) }
    ensures split { IfOk result (λ r. IfSome r.signed (λ octets. IsWithoutSign bytes.now octets)) }
{
    let (reading, message) = read(alloc, bytes)?;
    let Some(message) = message else {
        return Ok(FullReading {
            reading,
            session: None,
            signed: None,
        });
    };
    let session = session_with(alloc, &message, &reading)?;
    let signed = signed_with(alloc, &message, &reading)?;
    Ok(FullReading {
        reading,
        session,
        signed,
    })
}
