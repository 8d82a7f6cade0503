//! Answers of the engine, each a frame whose first octet is its kind.
ghost use Rattle.std.specs.Prelude.{◌≡◌, ◌++◌, ◌∷◌, [], ◌<◌, IfOk, OnOk, decimal};
ghost use Rattle.ss_octets.specs.Ascii.{sp};
ghost use Rattle.hex.specs.Hex.{encode_lower};
ghost use Rattle.ss_live.specs.Texts.{answer_text, word_of};

use ss_octets::{Bytes, put_number};
use std::alloc::{AllocError, Global};

/// Why an event is refused.
#[derive(Clone, Copy, Debug, PartialEq, Eq)]
pub enum Reason {
    /// No event is spelled so.
    Event,
    /// The message can't be a record.
    Message,
    /// The message is none of RFC 5424, or a block.
    Own,
    /// The event was given already, and what it asks for is under way.
    Busy,
    /// Nothing is to be signed.
    Nothing,
    /// The signature can't be one.
    Signature,
}

impl Reason {
    /// The word for it.
    pub fn word(self) -> &'static [u8]
        ensures { result.now ≡ word_of self }
    {
        match self {
            Reason::Event => b"event",
            Reason::Message => b"message",
            Reason::Own => b"own",
            Reason::Busy => b"busy",
            Reason::Nothing => b"nothing",
            Reason::Signature => b"signature",
        }
    }
}

/// What the engine answers.
#[derive(Debug, Drop)]
pub enum Answer {
    /// `c N`: so many messages of this run are on the disk.
    Confirmed(u64),
    /// `r REASON`: the event was refused, and nothing has changed.
    Refused(Reason),
    /// `w` OCTETS: what the holder of the key has to sign.
    Want(Bytes),
    /// `d NUMBER GBC`: all that waited is signed. These are the next ones of the session.
    Done(u64, u64),
    /// `p NAME COUNT`: so many messages of the file before have no block.
    Pending(u64, u64),
    /// `e NAME SHA256`: the file is closed.
    Ended(u64, [u8; 32]),
    /// `b NAME`: the file is begun.
    Begun(u64),
}

/// Puts the octets in hexadecimal, in small letters.
pub(crate) fn put_hex(alloc: Global, out: &mut Vec<u8>, octets: &[u8]) -> Result<(), AllocError>
    ensures { OnOk result (out.new.items ≡ out.old.items ++ encode_lower octets.now) }
{
    let digits = hex::encode(alloc, octets)?;
    out.extend_from_slice(digits.as_bytes())
}

/// Puts SP and a number.
fn put_spaced(out: &mut Vec<u8>, number: u64) -> Result<(), AllocError>
    ensures { OnOk result (out.new.items ≡ out.old.items ++ (sp ∷ decimal number)) }
{
    out.push(b' ')?;
    put_number(out, number)
}

impl Answer {
    /// The octets of its frame.
    pub fn text(&self, alloc: Global) -> Result<Vec<u8>, AllocError>
        ensures { IfOk result (λ t. t.items ≡ answer_text self.now) }
    {
        let mut out = Vec::new(alloc);
        match self {
            Answer::Confirmed(count) => {
                out.push(b'c')?;
                put_spaced(&mut out, *count)?;
            }
            Answer::Refused(reason) => {
                out.extend_from_slice(b"r ")?;
                out.extend_from_slice(reason.word())?;
            }
            Answer::Want(octets) => {
                out.push(b'w')?;
                out.extend_from_slice(octets.as_slice())?;
            }
            Answer::Done(number, gbc) => {
                out.push(b'd')?;
                put_spaced(&mut out, *number)?;
                put_spaced(&mut out, *gbc)?;
            }
            Answer::Pending(name, count) => {
                out.push(b'p')?;
                put_spaced(&mut out, *name)?;
                put_spaced(&mut out, *count)?;
            }
            Answer::Ended(name, sum) => {
                out.push(b'e')?;
                put_spaced(&mut out, *name)?;
                out.push(b' ')?;
                put_hex(alloc, &mut out, sum)?;
            }
            Answer::Begun(name) => {
                out.push(b'b')?;
                put_spaced(&mut out, *name)?;
            }
        }
        Ok(out)
    }
}
