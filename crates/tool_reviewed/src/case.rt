//! A log, and what a signature checker says of it.
use crate::answers::{Answers, Signed};
use std::alloc::{AllocError, Global};

/// A log that is being read, with the answers of its checker.
#[derive(Drop)]
pub struct Case<'a> {
    pub answers: Answers<'a>,
    pub messages: Vec<&'a [u8]>,
    // Of the signature that comes next.
    payload: &'a [u8],
    octets: &'a [u8],
}

impl<'a> Case<'a> {
    /// A log without messages, and a checker who says no to everything.
    pub(crate) fn new(alloc: Global) -> Case<'a> {
        Case {
            answers: Answers {
                trusted: Vec::new(alloc),
                signed: Vec::new(alloc),
            },
            messages: Vec::new(alloc),
            payload: b"",
            octets: b"",
        }
    }

    /// Takes a frame of this kind. Kinds that the head of `main.rt` doesn't list are passed over.
    pub(crate) fn add(&mut self, kind: u8, octets: &'a [u8]) -> Result<(), AllocError> {
        match kind {
            b'm' => self.messages.push(octets)?,
            b't' => self.answers.trusted.push(octets)?,
            b'p' => self.payload = octets,
            b'o' => self.octets = octets,
            b's' => self.answers.signed.push(Signed {
                payload: self.payload,
                octets: self.octets,
                signature: octets,
            })?,
            _ => {}
        }
        Ok(())
    }
}
