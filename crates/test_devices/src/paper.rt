//! A writer whose octets are known.
ghost use Rattle.std.specs.Prelude.{◌≤◌};

use std::io;
use std::io::{ErrorKind, Write};

/// What the write of a number answers in place of taking octets.
#[derive(Clone, Copy, Debug)]
pub enum Refusal {
    /// An error.
    Error(ErrorKind),
    /// That it took no octet.
    Nothing,
}

/// Keeps up to 1,024 octets without taking memory, and counts its writes.
#[derive(Clone, Copy)]
pub struct Paper {
    text: [u8; 1024],
    len: usize,
    most: usize,
    refusal: Option<(u64, Refusal)>,
    flush_fails: bool,
    /// How many writes there were.
    pub writes: u64,
    ghost fits: { len ≤ 1024 },
}

impl Paper {
    /// A write takes at most `most` octets.
    pub fn new(most: usize) -> Paper {
        Paper {
            text: [0; 1024],
            len: 0,
            most,
            refusal: None,
            flush_fails: false,
            writes: 0,
        }
    }

    /// As `new`, but the write of that number, from 1, is refused alone.
    pub fn refusing(most: usize, write: u64, refusal: Refusal) -> Paper {
        let mut paper = Paper::new(most);
        paper.refusal = Some((write, refusal));
        paper
    }

    /// As `new`, but each flush fails.
    pub fn failing_at_flush(most: usize) -> Paper {
        let mut paper = Paper::new(most);
        paper.flush_fails = true;
        paper
    }

    /// What it took.
    pub fn text(&self) -> &[u8] {
        &self.text[..self.len]
    }
}

impl Write for Paper {
    fn write(&mut self, buf: &[u8]) -> io::Result<usize> {
        self.writes = self.writes.saturating_add(1);
        if let Some((write, refusal)) = self.refusal {
            if self.writes == write {
                return match refusal {
                    Refusal::Error(kind) => Err(io::Error::from(kind)),
                    Refusal::Nothing => Ok(0),
                };
            }
        }
        let taken = buf.len().min(self.most).min(1024 - self.len);
        let end = self.len + taken;
        self.text[self.len..end].copy_from_slice(&buf[..taken]);
        self.len = end;
        Ok(taken)
    }

    fn flush(&mut self) -> io::Result<()> {
        if self.flush_fails {
            return Err(io::Error::from(ErrorKind::StorageFull));
        }
        Ok(())
    }
}
