//! A reader of known octets.
use std::io;
use std::io::{ErrorKind, Read};

/// Gives its octets in pieces, and counts what it gave.
#[derive(Clone, Copy)]
pub struct Pieces<'t> {
    text: &'t [u8],
    rest: &'t [u8],
    most: usize,
    endless: bool,
    failure: Option<(u64, ErrorKind)>,
    /// How many reads there were.
    pub reads: u64,
    /// The most octets that one asked for.
    pub longest: usize,
    /// How many octets they took.
    pub taken: u64,
}

impl<'t> Pieces<'t> {
    /// Gives `text` and ends. A read takes at most `most` octets.
    pub fn new(text: &'t [u8], most: usize) -> Pieces<'t> {
        Pieces {
            text,
            rest: text,
            most,
            endless: false,
            failure: None,
            reads: 0,
            longest: 0,
            taken: 0,
        }
    }

    /// Gives `text` again and again.
    pub fn endless(text: &'t [u8], most: usize) -> Pieces<'t> {
        let mut pieces = Pieces::new(text, most);
        pieces.endless = true;
        pieces
    }

    /// As `new`, but the read of that number, from 1, fails alone.
    pub fn failing(text: &'t [u8], most: usize, read: u64, kind: ErrorKind) -> Pieces<'t> {
        let mut pieces = Pieces::new(text, most);
        pieces.failure = Some((read, kind));
        pieces
    }
}

impl<'t> Read for Pieces<'t> {
    fn read(&mut self, buf: &mut [u8]) -> io::Result<usize> {
        self.reads = self.reads.saturating_add(1);
        self.longest = self.longest.max(buf.len());
        if let Some((read, kind)) = self.failure {
            if self.reads == read {
                return Err(io::Error::from(kind));
            }
        }
        if self.endless && self.rest.is_empty() {
            self.rest = self.text;
        }
        let rest = self.rest;
        let taken = rest.len().min(buf.len()).min(self.most);
        buf[..taken].copy_from_slice(&rest[..taken]);
        self.rest = &rest[taken..];
        self.taken = self.taken.saturating_add(taken as u64);
        Ok(taken)
    }
}
