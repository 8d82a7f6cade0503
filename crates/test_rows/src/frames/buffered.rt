//! A buffered reader, one of whose reads fails.
use crate::frames::asking::{Want, is_next};
use ss_frame::{Buffered, FrameFault, FrameReader, Limits, Watched};
use std::alloc::{AllocError, Global};
use std::io;
use std::io::{ErrorKind, Read};
use std::test::Fail;
use test_devices::Pieces;

/// Passes each read on to the pieces.
#[derive(Drop)]
struct Lent<'p, 't> {
    pieces: &'p mut Pieces<'t>,
}

impl<'p, 't> Read for Lent<'p, 't> {
    fn read(&mut self, buf: &mut [u8]) -> io::Result<usize> {
        self.pieces.read(buf)
    }
}

/// A stream of two units whose message is `abc`, and where each of them ends.
#[derive(Drop)]
struct Row {
    limits: Limits,
    stream: &'static [u8],
    ends: [u64; 2],
}

/// Whether the next answer is this fault, after a read that has failed where it isn't the read's own.
fn is_fault<R: Read>(frames: &mut FrameReader, reader: &mut Watched<R>, want: FrameFault) -> bool {
    let had_failed = reader.failed();
    if had_failed && !frames.failed() {
        return false;
    }
    let answer = frames.next_frame(reader);
    had_failed == matches!(want, FrameFault::Failed)
        && Want::Fault(want).is_given(&answer)
        && reader.failed()
        && frames.failed()
}

/// Whether the units of `row` are read up to the octets that come before the read that fails. All of them are used, and
/// the fault is reported once.
fn is_read(alloc: Global, row: &Row, lent: Lent<'_, '_>, came: u64) -> Result<bool, AllocError> {
    let mut reader = Watched::new(Buffered::new(alloc, lent)?);
    let mut frames = FrameReader::new(alloc, row.limits);
    for end in row.ends {
        if end <= came && !is_next(&mut frames, &mut reader, Want::Message(b"abc"), end) {
            return Ok(false);
        }
    }
    for want in [FrameFault::Read, FrameFault::Failed, FrameFault::Failed] {
        if !is_fault(&mut frames, &mut reader, want) {
            return Ok(false);
        }
    }
    Ok(frames.offset() == came)
}

/// Whether the units of `row` are read so through a buffer. Each read of the buffer takes at most `most` octets, and
/// the read of the number `read`, from 1, fails. Nothing is read after it. A read that the stream doesn't need is
/// passed over.
fn fails_at(
    alloc: Global,
    row: &Row,
    most: u64,
    read: u64,
    kind: ErrorKind,
) -> Result<bool, AllocError> {
    let size = row.stream.len() as u64;
    if read > 1 && size <= read.saturating_sub(2).saturating_mul(most) {
        return Ok(true);
    }
    let came = size.min(read.saturating_sub(1).saturating_mul(most));
    let mut pieces = Pieces::failing(row.stream, most as usize, read, kind);
    let lent = Lent {
        pieces: &mut pieces,
    };
    let is_read = is_read(alloc, row, lent, came)?;
    Ok(is_read && pieces.reads == read && pieces.taken == came)
}

#[test]
fn a_read_that_fails_behind_a_buffer_is_told_once(rt: HostRuntime) -> Result<(), Fail> {
    let limits = Limits::standard();
    let rows = [
        Row {
            limits,
            stream: b"3 abc3 abc",
            ends: [5, 10],
        },
        Row {
            limits: limits.lines(),
            stream: b"abc\nabc\n",
            ends: [4, 8],
        },
    ];
    for row in &rows {
        for most in [1, 2, 3, 5, 100_000] {
            for read in 1..12 {
                for kind in [ErrorKind::Interrupted, ErrorKind::Other] {
                    let fails = fails_at(rt.alloc(), row, most, read, kind)?;
                    assert!(rt; fails, "{kind:?} at {read}, {most} octets at most");
                }
            }
        }
    }
    Ok(())
}
