//! Reads that fail, and memory that runs out.
use crate::frames::asking::Want::{Done, Fault, Message, Torn};
use crate::frames::asking::{Want, are_answers, are_next, limits_of, wants_of};
use ss_frame::{FrameFault, Limits};
use std::alloc::{AllocError, Global};
use std::io::ErrorKind;
use std::test::Fail;
use test_devices::{Cells, Pieces};

const KINDS: [ErrorKind; 3] = [
    ErrorKind::BrokenPipe,
    ErrorKind::Interrupted,
    ErrorKind::UnexpectedEof,
];

/// Streams that are read octet by octet, and of which a read fails: its limits, its octets, and the answers before the
/// read that fails. They come with how many octets are taken before it: from the first number up to below the second,
/// in turn.
const FAILING: [(&[u8], u64, u64); 5] = [
    // In the first frame, and in the second.
    (b"frames|65536|10000000|3 abc3 ab", 0, 5),
    (b"frames|65536|10000000|3 abc3 ab|5|=abc", 5, 10),
    // After the last message.
    (b"frames|3|1|1 a1 b|3|=a", 3, 4),
    // In the first line, and in the second.
    (b"lines|65536|10000000|abc\nab", 0, 4),
    (b"lines|65536|10000000|abc\nab|4|=abc", 4, 6),
];

/// Whether the read after so many octets fails in this way.
fn stops_at(alloc: Global, row: &[u8], taken: u64, kind: ErrorKind) -> Result<bool, AllocError> {
    let mut cells = Cells::new(row);
    let Some(limits) = limits_of(&mut cells) else {
        return Ok(false);
    };
    let pieces = Pieces::failing(cells.octets(), 1, taken.saturating_add(1), kind);
    let Some(mut wants) = wants_of(alloc, cells)? else {
        return Ok(false);
    };
    wants.push((Fault(FrameFault::Read), taken))?;
    Ok(are_answers(alloc, limits, pieces, wants.as_slice()))
}

#[test]
fn stops_at_each_read_that_fails(rt: HostRuntime) -> Result<(), Fail> {
    for (row, from, to) in &FAILING {
        for taken in *from..*to {
            for kind in KINDS {
                let stops = stops_at(rt.alloc(), row, taken, kind)?;
                assert!(rt; stops, "{row:?} at {taken}, {kind:?}");
            }
        }
    }
    Ok(())
}

/// Whether the stream is read so, in pieces of so many octets at most.
fn is_stream(
    alloc: Global,
    limits: Limits,
    stream: &[u8],
    most: &[usize],
    wants: &[(Want<'_>, u64)],
) -> bool {
    for most in most {
        if !are_next(alloc, limits, Pieces::new(stream, *most), wants) {
            return false;
        }
    }
    true
}

fn are_frames(alloc: Global) -> bool {
    let mut stream = [b'x'; 10_011];
    stream[..11].copy_from_slice(b"3 abc10000 ");
    let wants = [
        (Message(b"abc"), 5),
        (Message(&stream[11..]), 10_011),
        (Done, 10_011),
    ];
    let frames = Limits::standard();
    is_stream(alloc, frames, &stream, &[usize::MAX, 1_000], &wants)
}

/// The octets of a line are stored in parts, and the last of them after its LF.
fn are_lines(alloc: Global) -> bool {
    let mut stream = [b'x'; 10_005];
    stream[3] = b'\n';
    stream[10_004] = b'\n';
    let wants = [
        (Message(&stream[..3]), 4),
        (Message(&stream[4..10_004]), 10_005),
        (Done, 10_005),
    ];
    let lines = Limits::standard().lines();
    is_stream(alloc, lines, &stream, &[usize::MAX, 1], &wants)
}

/// Both streams are torn.
fn are_torn(alloc: Global) -> bool {
    let frames = [(Message(b"abc".as_slice()), 5), (Torn(5), 9)];
    let lines = [(Message(b"xxx".as_slice()), 4), (Torn(4), 6)];
    let standard = Limits::standard();
    is_stream(alloc, standard, b"3 abc3 ab", &[usize::MAX, 1], &frames)
        && is_stream(alloc, standard.lines(), b"xxx\nxx", &[1], &lines)
}

/// `tests/memory.sh` refuses each allocation of this test in turn, and it passes each time: after F4 the octets that
/// were taken are kept, and the next call goes on. The other tests take F4 for a wrong answer.
#[test]
fn goes_on_after_want_of_memory(rt: HostRuntime) {
    assert!(rt; are_frames(rt.alloc()));
    assert!(rt; are_lines(rt.alloc()));
    assert!(rt; are_torn(rt.alloc()));
}
