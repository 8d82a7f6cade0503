//! Logs of which some octets are damaged.
use crate::asking::{Want, ask_all};
use ss_frame::{FrameFault, Limits};
use std::alloc::{AllocError, AllocGlobal};
use std::io::ErrorKind;
use std::process::Abort;
use test_devices::Pieces;

/// A log, the longest message and the most messages that are allowed, and what is read of it.
type Row<'r> = (&'r str, &'r [u8], u32, u32, &'r [Want<'r>]);

/// A row, read as a whole, in threes and octet by octet.
fn check(rt: &(impl Abort + AllocGlobal), row: Row<'_>) {
    let (name, log, max_len, max_messages, wants) = row;
    let limits = Limits::new(max_len, max_messages).expect(rt, name);
    for most in [65_536, 3, 1] {
        ask_all(rt, name, limits, Pieces::new(log, most), wants);
    }
}

const A: Want<'static> = Want::Message(b"<13>1 a");

const B: Want<'static> = Want::Message(b"<13>1 b");

#[test]
fn damaged_logs(rt: HostRuntime) {
    let rows: [Row<'_>; 21] = [
        ("empty", b"", 99, 9, &[Want::Done]),
        ("whole", b"7 <13>1 a7 <13>1 b", 99, 9, &[A, B, Want::Done]),
        (
            "an octet put in",
            b"7 <13>1 aX7 <13>1 b",
            99,
            9,
            &[A, Want::Damaged(9, 1), B, Want::Done],
        ),
        (
            "a digit changed",
            b"8 <13>1 a7 <13>1 b",
            99,
            9,
            &[Want::Damaged(0, 9), B, Want::Done],
        ),
        ("torn", b"7 <13>1 a7 <13>", 99, 9, &[A, Want::Torn(9)]),
        (
            "torn after damage",
            b"X7 <13>1 a7 <13>",
            99,
            9,
            &[Want::Damaged(0, 1), A, Want::Damaged(10, 6), Want::Done],
        ),
        (
            "no log",
            b"a picture",
            99,
            9,
            &[Want::Damaged(0, 9), Want::Done],
        ),
        (
            "no head",
            b"X1 a",
            99,
            9,
            &[Want::Damaged(0, 4), Want::Done],
        ),
        (
            "a frame in a text",
            b"15 <13>1 7 <13>1 a7 <13>1 b",
            99,
            9,
            &[Want::Message(b"<13>1 7 <13>1 a"), B, Want::Done],
        ),
        (
            "and after damage",
            b"X15 <13>1 7 <13>1 a7 <13>1 b",
            99,
            9,
            &[Want::Damaged(0, 10), A, B, Want::Done],
        ),
        (
            "an LF after each frame",
            b"7 <13>1 a\n7 <13>1 b\n7 <13>1 a\n",
            99,
            9,
            &[
                A,
                Want::Damaged(9, 1),
                B,
                Want::Damaged(19, 1),
                A,
                Want::Damaged(29, 1),
                Want::Done,
            ],
        ),
        (
            "a CR LF after each frame",
            b"7 <13>1 a\r\n7 <13>1 b\r\n",
            99,
            9,
            &[A, Want::Damaged(9, 2), B, Want::Damaged(20, 2), Want::Done],
        ),
        (
            "an LF after the last frame",
            b"7 <13>1 a7 <13>1 b\n",
            99,
            9,
            &[A, B, Want::Damaged(18, 1), Want::Done],
        ),
        (
            "two LFs after each frame",
            b"7 <13>1 a\n\n7 <13>1 b\n\n7 <13>1 a\n\n",
            99,
            9,
            &[A, Want::Damaged(9, 24), Want::Done],
        ),
        (
            "a CR after each frame",
            b"7 <13>1 a\r7 <13>1 b\r",
            99,
            9,
            &[A, Want::Damaged(9, 11), Want::Done],
        ),
        (
            "a CR at the end",
            b"X7 <13>1 a\r",
            99,
            9,
            &[Want::Damaged(0, 11), Want::Done],
        ),
        (
            "a space after each frame",
            b"7 <13>1 a 7 <13>1 b ",
            99,
            9,
            &[A, Want::Damaged(9, 11), Want::Done],
        ),
        (
            "a frame and an LF in a text",
            b"19 <13>1 7 <13>1 a\n7 <7 <13>1 b",
            99,
            9,
            &[Want::Message(b"<13>1 7 <13>1 a\n7 <"), B, Want::Done],
        ),
        (
            "and an LF after it",
            b"19 <13>1 7 <13>1 a\n7 <\n7 <13>1 b\n",
            99,
            9,
            &[
                Want::Damaged(0, 9),
                A,
                Want::Damaged(18, 5),
                B,
                Want::Damaged(32, 1),
                Want::Done,
            ],
        ),
        (
            "too long",
            b"7 <13>1 a",
            6,
            9,
            &[Want::Damaged(0, 9), Want::Done],
        ),
        (
            "too many",
            b"7 <13>1 aX",
            99,
            1,
            &[A, Want::Fault(FrameFault::TooManyMessages { pos: 9 })],
        ),
    ];
    for row in rows {
        check(&rt, row);
    }
}

/// Five hundred NULs between two messages, through a window of 85 octets.
#[test]
fn many_octets(rt: HostRuntime) -> Result<(), AllocError> {
    let mut log = b"7 <13>1 a".to_vec(rt.alloc())?;
    for _ in 0..500 {
        log.push(0)?;
    }
    log.extend_from_slice(b"7 <13>1 b")?;
    let wants = [A, Want::Damaged(9, 500), B, Want::Done];
    check(&rt, ("many", log.as_slice(), 7, 9, &wants));
    Ok(())
}

/// A read that fails ends the log, whichever it is.
#[test]
fn failing_reads(rt: HostRuntime) {
    let limits = Limits::new(7, 3).expect(&rt, "limits");
    let log = b"X7 <13>1 a7 <13>1 b";
    let failed = Want::Fault(FrameFault::Read);
    let one = Pieces::failing(log, 19, 1, ErrorKind::Other);
    ask_all(&rt, "the first read", limits, one, &[failed]);
    let end = Pieces::failing(log, 19, 2, ErrorKind::Other);
    ask_all(&rt, "the second read", limits, end, &[failed]);
    let endless = Pieces::endless(b"7 <13>1 a", 9);
    let crowded = Want::Fault(FrameFault::TooManyMessages { pos: 27 });
    ask_all(&rt, "endless", limits, endless, &[A, A, A, crowded]);
}
