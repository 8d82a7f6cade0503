//! Stamps at the edges of their ranges.
use ss_message::{Offset, Stamp, write_stamp};
use ss_octets::NoMemory;
use std::alloc::Global;
use std::test::Fail;

/// The year; month, day, hour, minute and second; how many digits a fraction has, and the number that they spell.
type Numbers = (u16, [u8; 5], (u8, u32));

/// What a stamp is made of, and its text where it is in the ranges.
const MADE: [(Numbers, Offset, Option<&[u8]>); 10] = [
    (
        (2009, [5, 3, 14, 0, 39], (0, 0)),
        Offset::Utc,
        Some(b"2009-05-03T14:00:39Z"),
    ),
    (
        (3, [1, 2, 4, 5, 6], (4, 7)),
        Offset::Minus(8, 9),
        Some(b"0003-01-02T04:05:06.0007-08:09"),
    ),
    ((10000, [5, 3, 14, 0, 39], (0, 0)), Offset::Utc, None),
    ((2009, [5, 3, 14, 0, 39], (7, 0)), Offset::Utc, None),
    ((2009, [5, 3, 14, 0, 39], (0, 1)), Offset::Utc, None),
    ((2009, [5, 3, 14, 0, 39], (2, 100)), Offset::Utc, None),
    (
        (2009, [5, 3, 14, 0, 39], (2, 99)),
        Offset::Utc,
        Some(b"2009-05-03T14:00:39.99Z"),
    ),
    ((2009, [2, 30, 14, 0, 39], (0, 0)), Offset::Utc, None),
    ((2009, [5, 3, 14, 0, 39], (0, 0)), Offset::Plus(24, 0), None),
    (
        (2009, [5, 3, 14, 0, 39], (0, 0)),
        Offset::Minus(0, 60),
        None,
    ),
];

fn stamp_of(numbers: Numbers, offset: Offset) -> Option<Stamp> {
    let (year, [month, day, hour, minute, second], (digits, fraction)) = numbers;
    Stamp::new(
        year, month, day, hour, minute, second, digits, fraction, offset,
    )
}

/// Whether the stamp is there where there is a text, and is written so.
fn is_written(alloc: Global, stamp: Option<Stamp>, text: Option<&[u8]>) -> Result<bool, NoMemory> {
    match (stamp, text) {
        (Some(stamp), Some(text)) => {
            stamp.assure_in_range();
            Ok(write_stamp(alloc, &stamp)?.as_slice() == text)
        }
        (None, None) => Ok(true),
        _ => Ok(false),
    }
}

#[test]
fn made(rt: HostRuntime) -> Result<(), Fail> {
    for (numbers, offset, text) in &MADE {
        let stamp = stamp_of(*numbers, *offset);
        assert!(rt;
            is_written(rt.alloc(), stamp, *text)?,
            "{numbers:?} {offset:?}"
        );
    }
    Ok(())
}
