//! Files of places: the lines of them, made by hand from the format.
use ss_answers::{PlaceFault, read_places};
use ss_frame::Watched;
use ss_octets::Code;
use ss_review::Places;
use std::alloc::Global;
use std::io::ErrorKind;
use std::process::Abort;
use std::test::Fail;
use test_devices::Pieces;

/// Files, and the places that each has.
const FILES: [(&[u8], &[u32]); 7] = [
    (b"", &[]),
    (b"0\n", &[0]),
    (b"9999999\n", &[9_999_999]),
    (b"7\n5\n12\n", &[7, 5, 12]),
    (b"5\n5\n", &[5, 5]),
    (b"10\n2\n10\n", &[10, 2, 10]),
    (b"1\n2\n3\n4\n5\n6\n7\n8\n9\n", &[1, 2, 3, 4, 5, 6, 7, 8, 9]),
];

/// Files, and why each is refused.
const REFUSED: [(&[u8], PlaceFault); 16] = [
    (b"10000000\n", PlaceFault::BadLine { line: 1 }),
    (b"18446744073709551616\n", PlaceFault::BadLine { line: 1 }),
    (b"\n", PlaceFault::BadLine { line: 1 }),
    (b"3\n\n", PlaceFault::BadLine { line: 2 }),
    (b"00\n", PlaceFault::BadLine { line: 1 }),
    (b"1\n07\n", PlaceFault::BadLine { line: 2 }),
    (b"+1\n", PlaceFault::BadLine { line: 1 }),
    (b"-1\n", PlaceFault::BadLine { line: 1 }),
    (b" 1\n", PlaceFault::BadLine { line: 1 }),
    (b"1 \n", PlaceFault::BadLine { line: 1 }),
    (b"1\r\n", PlaceFault::BadLine { line: 1 }),
    (b"1\nunlisted 2\n", PlaceFault::BadLine { line: 2 }),
    (b"x\n5", PlaceFault::BadLine { line: 1 }),
    (b"5", PlaceFault::NotWhole),
    (b"5\n6", PlaceFault::NotWhole),
    (b"5\nx", PlaceFault::NotWhole),
];

/// Each fault, and its code as it is printed.
const FAULTS: [(PlaceFault, &str); 6] = [
    (PlaceFault::BadLine { line: 7 }, "N1 7"),
    (PlaceFault::Read, "N2"),
    (PlaceFault::TooBig, "N3"),
    (PlaceFault::TooMany, "N3"),
    (PlaceFault::NotWhole, "N3"),
    (PlaceFault::Memory, "N4"),
];

fn read(alloc: Global, text: &[u8], max: u32) -> Result<Places, PlaceFault> {
    let mut reader = Watched::new(text);
    read_places(alloc, &mut reader, max)
}

/// The same, once more where memory ran out.
fn read_on(alloc: Global, text: &[u8]) -> Result<Places, PlaceFault> {
    match read(alloc, text, 1000) {
        Err(PlaceFault::Memory) => read(alloc, text, 1000),
        said => said,
    }
}

/// Whether the code is printed so.
fn is_printed(alloc: Global, code: &Code, text: &str) -> bool {
    match format!(in alloc; "{code}") {
        Ok(printed) => printed.as_str() == text,
        Err(_) => false,
    }
}

#[test]
fn prints_faults(rt: HostRuntime) {
    for (fault, code) in &FAULTS {
        assert!(rt; is_printed(rt.alloc(), &fault.code(), code), "{code}");
    }
}

#[test]
fn reads_places_in_their_order(rt: HostRuntime) -> Result<(), Fail> {
    for (text, wanted) in &FILES {
        let places = read(rt.alloc(), text, 1000)?;
        assert_eq!(rt; places.as_slice(), *wanted, "{text:?}");
    }
    Ok(())
}

#[test]
fn refuses(rt: HostRuntime) {
    for (text, fault) in &REFUSED {
        let said = read(rt.alloc(), text, 1000);
        assert_eq!(rt; said.err(), Some(*fault), "{text:?}");
    }
    // A file that is too long comes before a bad line.
    assert_eq!(rt;
        read(rt.alloc(), b"x\n123\n", 5).err(),
        Some(PlaceFault::TooBig)
    );
    assert!(rt; read(rt.alloc(), b"12\n34\n", 6).is_ok());
}

/// Octet by octet, the read of that number fails.
fn sees_a_failed_read(rt: &(impl Abort + AllocGlobal), read: u64, kind: ErrorKind) {
    let text = b"x\n12\n".as_slice();
    let mut reader = Watched::new(Pieces::failing(text, 1, read, kind));
    let said = read_places(rt.alloc(), &mut reader, 1000);
    assert_eq!(rt; said.err(), Some(PlaceFault::Read), "{kind:?} at {read}");
    assert!(rt; reader.failed(), "{kind:?} at {read}");
}

#[test]
fn reports_a_failed_read_before_a_bad_line(rt: HostRuntime) {
    for read in 1..6 {
        sees_a_failed_read(&rt, read, ErrorKind::Interrupted);
        sees_a_failed_read(&rt, read, ErrorKind::PermissionDenied);
    }
}

/// `tests/memory.sh` refuses each allocation of this test in turn, and it passes each time.
#[test]
fn goes_on_after_want_of_memory(rt: HostRuntime) -> Result<(), Fail> {
    for (text, wanted) in &FILES {
        let places = read_on(rt.alloc(), text)?;
        assert_eq!(rt; places.as_slice(), *wanted, "{text:?}");
    }
    for (text, fault) in &REFUSED {
        assert_eq!(rt; read_on(rt.alloc(), text).err(), Some(*fault), "{text:?}");
    }
    Ok(())
}
