//! The codes of faults printed, each variant once.
use ss_frame::{FrameFault, WriteFault};
use ss_octets::Code;
use std::alloc::{AllocError, Global};
use std::test::Fail;

/// Whether the code is printed so.
fn is_printed(alloc: Global, code: &Code, text: &str) -> Result<bool, AllocError> {
    Ok(format!(in alloc; "{code}")?.as_str() == text)
}

const FRAMES: [(FrameFault, &str); 7] = [
    (FrameFault::BadLength { pos: 0 }, "F1 0"),
    (FrameFault::TooLong { pos: 17 }, "F2 17"),
    (FrameFault::Read, "F3"),
    (FrameFault::Memory, "F4"),
    (
        FrameFault::TooManyMessages { pos: u64::MAX },
        "F5 18446744073709551615",
    ),
    (FrameFault::Failed, "F6"),
    (FrameFault::EmptyLine { pos: 9 }, "F9 9"),
];

const WRITES: [(WriteFault, &str); 2] = [(WriteFault::Write, "F7"), (WriteFault::Empty, "F8")];

#[test]
fn faults(rt: HostRuntime) -> Result<(), Fail> {
    for (fault, code) in &FRAMES {
        assert!(rt; is_printed(rt.alloc(), &fault.code(), code)?, "{code}");
    }
    for (fault, code) in &WRITES {
        assert!(rt; is_printed(rt.alloc(), &fault.code(), code)?, "{code}");
    }
    Ok(())
}
