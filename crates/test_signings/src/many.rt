//! A log of ten thousand messages, signed and reviewed.
use crate::run::{Job, Task, run_by};
use crate::sealing::{Lenient, Seal};
use ss_frame::{Form, Limits, Watched};
use ss_octets::put_number;
use ss_report::{Verdict, run_review};
use std::alloc::{AllocError, Global};
use std::process::Abort;
use std::test::Fail;

/// A line for each message: a header, and its place as MSG.
fn log(alloc: Global) -> Result<Vec<u8>, AllocError> {
    let mut log = Vec::new(alloc);
    for place in 0..10_000u64 {
        log.extend_from_slice(b"<13>1 - - - - - - ")?;
        put_number(&mut log, place)?;
        log.extend_from_slice(b"\n")?;
    }
    Ok(log)
}

fn signed(rt: &(impl Abort + AllocGlobal), log: &[u8]) -> Vec<u8> {
    let mut reader = Watched::new(log);
    let mut writer = Watched::new(Vec::new(rt.alloc()));
    let task = Task {
        job: Job::Sign(Seal::Zeros),
        start: None,
        sizes: (99, 1),
        out: Form::Frames,
        wrap: false,
        limits: Limits::standard().lines(),
    };
    let said = run_by(rt.alloc(), &task, &mut reader, &mut writer);
    assert_eq!(rt; said, Ok(()));
    writer.into_inner()
}

fn reviewed(rt: &(impl Abort + AllocGlobal), frames: &[u8]) -> Vec<u8> {
    let mut reader = Watched::new(frames);
    let mut writer = Watched::new(Vec::new(rt.alloc()));
    let limits = Limits::standard();
    let said = run_review(rt.alloc(), &mut reader, &mut writer, &Lenient, limits);
    assert_eq!(rt; said, Ok(Verdict::Clean));
    writer.into_inner()
}

/// Blocks of 99 hashes. The log is signed as lines, and reviewed as the frames that are written.
#[test]
fn signs_what_is_reviewed(rt: HostRuntime) -> Result<(), Fail> {
    let log = log(rt.alloc())?;
    let signed = signed(&rt, log.as_slice());
    let report = reviewed(&rt, signed.as_slice());
    assert!(rt; report.as_slice().ends_with(b"\nend 10103\n"));
    Ok(())
}
