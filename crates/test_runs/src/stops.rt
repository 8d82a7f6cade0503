//! Runs that stop for their limits, for a device or for memory: nothing is written then but by a write that failed.
use crate::book::{Job, Who};
use crate::inspections::STOPS;
use crate::rows::{CARRIED, EXTRACT, QUESTIONS, QUESTIONS_ONCE, REPORT};
use crate::run::{Done, Task, limits_of, run};
use crate::texts::{Text, log_of};
use ss_frame::{Buffered, Form, FrameFault, Limits};
use ss_octets::Code;
use ss_report::{ExtractFault, RunFault, Verdict};
use ss_review::ReviewFault;
use std::alloc::{AllocError, Global};
use std::io::ErrorKind;
use std::process::Abort;
use std::test::Fail;
use test_devices::{Paper, Pieces, Refusal};

/// Two messages and their blocks, 373 octets as frames.
const TEXTS: [Text; 4] = [Text::Short, Text::Long, Text::Certificate, Text::Both];

/// Each run, and what it writes of that log.
const JOBS: [(Job, &[u8]); 5] = [
    (Job::Review, REPORT),
    (Job::Questions, QUESTIONS),
    (Job::QuestionsOnce, QUESTIONS_ONCE),
    (Job::Extract, EXTRACT),
    (Job::Carry, CARRIED),
];

const REFUSALS: [Refusal; 3] = [
    Refusal::Error(ErrorKind::BrokenPipe),
    Refusal::Error(ErrorKind::Interrupted),
    Refusal::Nothing,
];

/// Each fault of a run, and its code as it is printed.
const PRINTED: [(RunFault, &str); 13] = [
    (RunFault::Frame(FrameFault::BadLength { pos: 7 }), "F1 7"),
    (RunFault::Frame(FrameFault::TooLong { pos: 7 }), "F2 7"),
    (RunFault::Frame(FrameFault::Read), "F3"),
    (RunFault::Frame(FrameFault::Memory), "F4"),
    (
        RunFault::Frame(FrameFault::TooManyMessages { pos: 7 }),
        "F5 7",
    ),
    (RunFault::Frame(FrameFault::Failed), "F6"),
    (RunFault::Frame(FrameFault::EmptyLine { pos: 7 }), "F9 7"),
    (RunFault::Review(ReviewFault::Memory), "V1"),
    (RunFault::Review(ReviewFault::TooManyMessages), "V2"),
    (RunFault::Extract(ExtractFault::Absent { place: 7 }), "E1 7"),
    (
        RunFault::Extract(ExtractFault::HoldsLf { place: 7 }),
        "E2 7",
    ),
    (RunFault::Write, "W1"),
    (RunFault::Memory, "W2"),
];

/// A run over frames that says yes to everything.
fn yes(job: Job) -> Task {
    Task {
        job,
        who: Who::All,
        limits: limits_of(Form::Frames),
    }
}

/// Runs so.
fn run_frames(
    alloc: Global,
    job: Job,
    source: Pieces<'_>,
    paper: Paper,
) -> Result<Done, AllocError> {
    run(alloc, yes(job), source, paper)
}

/// The same through a buffer.
fn run_buffered(alloc: Global, job: Job, source: Pieces<'_>) -> Result<Done, AllocError> {
    let source = Buffered::new(alloc, source)?;
    run(alloc, yes(job), source, Paper::new(1))
}

/// A read failed, and nothing was written.
fn sees_failed_read(rt: &impl Abort, done: &Done, read: u64) {
    assert_eq!(rt;
        done.said,
        Err(RunFault::Frame(FrameFault::Read)),
        "at {read}"
    );
    assert!(rt; done.read_failed && !done.write_failed, "at {read}");
    assert_eq!(rt; done.paper.writes, 0, "at {read}");
}

/// Each read fails in turn, the one of the log's end among them: octet by octet, and 16 octets at a time through a
/// buffer.
fn stops_at_reads(
    rt: &(impl Abort + AllocGlobal),
    job: Job,
    log: &[u8],
    kind: ErrorKind,
) -> Result<(), AllocError> {
    for read in 1..375 {
        let source = Pieces::failing(log, 1, read, kind);
        let done = run_frames(rt.alloc(), job, source, Paper::new(1))?;
        sees_failed_read(rt, &done, read);
    }
    for read in 1..26 {
        let source = Pieces::failing(log, 16, read, kind);
        let done = run_buffered(rt.alloc(), job, source)?;
        sees_failed_read(rt, &done, read);
    }
    Ok(())
}

/// Octet by octet, each write fails in turn, after those before it.
fn stops_at_writes(
    rt: &(impl Abort + AllocGlobal),
    job: Job,
    log: &[u8],
    text: &[u8],
    refusal: Refusal,
) -> Result<(), AllocError> {
    for before in 0..text.len() {
        let write = before as u64 + 1;
        let source = Pieces::new(log, 4_096);
        let done = run_frames(rt.alloc(), job, source, Paper::refusing(1, write, refusal))?;
        assert_eq!(rt; done.said, Err(RunFault::Write), "{job:?} at {write}");
        assert!(rt;
            done.write_failed && !done.read_failed,
            "{job:?} at {write}"
        );
        assert_eq!(rt; done.paper.text(), &text[..before]);
        assert_eq!(rt; done.paper.writes, write);
    }
    Ok(())
}

/// All is written, and then the flush fails.
fn stops_at_flush(
    rt: &(impl Abort + AllocGlobal),
    job: Job,
    log: &[u8],
    text: &[u8],
) -> Result<(), AllocError> {
    let source = Pieces::new(log, 4_096);
    let done = run_frames(rt.alloc(), job, source, Paper::failing_at_flush(1))?;
    assert_eq!(rt; done.said, Err(RunFault::Write), "{job:?}");
    assert!(rt; done.write_failed && !done.read_failed, "{job:?}");
    assert_eq!(rt; done.paper.text(), text);
    Ok(())
}

/// A log that can't be read on, or has no end: nothing is written.
fn stops_at_frame(
    rt: &(impl Abort + AllocGlobal),
    job: Job,
    source: Pieces<'_>,
    limits: Limits,
    fault: FrameFault,
) -> Result<(), AllocError> {
    let task = Task {
        job,
        who: Who::All,
        limits,
    };
    let done = run(rt.alloc(), task, source, Paper::new(1))?;
    assert_eq!(rt; done.said, Err(RunFault::Frame(fault)), "{job:?}");
    assert!(rt; !done.read_failed && !done.write_failed, "{job:?}");
    assert_eq!(rt; done.paper.writes, 0, "{job:?}");
    Ok(())
}

fn stops_at_frames(rt: &(impl Abort + AllocGlobal), job: Job) -> Result<(), Fail> {
    for (log, (max_len, max_messages), fault) in &STOPS {
        let limits = Limits::new(*max_len, *max_messages).ok_or("no limits")?;
        stops_at_frame(rt, job, Pieces::new(log, 4_096), limits, *fault)?;
    }
    let limits = Limits::new(3, 5).ok_or("no limits")?;
    let endless = Pieces::endless(b"1 a", 4_096);
    let many = FrameFault::TooManyMessages { pos: 15 };
    stops_at_frame(rt, job, endless, limits, many)?;
    Ok(())
}

/// The code is printed so.
fn prints(rt: &(impl Abort + AllocGlobal), code: &Code, text: &str) -> Result<(), AllocError> {
    let printed = format!(in rt.alloc(); "{code}")?;
    assert_eq!(rt; printed.as_str(), text);
    Ok(())
}

fn stops_over(
    rt: &(impl Abort + AllocGlobal),
    job: Job,
    log: &[u8],
    text: &[u8],
) -> Result<(), AllocError> {
    stops_at_reads(rt, job, log, ErrorKind::BrokenPipe)?;
    stops_at_reads(rt, job, log, ErrorKind::Interrupted)?;
    for refusal in REFUSALS {
        stops_at_writes(rt, job, log, text, refusal)?;
    }
    stops_at_flush(rt, job, log, text)
}

#[test]
fn stops(rt: HostRuntime) -> Result<(), Fail> {
    for (fault, code) in &PRINTED {
        prints(&rt, &fault.code(), code)?;
    }
    let log = log_of(rt.alloc(), &TEXTS, Form::Frames, b"")?;
    for (job, text) in &JOBS {
        stops_over(&rt, *job, &log, text)?;
        stops_at_frames(&rt, *job)?;
    }
    Ok(())
}

/// Runs over the log octet by octet. "Out of memory" is answered before anything is written, and by no device.
fn run_once(
    rt: &(impl Abort + AllocGlobal),
    job: Job,
    text: &[u8],
) -> Result<Result<Verdict, RunFault>, AllocError> {
    let log = log_of(rt.alloc(), &TEXTS, Form::Frames, b"")?;
    let done = run_frames(rt.alloc(), job, Pieces::new(&log, 1), Paper::new(1))?;
    assert!(rt; !done.read_failed && !done.write_failed, "{:?}", done.said);
    match done.said {
        Ok(_) => assert_eq!(rt; done.paper.text(), text),
        Err(_) => assert_eq!(rt; done.paper.writes, 0),
    }
    Ok(done.said)
}

/// How a run answers "out of memory".
pub const MEMORY: [RunFault; 3] = [
    RunFault::Memory,
    RunFault::Frame(FrameFault::Memory),
    RunFault::Review(ReviewFault::Memory),
];

/// Whether the run was clean, and not short of memory.
fn has_memory(
    rt: &(impl Abort + AllocGlobal),
    said: Result<Result<Verdict, RunFault>, AllocError>,
) -> bool {
    match said {
        Ok(Err(fault)) => {
            assert!(rt; MEMORY.contains(&fault), "{fault:?}");
            false
        }
        Ok(said) => said == Ok(Verdict::Clean),
        Err(_) => false,
    }
}

/// `tests/memory.sh` refuses each allocation of this test in turn, and it passes each time: after "out of memory"
/// nothing is written, and a run that is called again gives its output.
#[test]
fn wants_memory_or_gives_the_output(rt: HostRuntime) {
    for (job, text) in &JOBS {
        if !has_memory(&rt, run_once(&rt, *job, text)) {
            let said = run_once(&rt, *job, text);
            assert!(rt; has_memory(&rt, said), "{job:?}");
        }
    }
}
