//! Runs that stop for a device: nothing is written then but by a write that failed.
use crate::run::{Done, Job, Task, run};
use crate::sealing::Seal;
use crate::texts::{BOTH_FRAMES, BOTH_WANTS, CERTIFICATE_FRAME, CERTIFICATE_WANT};
use ss_frame::{Form, FrameFault, Limits};
use ss_origin::OriginFault;
use ss_report::RunFault;
use ss_signing::SignFault;
use std::io::ErrorKind;
use std::process::Abort;
use test_devices::{Paper, Pieces, Refusal};

const SIGN: Job = Job::Sign(Seal::Zeros);

/// Two messages, 44 octets.
const TWO: &[u8] = b"19 <13>1 - - - - - - a19 <14>1 - - - - - - b";

/// The counters with which an originator ends that signs them.
const AHEAD: &[u8] = b"count h s - 1 1\ncount h s - 1 0 0 3\nend 2\n";

/// A run over a log, and what it writes.
const ROWS: [(Job, &[u8], &[u8]); 5] = [
    (SIGN, b"", CERTIFICATE_FRAME),
    (Job::Plan, b"", CERTIFICATE_WANT),
    (SIGN, TWO, BOTH_FRAMES),
    (Job::Plan, TWO, BOTH_WANTS),
    (Job::Ahead, TWO, AHEAD),
];

const REFUSALS: [Refusal; 3] = [
    Refusal::Error(ErrorKind::BrokenPipe),
    Refusal::Error(ErrorKind::Interrupted),
    Refusal::Nothing,
];

fn run_frames(alloc: std::alloc::Global, job: Job, source: Pieces<'_>, paper: Paper) -> Done {
    let task = Task {
        job,
        start: None,
        sizes: (10, 1),
        out: Form::Frames,
        wrap: false,
        limits: Limits::standard(),
    };
    run(alloc, &task, source, paper)
}

/// Octet by octet, each read fails in turn, the one of the log's end among them.
fn stops_at_reads(rt: &(impl Abort + AllocGlobal), job: Job, log: &[u8], kind: ErrorKind) {
    for before in 0..=log.len() {
        let read = before as u64 + 1;
        let source = Pieces::failing(log, 1, read, kind);
        let done = run_frames(rt.alloc(), job, source, Paper::new(1));
        let fault = SignFault::Run(RunFault::Frame(FrameFault::Read));
        assert_eq!(rt; done.said, Err(fault), "{job:?} at {read}");
        assert!(rt; done.read_failed && !done.write_failed, "at {read}");
        assert_eq!(rt; done.paper.writes, 0, "{job:?} at {read}");
    }
}

/// Octet by octet, each write fails in turn, after those before it.
fn stops_at_writes(
    rt: &(impl Abort + AllocGlobal),
    job: Job,
    log: &[u8],
    text: &[u8],
    refusal: Refusal,
) {
    for before in 0..text.len() {
        let write = before as u64 + 1;
        let source = Pieces::new(log, 4_096);
        let done = run_frames(rt.alloc(), job, source, Paper::refusing(1, write, refusal));
        let fault = SignFault::Run(RunFault::Write);
        assert_eq!(rt; done.said, Err(fault), "{job:?} at {write}");
        assert!(rt; done.write_failed && !done.read_failed, "at {write}");
        assert_eq!(rt; done.paper.text(), &text[..before]);
        assert_eq!(rt; done.paper.writes, write);
    }
}

/// All is written, and then the flush fails.
fn stops_at_flush(rt: &(impl Abort + AllocGlobal), job: Job, log: &[u8], text: &[u8]) {
    let source = Pieces::new(log, 4_096);
    let done = run_frames(rt.alloc(), job, source, Paper::failing_at_flush(1));
    assert_eq!(rt; done.said, Err(SignFault::Run(RunFault::Write)), "{job:?}");
    assert!(rt; done.write_failed && !done.read_failed, "{job:?}");
    assert_eq!(rt; done.paper.text(), text);
}

#[test]
fn stops(rt: HostRuntime) {
    for (job, log, text) in &ROWS {
        stops_at_reads(&rt, *job, log, ErrorKind::BrokenPipe);
        stops_at_reads(&rt, *job, log, ErrorKind::Interrupted);
        for refusal in REFUSALS {
            stops_at_writes(&rt, *job, log, text, refusal);
        }
        stops_at_flush(&rt, *job, log, text);
    }
}

/// Whether the run gave its output, and wasn't short of memory. "Out of memory" is answered before anything is written.
fn has_memory(rt: &(impl Abort + AllocGlobal), job: Job, text: &[u8]) -> bool {
    let memory = [
        SignFault::Run(RunFault::Memory),
        SignFault::Run(RunFault::Frame(FrameFault::Memory)),
    ];
    let done = run_frames(rt.alloc(), job, Pieces::new(TWO, 1), Paper::new(1));
    match done.said {
        Ok(()) => {
            assert_eq!(rt; done.paper.text(), text);
            true
        }
        Err(fault) => {
            let origin = matches!(
                &fault,
                SignFault::Origin {
                    fault: OriginFault::Memory,
                    ..
                }
            );
            assert!(rt; origin || memory.contains(&fault), "{fault:?}");
            assert_eq!(rt; done.paper.writes, 0);
            false
        }
    }
}

/// `tests/memory.sh` refuses each allocation of this test in turn, and it passes each time: after "out of memory"
/// nothing is written, and a run that is called again gives its output.
#[test]
fn wants_memory_or_gives_the_output(rt: HostRuntime) {
    for (job, text) in [(SIGN, BOTH_FRAMES), (Job::Plan, BOTH_WANTS)] {
        if !has_memory(&rt, job, text) {
            assert!(rt; has_memory(&rt, job, text), "{job:?}");
        }
    }
}
