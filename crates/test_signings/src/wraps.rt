//! Logs with messages that can't be signed: each is signed as the log that has, in their place, the wraps that were
//! written by hand. And wraps that are too long.
use crate::run::{Done, Job, Sizes, Start, Task, run, run_by};
use crate::sealing::Seal;
use ss_frame::{Form, FrameFault, Limits, Watched, put_frame};
use ss_origin::OriginFault;
use ss_report::RunFault;
use ss_signing::SignFault;
use std::alloc::{AllocError, Global};
use std::process::Abort;
use std::test::Fail;
use test_devices::{Paper, Pieces};

const SIGN: Job = Job::Sign(Seal::Zeros);

/// Messages, and what is signed for each. The head is that of these tests, without a stamp.
const ODD: [(&[u8], &[u8]); 11] = [
    (b"hello", b"<13>1 - h s - wrapped - |hello"),
    (b"\0\0", b"<13>1 - h s - wrapped - |\0\0"),
    (
        b"<34>Oct 11 22:14:15 m su: failed",
        b"<34>1 - h s - wrapped - |<34>Oct 11 22:14:15 m su: failed",
    ),
    (b"<191>m", b"<191>1 - h s - wrapped - |<191>m"),
    (b"<192>m", b"<13>1 - h s - wrapped - |<192>m"),
    (
        b"<34>1 2016-12-31T23:59:60Z h su - - - m",
        b"<34>1 - h s - wrapped - |<34>1 2016-12-31T23:59:60Z h su - - - m",
    ),
    (
        b"<34>1 2009-05-03T14:00:39.123456789Z h su - - - m",
        b"<34>1 - h s - wrapped - |<34>1 2009-05-03T14:00:39.123456789Z h su - - - m",
    ),
    (
        b"<34>1 - h su - - [ssign] m",
        b"<34>1 - h s - wrapped - |<34>1 - h su - - [ssign] m",
    ),
    (
        b"<34>1 - h su - - [a][ssign-cert VER=\"0111\"] m",
        b"<34>1 - h s - wrapped - |<34>1 - h su - - [a][ssign-cert VER=\"0111\"] m",
    ),
    (
        b"<34>1 - h s - wrapped - |hello",
        b"<34>1 - h s - wrapped - |<34>1 - h s - wrapped - |hello",
    ),
    // One that is signed as it is.
    (
        b"<34>1 - h s - wrapped - hello",
        b"<34>1 - h s - wrapped - hello",
    ),
];

/// The messages of the table in this form, or what is signed for them.
fn log(alloc: Global, form: Form, wrapped: bool) -> Result<Vec<u8>, AllocError> {
    let mut log = Vec::new(alloc);
    for (message, wrap) in &ODD {
        let text = if wrapped { *wrap } else { *message };
        match form {
            Form::Frames => put_frame(&mut log, text)?,
            Form::Lines => {
                log.extend_from_slice(text)?;
                log.extend_from_slice(b"\n")?;
            }
        }
    }
    Ok(log)
}

/// What a run writes, which succeeds.
fn written(rt: &(impl Abort + AllocGlobal), task: &Task, log: &[u8]) -> Vec<u8> {
    let mut reader = Watched::new(log);
    let mut writer = Watched::new(Vec::new(rt.alloc()));
    let said = run_by(rt.alloc(), task, &mut reader, &mut writer);
    assert_eq!(rt; said, Ok(()));
    writer.into_inner()
}

/// A run of blocks of three hashes.
fn task(job: Job, start: Option<Start>, wrap: bool, limits: Limits) -> Task {
    Task {
        job,
        start,
        sizes: (3, 1),
        out: Form::Frames,
        wrap,
        limits,
    }
}

/// A run with wraps writes what one without them writes of the wraps themselves.
fn sees_wraps(
    rt: &(impl Abort + AllocGlobal),
    job: Job,
    start: Option<Start>,
) -> Result<(), AllocError> {
    let limits = Limits::standard();
    let wraps = log(rt.alloc(), Form::Frames, true)?;
    let wanted = written(rt, &task(job, start, false, limits), wraps.as_slice());
    let frames = log(rt.alloc(), Form::Frames, false)?;
    let found = written(rt, &task(job, start, true, limits), frames.as_slice());
    assert!(rt; found.as_slice() == wanted.as_slice());
    let lines = log(rt.alloc(), Form::Lines, false)?;
    let found = written(
        rt,
        &task(job, start, true, limits.lines()),
        lines.as_slice(),
    );
    assert!(rt; found.as_slice() == wanted.as_slice());
    Ok(())
}

#[test]
fn odd_messages_are_signed(rt: HostRuntime) -> Result<(), Fail> {
    for job in [Job::Plan, Job::Ahead, SIGN] {
        for start in [None, Some((7, Some(5)))] {
            sees_wraps(&rt, job, start)?;
        }
    }
    Ok(())
}

/// A log in frames that is refused with wraps, where a message may have so many octets: why.
#[derive(Clone, Copy)]
struct Refused {
    log: &'static [u8],
    max_len: u32,
    sizes: Sizes,
    fault: SignFault,
}

/// A wrap that is too long is reported after the log is read, and before the originator is made.
const REFUSED: [Refused; 6] = [
    // Its wrap has 30 octets.
    Refused {
        log: b"5 hello",
        max_len: 29,
        sizes: (10, 1),
        fault: SignFault::LongWrap { place: 0 },
    },
    Refused {
        log: b"19 <13>1 - - - - - - a5 hello6 hello!",
        max_len: 30,
        sizes: (10, 1),
        fault: SignFault::LongWrap { place: 2 },
    },
    Refused {
        log: b"19 <13>1 - - - - - - a6 hello!7 hello!!",
        max_len: 30,
        sizes: (0, 1),
        fault: SignFault::LongWrap { place: 1 },
    },
    Refused {
        log: b"5 hello",
        max_len: 30,
        sizes: (0, 1),
        fault: SignFault::Origin {
            fault: OriginFault::BadConfig,
            place: None,
        },
    },
    Refused {
        log: b"6 hello!5 hell",
        max_len: 30,
        sizes: (10, 1),
        fault: SignFault::TornInput { pos: 8 },
    },
    Refused {
        log: b"6 hello!6 hello!7",
        max_len: 6,
        sizes: (10, 1),
        fault: SignFault::Run(RunFault::Frame(FrameFault::TooLong { pos: 16 })),
    },
];

/// A run with wraps over the log of a row.
fn run_row(rt: &(impl Abort + AllocGlobal), job: Job, row: &Refused) -> Option<Done> {
    let limits = Limits::new(row.max_len, 10)?;
    let task = Task {
        job,
        start: None,
        sizes: row.sizes,
        out: Form::Frames,
        wrap: true,
        limits,
    };
    Some(run(rt.alloc(), &task, Pieces::new(row.log, 1), Paper::new(1)))
}

#[test]
fn long_wraps_are_refused(rt: HostRuntime) -> Result<(), Fail> {
    for row in &REFUSED {
        for job in [Job::Plan, Job::Ahead, SIGN] {
            let done = run_row(&rt, job, row).ok_or("limits")?;
            assert_eq!(rt; done.said, Err(row.fault), "{job:?} of {0:?}", row.log);
            assert_eq!(rt; done.paper.writes, 0);
        }
    }
    let long = SignFault::LongWrap { place: 7 };
    let spelled = format!(in rt.alloc(); "{}", long.code())?;
    assert_eq!(rt; spelled.as_str(), "O11 7");
    Ok(())
}

/// Whether a log with an odd message was signed, and the run wasn't short of memory. "Out of memory" is answered before
/// anything is written.
fn has_memory(rt: &(impl Abort + AllocGlobal)) -> bool {
    let task = Task {
        job: Job::Ahead,
        start: None,
        sizes: (10, 1),
        out: Form::Frames,
        wrap: true,
        limits: Limits::standard(),
    };
    let log = b"5 hello19 <13>1 - - - - - - a2 hi";
    let done = run(rt.alloc(), &task, Pieces::new(log, 1), Paper::new(1));
    match done.said {
        Ok(()) => {
            let text = b"count h s - 1 1\ncount h s - 1 0 0 4\nend 2\n";
            assert_eq!(rt; done.paper.text(), text.as_slice());
            true
        }
        Err(fault) => {
            let memory = matches!(
                &fault,
                SignFault::Run(RunFault::Memory | RunFault::Frame(FrameFault::Memory))
                    | SignFault::Origin {
                        fault: OriginFault::Memory,
                        ..
                    }
            );
            assert!(rt; memory, "{fault:?}");
            assert_eq!(rt; done.paper.writes, 0);
            false
        }
    }
}

/// `tests/memory.sh` refuses each allocation of this test in turn, and it passes each time.
#[test]
fn wraps_or_wants_memory(rt: HostRuntime) {
    if !has_memory(&rt) {
        assert!(rt; has_memory(&rt));
    }
}
