//! Small logs, and what is planned, signed or refused of them.
use crate::run::{Job, Sizes, Start, Task, run};
use crate::sealing::Seal;
use crate::texts::{
    BOTH_FRAMES, BOTH_WANTS, CERTIFICATE_FRAME, CERTIFICATE_WANT, ONE_OCTET_FRAMES, RESUMED_FRAMES,
    RESUMED_WANTS, TWICE_FRAMES, TWICE_WANTS,
};
use ss_frame::Form::{Frames, Lines};
use ss_frame::{Form, FrameFault, Limits};
use ss_origin::{OriginFault, SealFault};
use ss_report::RunFault;
use ss_signing::SignFault;
use ss_signing::SignFault::{Origin, Run, TornInput};
use std::alloc::AllocError;
use std::process::Abort;
use std::test::Fail;
use test_devices::{Paper, Pieces};

const SIGN: Job = Job::Sign(Seal::Zeros);

/// How what is signed of the certificate block ends.
const CERTIFICATE: &[u8] = b"S0VZ\"]";

/// How what is signed of a block of the second message alone ends.
const SECOND: &[u8] = b"wTX9aOKATkVu7zPIYLz/u/iH3uQ=\"]";

/// The certificate block isn't sealed.
const NOT_BEGUN: Job = Job::Sign(Seal::FaultFor(SealFault::Refused, CERTIFICATE));

/// No block of the second message alone is sealed.
const NOT_FLUSHED: Job = Job::Sign(Seal::FaultFor(SealFault::Refused, SECOND));

/// There is no memory to seal a block of the second message alone.
const NO_MEMORY: Job = Job::Sign(Seal::FaultFor(SealFault::Memory, SECOND));

/// The signature of a block of the second message alone has no octet.
const EMPTY: Job = Job::Sign(Seal::EmptyFor(SECOND));

/// A run over a log in this form, and what it writes.
#[derive(Clone, Copy)]
struct Made {
    job: Job,
    start: Option<Start>,
    form: Form,
    log: &'static [u8],
    sizes: Sizes,
    text: &'static [u8],
}

/// Runs over a log in this form that write nothing: why, and the code of that as it is printed.
#[derive(Clone, Copy)]
struct Refused {
    jobs: &'static [Job],
    start: Option<Start>,
    form: Form,
    log: &'static [u8],
    sizes: Sizes,
    fault: SignFault,
    code: &'static str,
}

/// A block for ten messages, sent once.
const DEFAULT: Sizes = (10, 1);

/// A block for each message, sent twice.
const TWICE: Sizes = (1, 2);

/// Two messages.
const FRAMES: &[u8] = b"19 <13>1 - - - - - - a19 <14>1 - - - - - - b";

const LINES: &[u8] = b"<13>1 - - - - - - a\n<14>1 - - - - - - b\n";

/// A log of frames without a message, which is signed.
const SIGNED: Made = Made {
    job: SIGN,
    start: None,
    form: Frames,
    log: b"",
    sizes: DEFAULT,
    text: b"",
};

const MADE: [Made; 20] = [
    Made {
        text: CERTIFICATE_FRAME,
        ..SIGNED
    },
    Made {
        job: Job::Plan,
        text: CERTIFICATE_WANT,
        ..SIGNED
    },
    Made {
        form: Lines,
        text: CERTIFICATE_FRAME,
        ..SIGNED
    },
    Made {
        job: Job::Plan,
        form: Lines,
        text: CERTIFICATE_WANT,
        ..SIGNED
    },
    Made {
        log: FRAMES,
        text: BOTH_FRAMES,
        ..SIGNED
    },
    Made {
        job: Job::Plan,
        log: FRAMES,
        text: BOTH_WANTS,
        ..SIGNED
    },
    Made {
        form: Lines,
        log: LINES,
        text: BOTH_FRAMES,
        ..SIGNED
    },
    Made {
        job: Job::Sign(Seal::Zero),
        form: Lines,
        log: LINES,
        text: ONE_OCTET_FRAMES,
        ..SIGNED
    },
    Made {
        job: Job::Plan,
        form: Lines,
        log: LINES,
        text: BOTH_WANTS,
        ..SIGNED
    },
    Made {
        log: FRAMES,
        sizes: TWICE,
        text: TWICE_FRAMES,
        ..SIGNED
    },
    Made {
        job: Job::Plan,
        form: Lines,
        log: LINES,
        sizes: TWICE,
        text: TWICE_WANTS,
        ..SIGNED
    },
    // Originators that go on: there are no certificate blocks, and numbers go on.
    Made {
        start: Some((0, None)),
        ..SIGNED
    },
    Made {
        job: Job::Plan,
        start: Some((7, Some(5))),
        ..SIGNED
    },
    Made {
        job: Job::Ahead,
        start: Some((7, Some(5))),
        text: b"count h s - 1 7\ncount h s - 1 0 0 5\nend 2\n",
        ..SIGNED
    },
    Made {
        job: Job::Ahead,
        text: b"count h s - 1 0\nend 1\n",
        ..SIGNED
    },
    Made {
        start: Some((7, Some(5))),
        form: Lines,
        log: LINES,
        text: RESUMED_FRAMES,
        ..SIGNED
    },
    Made {
        job: Job::Plan,
        start: Some((7, Some(5))),
        log: FRAMES,
        text: RESUMED_WANTS,
        ..SIGNED
    },
    Made {
        job: Job::Ahead,
        start: Some((7, Some(5))),
        log: FRAMES,
        text: b"count h s - 1 8\ncount h s - 1 0 0 7\nend 2\n",
        ..SIGNED
    },
    Made {
        job: Job::Ahead,
        start: Some((7, None)),
        form: Lines,
        log: LINES,
        sizes: TWICE,
        text: b"count h s - 1 9\ncount h s - 1 0 0 3\nend 2\n",
        ..SIGNED
    },
    Made {
        job: Job::Ahead,
        start: Some((9_999_999_998, Some(9_999_999_998))),
        form: Lines,
        log: LINES,
        sizes: TWICE,
        text: b"count h s - 1 10000000000\ncount h s - 1 0 0 10000000000\nend 2\n",
        ..SIGNED
    },
];

/// The log ends inside of a message.
const TORN: Refused = Refused {
    jobs: &[SIGN],
    start: None,
    form: Frames,
    log: b"",
    sizes: DEFAULT,
    fault: TornInput { pos: 0 },
    code: "P1 0",
};

const REFUSED: [Refused; 26] = [
    Refused {
        jobs: &[NOT_BEGUN],
        fault: Origin {
            fault: OriginFault::SealRefused,
            place: None,
        },
        code: "O6",
        ..TORN
    },
    Refused {
        jobs: &[Job::Sign(Seal::FaultFor(SealFault::Memory, CERTIFICATE))],
        fault: Origin {
            fault: OriginFault::Memory,
            place: None,
        },
        code: "O10",
        ..TORN
    },
    Refused {
        jobs: &[SIGN, Job::Plan],
        log: b"3 ab",
        ..TORN
    },
    Refused {
        jobs: &[SIGN, Job::Plan],
        log: b"3 abc",
        fault: Origin {
            fault: OriginFault::NotSyslog,
            place: Some(0),
        },
        code: "O2 0",
        ..TORN
    },
    Refused {
        form: Lines,
        log: b"<13>1 - - - - - - a\nabc\nabcd\n",
        fault: Origin {
            fault: OriginFault::NotSyslog,
            place: Some(1),
        },
        code: "O2 1",
        ..TORN
    },
    Refused {
        jobs: &[Job::Plan],
        form: Lines,
        log: b"<13>1 - - - - - - a\n<14>1 - - - - - [ssign]\n",
        fault: Origin {
            fault: OriginFault::HasBlock,
            place: Some(1),
        },
        code: "O3 1",
        ..TORN
    },
    Refused {
        jobs: &[SIGN, Job::Plan],
        form: Lines,
        log: b"<13>1 - - - - - - a\n<14>1 - - - - - - b",
        fault: TornInput { pos: 20 },
        code: "P1 20",
        ..TORN
    },
    Refused {
        sizes: (0, 1),
        fault: Origin {
            fault: OriginFault::BadConfig,
            place: None,
        },
        code: "O1",
        ..TORN
    },
    Refused {
        sizes: (10, 0),
        fault: Origin {
            fault: OriginFault::BadConfig,
            place: None,
        },
        code: "O1",
        ..TORN
    },
    Refused {
        jobs: &[Job::Plan],
        sizes: (100, 1),
        fault: Origin {
            fault: OriginFault::BadConfig,
            place: None,
        },
        code: "O1",
        ..TORN
    },
    // The log comes before the originator, and its messages in their order.
    Refused {
        log: b"3 ab",
        sizes: (0, 1),
        ..TORN
    },
    Refused {
        log: b"3 abcx",
        sizes: (0, 1),
        fault: Run(RunFault::Frame(FrameFault::BadLength { pos: 5 })),
        code: "F1 5",
        ..TORN
    },
    Refused {
        jobs: &[Job::Plan],
        log: b"3 abc12",
        fault: TornInput { pos: 5 },
        code: "P1 5",
        ..TORN
    },
    Refused {
        jobs: &[Job::Plan],
        form: Lines,
        log: b"abc\n\n",
        fault: Run(RunFault::Frame(FrameFault::EmptyLine { pos: 4 })),
        code: "F9 4",
        ..TORN
    },
    Refused {
        jobs: &[NOT_BEGUN],
        log: b"3 abc",
        fault: Origin {
            fault: OriginFault::SealRefused,
            place: None,
        },
        code: "O6",
        ..TORN
    },
    // A block that a message fills, and one that is left to the flush.
    Refused {
        jobs: &[NOT_FLUSHED],
        form: Lines,
        log: LINES,
        sizes: (1, 1),
        fault: Origin {
            fault: OriginFault::SealRefused,
            place: Some(1),
        },
        code: "O6 1",
        ..TORN
    },
    Refused {
        jobs: &[NOT_FLUSHED],
        form: Lines,
        log: b"<14>1 - - - - - - b\n",
        fault: Origin {
            fault: OriginFault::SealRefused,
            place: None,
        },
        code: "O6",
        ..TORN
    },
    Refused {
        jobs: &[EMPTY],
        form: Lines,
        log: LINES,
        sizes: (1, 1),
        fault: Origin {
            fault: OriginFault::SignatureLength,
            place: Some(1),
        },
        code: "O7 1",
        ..TORN
    },
    Refused {
        jobs: &[EMPTY],
        form: Lines,
        log: b"<14>1 - - - - - - b\n",
        fault: Origin {
            fault: OriginFault::SignatureLength,
            place: None,
        },
        code: "O7",
        ..TORN
    },
    Refused {
        jobs: &[NO_MEMORY],
        form: Lines,
        log: LINES,
        sizes: (1, 1),
        fault: Origin {
            fault: OriginFault::Memory,
            place: Some(1),
        },
        code: "O10 1",
        ..TORN
    },
    Refused {
        jobs: &[NO_MEMORY],
        form: Lines,
        log: b"<14>1 - - - - - - b\n",
        fault: Origin {
            fault: OriginFault::Memory,
            place: None,
        },
        code: "O10",
        ..TORN
    },
    // Counters that no originator goes on at, and those that are near their end.
    Refused {
        jobs: &[Job::Plan, Job::Ahead, SIGN],
        start: Some((10_000_000_001, None)),
        form: Lines,
        fault: Origin {
            fault: OriginFault::BadConfig,
            place: None,
        },
        code: "O1",
        ..TORN
    },
    Refused {
        jobs: &[Job::Plan, Job::Ahead, SIGN],
        start: Some((0, Some(0))),
        form: Lines,
        fault: Origin {
            fault: OriginFault::BadConfig,
            place: None,
        },
        code: "O1",
        ..TORN
    },
    Refused {
        jobs: &[Job::Plan, Job::Ahead, SIGN],
        start: Some((0, Some(9_999_999_999))),
        form: Lines,
        log: LINES,
        fault: Origin {
            fault: OriginFault::NumbersSpent,
            place: Some(1),
        },
        code: "O8 1",
        ..TORN
    },
    Refused {
        jobs: &[Job::Plan, Job::Ahead, SIGN],
        start: Some((10_000_000_000, None)),
        form: Lines,
        log: LINES,
        fault: Origin {
            fault: OriginFault::CounterSpent,
            place: None,
        },
        code: "O9",
        ..TORN
    },
    Refused {
        jobs: &[Job::Plan, Job::Ahead, SIGN],
        start: Some((9_999_999_999, None)),
        form: Lines,
        log: LINES,
        sizes: (1, 1),
        fault: Origin {
            fault: OriginFault::CounterSpent,
            place: Some(1),
        },
        code: "O9 1",
        ..TORN
    },
];

/// The greatest limits in that form.
fn limits_of(form: Form) -> Limits {
    match form {
        Form::Frames => Limits::standard(),
        Form::Lines => Limits::standard().lines(),
    }
}

/// The run succeeds where a read and a write take so many octets at most, and writes the text.
fn sees_text(rt: &(impl Abort + AllocGlobal), row: &Made, most: usize) {
    let Made {
        job,
        start,
        form,
        log,
        sizes,
        text,
    } = *row;
    let task = Task {
        job,
        start,
        sizes,
        out: Form::Frames,
        wrap: false,
        limits: limits_of(form),
    };
    let source = Pieces::new(log, most);
    let done = run(rt.alloc(), &task, source, Paper::new(most));
    assert_eq!(rt; done.said, Ok(()), "{job:?} of {log:?}");
    assert_eq!(rt; done.paper.text(), text, "{job:?} of {log:?}");
}

#[test]
fn makes(rt: HostRuntime) {
    for row in &MADE {
        sees_text(&rt, row, 1);
        sees_text(&rt, row, 4_096);
    }
}

/// Nothing was written, and no device has failed.
fn sees_refusal(
    rt: &(impl Abort + AllocGlobal),
    row: &Refused,
    job: Job,
) -> Result<(), AllocError> {
    let Refused {
        start,
        form,
        log,
        sizes,
        fault,
        code,
        ..
    } = *row;
    let task = Task {
        job,
        start,
        sizes,
        out: Form::Frames,
        wrap: false,
        limits: limits_of(form),
    };
    let source = Pieces::new(log, 1);
    let done = run(rt.alloc(), &task, source, Paper::new(1));
    assert_eq!(rt; done.said, Err(fault), "{job:?} of {log:?}");
    assert_eq!(rt; done.paper.writes, 0, "{job:?} of {log:?}");
    assert!(rt; !done.read_failed && !done.write_failed, "{job:?}");
    let spelled = format!(in rt.alloc(); "{}", fault.code())?;
    assert_eq!(rt; spelled.as_str(), code);
    Ok(())
}

#[test]
fn refuses(rt: HostRuntime) -> Result<(), Fail> {
    for row in &REFUSED {
        for job in row.jobs {
            sees_refusal(&rt, row, *job)?;
        }
    }
    Ok(())
}
