//! Signed logs that are written as lines, and messages that are none.
use crate::run::{Job, Sizes, Task, run};
use crate::sealing::Seal;
use crate::texts::{BOTH_LINES, CERTIFICATE_LINE};
use ss_frame::{Form, Limits};
use ss_origin::{OriginFault, SealFault};
use ss_report::{ExtractFault, RunFault};
use ss_signing::SignFault;
use std::process::Abort;
use test_devices::{Paper, Pieces};

/// No block is sealed.
const REFUSES: Job = Job::Sign(Seal::FaultFor(SealFault::Refused, b""));

/// A log in frames, and what is written.
const MADE: [(&[u8], &[u8]); 2] = [
    (b"", CERTIFICATE_LINE),
    (b"19 <13>1 - - - - - - a19 <14>1 - - - - - - b", BOTH_LINES),
];

/// The first message holds LF.
const FIRST: SignFault = SignFault::Run(RunFault::Extract(ExtractFault::HoldsLf { place: 0 }));

/// The second one does, and not the first.
const SECOND: SignFault = SignFault::Run(RunFault::Extract(ExtractFault::HoldsLf { place: 1 }));

/// A log in frames that isn't signed, with blocks of these sizes, with or without wraps: why. Messages have 40 octets at
/// most.
const REFUSED: [(&[u8], Sizes, bool, SignFault); 8] = [
    (b"1 \n", (10, 1), false, FIRST),
    (b"20 <13>1 - - - - - - a\n", (10, 1), true, FIRST),
    (
        b"19 <13>1 - - - - - - a3 a\nb3 \n\n\n",
        (10, 1),
        false,
        SECOND,
    ),
    // It comes before a wrap that is too long, and before the originator.
    (b"20 aaaaaaaaaaaaaaaaaaaa1 \n", (10, 1), true, SECOND),
    (b"3 abc1 \n", (0, 1), false, SECOND),
    (
        b"20 aaaaaaaaaaaaaaaaaaaa",
        (10, 1),
        true,
        SignFault::LongWrap { place: 0 },
    ),
    // It comes after a torn end.
    (b"1 \n2 a", (10, 1), true, SignFault::TornInput { pos: 3 }),
    // Without LF the originator is asked.
    (
        b"19 <13>1 - - - - - - a",
        (10, 1),
        true,
        SignFault::Origin {
            fault: OriginFault::SealRefused,
            place: None,
        },
    ),
];

#[test]
fn lines_are_written(rt: HostRuntime) {
    for (log, text) in &MADE {
        let task = Task {
            job: Job::Sign(Seal::Zeros),
            start: None,
            sizes: (10, 1),
            out: Form::Lines,
            wrap: false,
            limits: Limits::standard(),
        };
        let done = run(rt.alloc(), &task, Pieces::new(log, 1), Paper::new(1));
        assert_eq!(rt; done.said, Ok(()));
        assert_eq!(rt; done.paper.text(), *text);
    }
}

/// The run is refused, and nothing is written.
fn sees_refusal(
    rt: &(impl Abort + AllocGlobal),
    (log, sizes, wrap, fault): (&[u8], Sizes, bool, SignFault),
) {
    let Some(limits) = Limits::new(40, 10) else {
        return;
    };
    let task = Task {
        job: REFUSES,
        start: None,
        sizes,
        out: Form::Lines,
        wrap,
        limits,
    };
    let done = run(rt.alloc(), &task, Pieces::new(log, 1), Paper::new(1));
    assert_eq!(rt; done.said, Err(fault), "{log:?}");
    assert_eq!(rt; done.paper.writes, 0, "{log:?}");
}

#[test]
fn messages_with_lf_are_refused(rt: HostRuntime) {
    for (log, sizes, wrap, fault) in &REFUSED {
        sees_refusal(&rt, (log, *sizes, *wrap, *fault));
    }
}
