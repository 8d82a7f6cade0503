//! What an originator sends, through frames and a review, whatever was lost, repeated or reordered on the way.
use crate::book::{Job, PAYLOAD, Who};
use crate::originating::{A, B, C, D, E, Step, sent};
use crate::run::{Task, limits_of, run};
use ss_frame::{Form, Watched, write_frame};
use ss_octets::Bytes;
use ss_report::Verdict;
use std::alloc::{AllocError, Global};
use std::process::Abort;
use std::test::Fail;
use test_devices::{Paper, Pieces};

/// Two fragments, a, b, c, the block of a and c, d, the block of b and d, e, and the block of e.
const ONE: &[Step] = &[
    Step::Begin,
    Step::Submit(A),
    Step::Submit(B),
    Step::Submit(C),
    Step::Submit(D),
    Step::Submit(E),
    Step::Flush,
];

/// Two fragments, a, b, c, the block of a and c, d, and the block of d: b was pending at the end of the first.
const RESUMED: &[Step] = &[
    Step::Begin,
    Step::Submit(A),
    Step::Submit(B),
    Step::Submit(C),
    Step::Resume,
    Step::Submit(D),
    Step::Flush,
];

/// A message that none of them sent, where a log names it by this number.
const FOREIGN: usize = 99;

/// Calls to an originator, a log of what it sent, by the numbers of the messages from 0, and its report.
#[derive(Clone, Copy)]
struct Row {
    name: &'static str,
    steps: &'static [Step],
    log: &'static [usize],
    text: &'static [u8],
    verdict: Verdict,
}

const ROWS: [Row; 4] = [
    Row {
        name: "all that was sent",
        steps: ONE,
        log: &[0, 1, 2, 3, 4, 5, 6, 7, 8, 9],
        text: b"session h s - 1 joined\nok h s - 1 1 13 1 2\nok h s - 1 1 13 2 4\nok h s - 1 1 13 3 8\nok h s - 1 1 14 \
            1 3\nok h s - 1 1 14 2 6\nend 10\n",
        verdict: Verdict::Clean,
    },
    Row {
        name: "some of it in another order, and a foreign message",
        steps: ONE,
        log: &[1, 0, 0, 8, 9, 6, 2, 7, FOREIGN],
        text: b"session h s - 1 joined\nhole h s - 1 1 13 1 2\nok h s - 1 1 13 3 3\ngap h s - 1 1 14 1 lost\nok h s - \
            1 1 14 2 5\nunlisted 6\nunlisted 8\nend 9\n",
        verdict: Verdict::Findings,
    },
    Row {
        name: "one fragment of two",
        steps: ONE,
        log: &[0, 2, 4, 5],
        text: b"session h s - 1 incomplete\nunlisted 1\nunlisted 2\nrefused 0\nrefused 3\nend 4\n",
        verdict: Verdict::Findings,
    },
    Row {
        name: "an originator that goes on behind another one",
        steps: RESUMED,
        log: &[0, 1, 2, 3, 4, 5, 6, 7],
        text: b"session h s - 1 joined\nok h s - 1 1 13 1 2\nok h s - 1 1 13 2 4\nhole h s - 1 1 14 1 1\nok h s - 1 1 \
            14 2 6\nunlisted 3\nend 8\n",
        verdict: Verdict::Findings,
    },
];

/// The log of these messages as frames.
fn log_of(alloc: Global, sent: &[Bytes], numbers: &[usize]) -> Result<Vec<u8>, AllocError> {
    let mut writer = Watched::new(Vec::new(alloc));
    for number in numbers {
        let message = match sent.get(*number) {
            Some(message) => message.as_slice(),
            None => b"abc",
        };
        if write_frame(&mut writer, message).is_err() {
            return Err(AllocError);
        }
    }
    Ok(writer.into_inner())
}

/// What a review writes of the log, where each answer is yes.
fn sees(
    rt: &(impl Abort + AllocGlobal),
    name: &str,
    log: &[u8],
    text: &[u8],
    verdict: Verdict,
) -> Result<(), AllocError> {
    let source = Pieces::new(log, 4_096);
    let task = Task {
        job: Job::Review,
        who: Who::All,
        limits: limits_of(Form::Frames),
    };
    let done = run(rt.alloc(), task, source, Paper::new(1024))?;
    assert_eq!(rt; done.said, Ok(verdict), "{name}");
    assert_eq!(rt; done.paper.text(), text, "{name}");
    Ok(())
}

fn sees_row(rt: &(impl Abort + AllocGlobal), row: &Row) -> Result<(), Fail> {
    let sent = sent(rt.alloc(), PAYLOAD, row.steps)?;
    let log = log_of(rt.alloc(), &sent, row.log)?;
    sees(rt, row.name, &log, row.text, row.verdict)?;
    Ok(())
}

#[test]
fn deliveries(rt: HostRuntime) -> Result<(), Fail> {
    for row in &ROWS {
        sees_row(&rt, row)?;
    }
    Ok(())
}
