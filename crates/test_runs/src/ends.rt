//! Logs that break off.
use crate::book::{Job, Who};
use crate::rows::{EXTRACT, QUESTIONS, QUESTIONS_ONCE, REPORT};
use crate::run::{Task, limits_of, run};
use crate::texts::{Text, log_of};
use ss_frame::Form;
use ss_report::Verdict;
use std::alloc::AllocError;
use std::process::Abort;
use std::test::Fail;
use test_devices::{Paper, Pieces};

/// Two messages and their blocks: 373 octets as frames, and 364 as lines.
const TEXTS: [Text; 4] = [Text::Short, Text::Long, Text::Certificate, Text::Both];

/// The least lengths of a front of the frames, and the reports on it from there on.
const CUTS: [(usize, &[u8], Verdict); 9] = [
    (0, b"end 0\n", Verdict::Clean),
    (1, b"torn 0\nend 0\n", Verdict::Findings),
    (5, b"unlisted 0\nend 1\n", Verdict::Findings),
    (6, b"unlisted 0\ntorn 5\nend 1\n", Verdict::Findings),
    (64, b"unlisted 0\nunlisted 1\nend 2\n", Verdict::Findings),
    (
        65,
        b"unlisted 0\nunlisted 1\ntorn 64\nend 2\n",
        Verdict::Findings,
    ),
    (
        210,
        b"session h s - 1 joined\nunlisted 0\nunlisted 1\nend 3\n",
        Verdict::Findings,
    ),
    (
        211,
        b"session h s - 1 joined\nunlisted 0\nunlisted 1\ntorn 210\nend 3\n",
        Verdict::Findings,
    ),
    (373, REPORT, Verdict::Clean),
];

/// The report on the front of that length.
fn cut_at(length: usize) -> (&'static [u8], Verdict) {
    let mut cut: (&'static [u8], Verdict) = (b"", Verdict::Clean);
    for (least, text, verdict) in &CUTS {
        if *least <= length {
            cut = (*text, *verdict);
        }
    }
    cut
}

/// A log, and the form that it is read in.
#[derive(Clone, Copy)]
struct Log<'l> {
    octets: &'l [u8],
    form: Form,
}

/// A run over that log writes this, with that verdict.
fn writes(
    rt: &(impl Abort + AllocGlobal),
    job: Job,
    log: Log<'_>,
    text: &[u8],
    verdict: Verdict,
) -> Result<(), AllocError> {
    let Log { octets, form } = log;
    let source = Pieces::new(octets, 4_096);
    let task = Task {
        job,
        who: Who::All,
        limits: limits_of(form),
    };
    let done = run(rt.alloc(), task, source, Paper::new(1024))?;
    assert_eq!(rt; done.said, Ok(verdict), "{job:?}, {}", octets.len());
    assert_eq!(rt; done.paper.text(), text, "{job:?}, {}", octets.len());
    Ok(())
}

fn sees_cuts(rt: &(impl Abort + AllocGlobal)) -> Result<(), AllocError> {
    let octets = log_of(rt.alloc(), &TEXTS, Form::Frames, b"")?;
    assert_eq!(rt; octets.len(), 373);
    for length in 0..=octets.len() {
        let (text, verdict) = cut_at(length);
        let front = Log {
            octets: octets.get(..length).unwrap_or_default(),
            form: Form::Frames,
        };
        writes(rt, Job::Review, front, text, verdict)?;
    }
    Ok(())
}

/// Two octets after the last frame are a frame that breaks off, and change nothing else.
fn sees_torn_frames(rt: &(impl Abort + AllocGlobal)) -> Result<(), AllocError> {
    let octets = log_of(rt.alloc(), &TEXTS, Form::Frames, b"12")?;
    let log = Log {
        octets: &octets,
        form: Form::Frames,
    };
    let report =
        b"session h s - 1 joined\nok h s - 1 0 0 1 0\nok h s - 1 0 0 2 1\ntorn 373\nend 4\n";
    writes(rt, Job::Review, log, report, Verdict::Findings)?;
    writes(rt, Job::Questions, log, QUESTIONS, Verdict::Findings)?;
    writes(
        rt,
        Job::QuestionsOnce,
        log,
        QUESTIONS_ONCE,
        Verdict::Findings,
    )?;
    writes(rt, Job::Extract, log, EXTRACT, Verdict::Findings)
}

/// Without its LF the last line is none, so that its block announces nothing.
fn sees_torn_lines(rt: &(impl Abort + AllocGlobal)) -> Result<(), AllocError> {
    let octets = log_of(rt.alloc(), &TEXTS, Form::Lines, b"")?;
    let front = Log {
        octets: octets.get(..363).unwrap_or_default(),
        form: Form::Lines,
    };
    let report = b"session h s - 1 joined\nunlisted 0\nunlisted 1\ntorn 204\nend 3\n";
    writes(rt, Job::Review, front, report, Verdict::Findings)?;
    writes(rt, Job::Extract, front, b"", Verdict::Findings)
}

#[test]
fn ends(rt: HostRuntime) -> Result<(), Fail> {
    sees_cuts(&rt)?;
    sees_torn_frames(&rt)?;
    sees_torn_lines(&rt)?;
    Ok(())
}
