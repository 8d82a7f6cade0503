//! Calls of a reviewer, of a questioner and of the runs with counters, of which `tests/memory.sh` refuses each
//! allocation in turn: a call answers "out of memory" then and changes nothing. Made again, it gives its answer.
use crate::asking::{Asked, ROWS, Row, are_asked, is_asked};
use crate::book::{Yes, no_counters};
use crate::inspections::LOG;
use crate::run::Done;
use crate::stops::MEMORY;
use crate::texts::{Text, octets_of};
use ss_block::{Group, Session, Spoil};
use ss_frame::{Limits, Watched};
use ss_message::Field;
use ss_octets::Bytes;
use ss_report::{
    Beside, Detail, Listing, Notation, ReadOptions, ReportForm, Run, RunFault, Verdict,
    run_counters, run_review_as,
};
use ss_review::{
    AskedSessions, Counter, Counts, Entry, Question, Questioner, Questions, Report, ReviewFault,
    Reviewer, SessionReport, SessionState, SpoiltPlace, Why,
};
use std::alloc::{AllocError, Global};
use std::process::Abort;
use test_devices::{Paper, Pieces};

/// The RSID of a joined session, and the entries of its one group.
struct Listed {
    rsid: u64,
    entries: &'static [Entry],
}

/// A log, and what is reported of it: no message is unlisted, and each block is verified.
struct Reviewed {
    log: &'static [Text],
    sessions: &'static [Listed],
    spoilt: &'static [SpoiltPlace],
    count: u32,
}

const REVIEWED: [Reviewed; 3] = [
    Reviewed {
        log: &[Text::Short, Text::Long, Text::Certificate, Text::Both],
        sessions: &[Listed {
            rsid: 1,
            entries: &[
                Entry::Listed {
                    number: 1,
                    place: 0,
                },
                Entry::Listed {
                    number: 2,
                    place: 1,
                },
            ],
        }],
        spoilt: &[],
        count: 4,
    },
    Reviewed {
        log: &[
            Text::Short,
            Text::Back,
            Text::Front,
            Text::ShortAlone,
            Text::PastLastNumber,
        ],
        sessions: &[Listed {
            rsid: 1,
            entries: &[Entry::Listed {
                number: 1,
                place: 0,
            }],
        }],
        spoilt: &[SpoiltPlace {
            place: 4,
            cause: Spoil::LastNumber,
        }],
        count: 5,
    },
    Reviewed {
        log: &[
            Text::Short,
            Text::Certificate,
            Text::SecondSession,
            Text::ShortBySha256,
            Text::ShortOfSecondSession,
        ],
        sessions: &[
            Listed {
                rsid: 1,
                entries: &[Entry::Listed {
                    number: 1,
                    place: 0,
                }],
            },
            Listed {
                rsid: 2,
                entries: &[Entry::Gap {
                    number: 1,
                    why: Why::Lost,
                }],
            },
        ],
        spoilt: &[],
        count: 5,
    },
];

/// Feeds a message, and once more where memory ran out and left what is kept as it was.
fn feed(reviewer: &mut Reviewer, octets: &[u8]) -> Result<(), ReviewFault> {
    let kept = reviewer.kept();
    match reviewer.feed(octets) {
        Err(ReviewFault::Memory) if reviewer.kept() == kept => reviewer.feed(octets),
        said => said,
    }
}

/// A reviewer that was fed the log.
fn reviewer_of(alloc: Global, log: &[Text]) -> Result<Reviewer, ReviewFault> {
    let mut reviewer = Reviewer::new(alloc, 16);
    for text in log {
        feed(&mut reviewer, octets_of(*text))?;
    }
    Ok(reviewer)
}

/// A reviewer's report, and its questions, which are asked for once more where memory ran out.
fn finish(reviewer: &Reviewer) -> Result<Report, ReviewFault> {
    match reviewer.finish(&Yes) {
        Err(ReviewFault::Memory) => reviewer.finish(&Yes),
        said => said,
    }
}

fn questions(reviewer: &Reviewer) -> Result<Questions, ReviewFault> {
    match reviewer.questions() {
        Err(ReviewFault::Memory) => reviewer.questions(),
        said => said,
    }
}

fn is_session(session: &SessionReport, wanted: &Listed) -> bool {
    let [group] = session.groups.as_slice() else {
        return false;
    };
    session.session.rsid == wanted.rsid
        && session.state == SessionState::Joined
        && group.entries.as_slice() == wanted.entries
}

fn are_sessions(sessions: &[SessionReport], wanted: &[Listed]) -> bool {
    for (session, wanted) in sessions.iter().zip(wanted) {
        if !is_session(session, wanted) {
            return false;
        }
    }
    sessions.len() == wanted.len()
}

/// Whether the report is the one of the row.
fn is_report(report: &Report, wanted: &Reviewed) -> bool {
    report.unlisted.as_slice().is_empty()
        && report.refused.as_slice().is_empty()
        && report.spoilt.as_slice() == wanted.spoilt
        && report.count == wanted.count
        && are_sessions(report.sessions.as_slice(), wanted.sessions)
}

fn reports(alloc: Global, wanted: &Reviewed) -> Result<bool, ReviewFault> {
    let reviewer = reviewer_of(alloc, wanted.log)?;
    let report = finish(&reviewer)?;
    Ok(is_report(&report, wanted))
}

/// Whether the questions are those, in that order.
fn are_those(alloc: Global, questions: &[Question], asked: &[Asked]) -> Result<bool, AllocError> {
    for (question, asked) in questions.iter().zip(asked) {
        if !is_asked(alloc, question, *asked)? {
            return Ok(false);
        }
    }
    Ok(questions.len() == asked.len())
}

/// Whether a reviewer of a row's log asks what the row says.
fn asks(alloc: Global, row: &Row) -> Result<bool, ReviewFault> {
    let reviewer = reviewer_of(alloc, row.log)?;
    let questions = questions(&reviewer)?;
    match are_those(alloc, questions.as_slice(), row.asked) {
        Err(_) => Ok(are_those(alloc, questions.as_slice(), row.asked)?),
        said => Ok(said?),
    }
}

/// Feeds a message, and once more where memory ran out.
fn feed_questioner(questioner: &mut Questioner, octets: &[u8]) -> Result<(), ReviewFault> {
    match questioner.feed(octets) {
        Err(ReviewFault::Memory) => questioner.feed(octets),
        said => said,
    }
}

/// What a questioner asks that was fed the log.
fn asked_of(alloc: Global, log: &[Text]) -> Result<AskedSessions, ReviewFault> {
    let mut questioner = Questioner::new(alloc, 16);
    for text in log {
        feed_questioner(&mut questioner, octets_of(*text))?;
    }
    questioner.ask()
}

/// What a reviewer asks that was fed the log, session by session, and once more where memory ran out.
fn asked_first(alloc: Global, log: &[Text]) -> Result<AskedSessions, ReviewFault> {
    let reviewer = reviewer_of(alloc, log)?;
    match reviewer.ask_by(None) {
        Err(ReviewFault::Memory) => reviewer.ask_by(None),
        said => said,
    }
}

/// Whether a reviewer of a row's log asks what the row says, session by session.
fn asks_first(alloc: Global, row: &Row) -> Result<bool, ReviewFault> {
    let sessions = asked_first(alloc, row.log)?;
    match are_asked(alloc, sessions.as_slice(), row.asked) {
        Err(_) => Ok(are_asked(alloc, sessions.as_slice(), row.asked)?),
        said => Ok(said?),
    }
}

/// Whether a questioner of a row's log asks what the row says.
fn asks_by_session(alloc: Global, row: &Row) -> Result<bool, ReviewFault> {
    let sessions = asked_of(alloc, row.log)?;
    Ok(are_asked(alloc, sessions.as_slice(), row.asked)?)
}

/// The calls on a reviewer that is there go on. A questioner is let go when it is asked, and is made again.
#[test]
fn goes_on_after_want_of_memory(rt: HostRuntime) {
    for row in &REVIEWED {
        assert_eq!(rt; reports(rt.alloc(), row), Ok(true), "{:?}", row.log);
    }
    for row in &ROWS[..5] {
        assert_eq!(rt; asks(rt.alloc(), row), Ok(true), "{}", row.name);
        assert_eq!(rt; asks_first(rt.alloc(), row), Ok(true), "{}", row.name);
        let asked = match asks_by_session(rt.alloc(), row) {
            Err(_) => asks_by_session(rt.alloc(), row),
            asked => asked,
        };
        assert_eq!(rt; asked, Ok(true), "{}", row.name);
    }
}

/// A run with counters, or in another form.
#[derive(Clone, Copy, Debug)]
enum Kind {
    Counters,
    Tally,
    Whole,
    Night,
    Older,
}

/// A run over the log of two messages and their blocks, and what it writes: a message was sent after the two, and one
/// block. A night begins at the second message, or it ends there.
const RUNS: [(Kind, &[u8], Verdict); 5] = [
    (
        Kind::Counters,
        b"count h s - 1 1\ncount h s - 1 0 0 3\nend 2\n",
        Verdict::Clean,
    ),
    (
        Kind::Tally,
        b"session h s - 1 joined\ntally h s - 1 0 0 2 0 0 0 1 2\nunlisted-count 0\nrefused-count 0\nspoilt-count 0\n\
            end 4\n",
        Verdict::Clean,
    ),
    (
        Kind::Whole,
        b"session h s - 1 joined\nok h s - 1 0 0 1 0\nok h s - 1 0 0 2 1\ntail h s - 1 0 0 3 3\nblocks h s - 1 1 1\n\
            end 4\n",
        Verdict::Findings,
    ),
    (
        Kind::Night,
        b"session h s - 1 joined\nok h s - 1 0 0 1 0\nok h s - 1 0 0 2 1\nearly h s - 1 0 0 1 1\ntail h s - 1 0 0 3 3\n\
            blocks h s - 1 1 1\nend 4\n",
        Verdict::Findings,
    ),
    (
        Kind::Older,
        b"session h s - 1 joined\nok h s - 1 0 0 1 0\nok h s - 1 0 0 2 1\nbeyond h s - 1 0 0 2 2\nend 4\n",
        Verdict::Findings,
    ),
];

fn session(alloc: Global) -> Result<Session, AllocError> {
    Ok(Session {
        host: Field::Text(Bytes::from_vec(Vec::from_slice(alloc, b"h")?)),
        app: Field::Text(Bytes::from_vec(Vec::from_slice(alloc, b"s")?)),
        procid: Field::Nil,
        rsid: 1,
    })
}

/// The counters of a session that goes on with this block and this message.
fn counters(alloc: Global, block: u64, message: u64) -> Result<Vec<Counter>, AllocError> {
    let mut counters = Vec::new(alloc);
    counters.push(Counter {
        session: session(alloc)?,
        counts: Counts::Blocks,
        next: block,
    })?;
    counters.push(Counter {
        session: session(alloc)?,
        counts: Counts::Messages(Group { sg: 0, spri: 0 }),
        next: message,
    })?;
    Ok(counters)
}

/// Runs over the log octet by octet.
fn make(alloc: Global, kind: Kind) -> Result<Done, AllocError> {
    let sent = counters(alloc, 2, 4)?;
    let before = counters(alloc, 1, 2)?;
    let mut reader = Watched::new(Pieces::new(LOG, 1));
    let mut writer = Watched::new(Paper::new(1));
    let run = Run {
        reader: &mut reader,
        writer: &mut writer,
        options: ReadOptions::undamaged(Limits::standard()),
        known: None,
        alloc,
    };
    let form = ReportForm::Text;
    let each = Detail::of(Listing::Itemized);
    let said = match kind {
        Kind::Counters => run_counters(run, Yes, Notation::Plain),
        Kind::Tally => {
            let counted = Detail::of(Listing::Tally);
            run_review_as(run, Yes, form, counted, Beside::Nothing)
        }
        Kind::Whole => {
            let up_to = Some(sent.as_slice());
            run_review_as(run, Yes, form, each, Beside::Missing { up_to })
        }
        Kind::Night => {
            let first = before.as_slice();
            let second = Some(sent.as_slice());
            run_review_as(run, Yes, form, each, Beside::Night { first, second })
        }
        Kind::Older => {
            let first = no_counters();
            let second = Some(before.as_slice());
            run_review_as(run, Yes, form, each, Beside::Night { first, second })
        }
    };
    Ok(Done {
        said,
        read_failed: reader.failed(),
        write_failed: writer.failed(),
        paper: writer.into_inner(),
    })
}

/// Whether the run gave its output. "Out of memory" is answered before anything is written, and by no device.
fn is_made(rt: &(impl Abort + AllocGlobal), kind: Kind, text: &[u8], verdict: Verdict) -> bool {
    let Ok(done) = make(rt.alloc(), kind) else {
        return false;
    };
    assert!(rt; !done.read_failed && !done.write_failed, "{kind:?}");
    match done.said {
        Ok(said) => {
            assert_eq!(rt; said, verdict, "{kind:?}");
            assert_eq!(rt; done.paper.text(), text, "{kind:?}");
            true
        }
        Err(fault) => {
            assert!(rt; MEMORY.contains(&fault), "{kind:?}: {fault:?}");
            assert_eq!(rt; done.paper.writes, 0, "{kind:?}");
            false
        }
    }
}

#[test]
fn wants_memory_or_gives_the_output(rt: HostRuntime) {
    for (kind, text, verdict) in &RUNS {
        if !is_made(&rt, *kind, text, *verdict) {
            assert!(rt; is_made(&rt, *kind, text, *verdict), "{kind:?}");
        }
    }
}
