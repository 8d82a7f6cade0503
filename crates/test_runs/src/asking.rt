//! What a review asks of a signature scheme, and how often.
ghost use Rattle.std.specs.Prelude.{length, nat_le, true};

use crate::book::{PAYLOAD, SIGN};
use crate::texts::{Text, octets_of, signed_of};
use ss_octets::Bytes;
use ss_review::{AskedSession, Judge, Question, Questions, ReviewFault, Reviewer};
use std::alloc::{AllocError, Global};
use std::cell::Cell;
use std::process::Abort;
use std::test::Fail;

/// A question about the usual payload, and about the usual signature.
#[derive(Clone, Copy, Debug)]
pub enum Asked {
    Trust,
    Yes(Text),
}

/// A log, and what is asked.
#[derive(Clone, Copy)]
pub struct Row {
    pub name: &'static str,
    pub log: &'static [Text],
    pub asked: &'static [Asked],
}

pub const ROWS: [Row; 10] = [
    Row {
        name: "each block by its place",
        log: &[Text::Short, Text::Long, Text::Certificate, Text::Both],
        asked: &[
            Asked::Trust,
            Asked::Yes(Text::Certificate),
            Asked::Yes(Text::Both),
        ],
    },
    Row {
        name: "a signature block that comes first and again",
        log: &[Text::Both, Text::Certificate, Text::Short, Text::Both],
        asked: &[
            Asked::Trust,
            Asked::Yes(Text::Both),
            Asked::Yes(Text::Certificate),
            Asked::Yes(Text::Both),
        ],
    },
    Row {
        name: "two sessions",
        log: &[
            Text::ShortOfSecondSession,
            Text::Certificate,
            Text::SecondSession,
            Text::ShortBySha256,
        ],
        asked: &[
            Asked::Trust,
            Asked::Yes(Text::Certificate),
            Asked::Yes(Text::ShortBySha256),
            Asked::Trust,
            Asked::Yes(Text::ShortOfSecondSession),
            Asked::Yes(Text::SecondSession),
        ],
    },
    Row {
        name: "hosts before numbers of sessions",
        log: &[Text::HostI, Text::SecondSession, Text::HostH1],
        asked: &[
            Asked::Trust,
            Asked::Yes(Text::SecondSession),
            Asked::Trust,
            Asked::Yes(Text::HostH1),
            Asked::Trust,
            Asked::Yes(Text::HostI),
        ],
    },
    Row {
        name: "fragments, and another element beside a block",
        log: &[Text::Back, Text::ShortBesideOthers, Text::Front],
        asked: &[
            Asked::Trust,
            Asked::Yes(Text::Back),
            Asked::Yes(Text::ShortBesideOthers),
            Asked::Yes(Text::Front),
        ],
    },
    Row {
        name: "a spoilt block",
        log: &[Text::PastLastNumber, Text::Certificate],
        asked: &[Asked::Trust, Asked::Yes(Text::Certificate)],
    },
    Row {
        name: "a fragment is missing",
        log: &[Text::Short, Text::Back, Text::ShortAlone],
        asked: &[],
    },
    Row {
        name: "no certificate block",
        log: &[Text::Both],
        asked: &[],
    },
    Row {
        name: "two payloads",
        log: &[Text::Certificate, Text::OtherPayload, Text::ShortAlone],
        asked: &[],
    },
    Row {
        name: "no payload",
        log: &[Text::NoPayload],
        asked: &[],
    },
];

/// How many octets something that is signed has at least, for a judge to take its signature. 0 takes all; 130 takes the
/// certificate block with the whole payload (130) and `Both` (147), and neither a fragment (114 and 123) nor
/// `ShortAlone` (118); the greatest takes none.
const JUDGES: [usize; 3] = [0, 130, usize::MAX];

/// A log, how often each judge is asked about a payload, and how often about a signature: about equal blocks once to
/// accept a payload, if they are certificate blocks, and once to verify them if it is accepted.
const COUNTS: [(&[Text], u32, [u32; 3]); 6] = [
    (&[Text::Short, Text::Certificate, Text::Both], 1, [3, 3, 1]),
    (
        &[
            Text::Both,
            Text::Certificate,
            Text::Both,
            Text::Certificate,
            Text::Certificate,
            Text::Both,
        ],
        1,
        [3, 3, 1],
    ),
    (&[Text::Back, Text::Front, Text::Back], 1, [4, 2, 2]),
    (
        &[
            Text::Certificate,
            Text::ShortAlone,
            Text::Both,
            Text::ShortAlone,
        ],
        1,
        [4, 4, 1],
    ),
    (&[Text::Both, Text::Both], 0, [0, 0, 0]),
    (&[Text::Certificate, Text::OtherPayload], 0, [0, 0, 0]),
];

/// Trusts every payload, and says yes to each signature of so many octets at least. It counts how often it is asked
/// about a payload, and about a signature.
#[derive(Drop)]
struct Counting {
    least: usize,
    payloads: Cell<u32>,
    signatures: Cell<u32>,
}

impl Judge for Counting {
    ghost sound = { λ _. Unit {0} };

    ghost askable = { λ _ _. Unit {0} };

    ghost trusted = { λ _ _. true };

    ghost valid = { λ judge _ octets _. nat_le judge.least (length octets) };

    fn trusts(&self, _payload: &[u8]) -> bool {
        self.payloads.set(self.payloads.get().saturating_add(1));
        true
    }

    fn accepts(&self, _payload: &[u8], octets: &[u8], _signature: &[u8]) -> bool {
        self.signatures.set(self.signatures.get().saturating_add(1));
        octets.len() >= self.least
    }
}

/// Whether these octets are a block of which this is signed.
pub(crate) fn is_signed(alloc: Global, octets: &Bytes, text: Text) -> Result<bool, AllocError> {
    let signed = signed_of(alloc, text)?;
    Ok(octets.as_slice() == signed.as_slice())
}

pub(crate) fn is_asked(
    alloc: Global,
    question: &Question,
    asked: Asked,
) -> Result<bool, AllocError> {
    match (question, asked) {
        (Question::Trust(payload), Asked::Trust) => Ok(payload.as_slice() == PAYLOAD),
        (Question::Yes(payload, octets, signature), Asked::Yes(text)) => {
            let usual = payload.as_slice() == PAYLOAD && signature.as_slice() == SIGN;
            Ok(usual && is_signed(alloc, octets, text)?)
        }
        _ => Ok(false),
    }
}

/// Whether the questions about sessions are those, in that order.
pub(crate) fn are_asked(
    alloc: Global,
    sessions: &[AskedSession],
    asked: &[Asked],
) -> Result<bool, AllocError> {
    let mut asked = asked.iter();
    for session in sessions {
        let is_trust = matches!(asked.next(), Some(Asked::Trust));
        if !is_trust || session.payload.as_slice() != PAYLOAD {
            return Ok(false);
        }
        for block in session.blocks.as_slice() {
            let Some(Asked::Yes(text)) = asked.next() else {
                return Ok(false);
            };
            if block.signature.as_slice() != SIGN || !is_signed(alloc, &block.octets, *text)? {
                return Ok(false);
            }
        }
    }
    Ok(asked.next().is_none())
}

fn fed(alloc: Global, log: &[Text]) -> Result<Reviewer, ReviewFault> {
    let mut reviewer = Reviewer::new(alloc, 16);
    for text in log {
        reviewer.feed(octets_of(*text))?;
    }
    Ok(reviewer)
}

fn questions_of(alloc: Global, log: &[Text]) -> Result<Questions, ReviewFault> {
    fed(alloc, log)?.questions()
}

/// How often a review of the log asks this judge about a payload, and how often about a signature.
fn times_asked(alloc: Global, log: &[Text], least: usize) -> Result<(u32, u32), ReviewFault> {
    let counting = Counting {
        least,
        payloads: Cell::new(0),
        signatures: Cell::new(0),
    };
    fed(alloc, log)?.finish(&counting)?;
    Ok((counting.payloads.get(), counting.signatures.get()))
}

/// The questions are those, in that order.
fn sees_questions(
    rt: &(impl Abort + AllocGlobal),
    questions: &[Question],
    row: &Row,
) -> Result<(), AllocError> {
    assert_eq!(rt; questions.len(), row.asked.len(), "{}", row.name);
    for (question, asked) in questions.iter().zip(row.asked) {
        let is_asked = is_asked(rt.alloc(), question, *asked)?;
        assert!(rt; is_asked, "{}: {asked:?}", row.name);
    }
    Ok(())
}

fn sees(rt: &(impl Abort + AllocGlobal), row: &Row) -> Result<(), ReviewFault> {
    let questions = questions_of(rt.alloc(), row.log)?;
    sees_questions(rt, questions.as_slice(), row)?;
    Ok(())
}

/// A reviewer that was fed the log and asks by these payloads, or without any, asks that session by session, as often as
/// it is asked to.
fn sees_asked(
    rt: &(impl Abort + AllocGlobal),
    log: &[Text],
    known: Option<&[Bytes]>,
    asked: &[Asked],
) -> Result<(), ReviewFault> {
    let reviewer = fed(rt.alloc(), log)?;
    for _ in 0..2 {
        let sessions = reviewer.ask_by(known)?;
        let are_asked = are_asked(rt.alloc(), sessions.as_slice(), asked)?;
        assert!(rt; are_asked, "{log:?}: {asked:?}");
    }
    Ok(())
}

/// A log with a stranger's payload, and what is asked about it by the payload of its session.
const DISPUTED: (&[Text], &[Asked]) = (
    &[
        Text::Short,
        Text::Certificate,
        Text::OtherPayload,
        Text::ShortAlone,
    ],
    &[
        Asked::Trust,
        Asked::Yes(Text::Certificate),
        Asked::Yes(Text::OtherPayload),
        Asked::Yes(Text::ShortAlone),
    ],
);

fn sees_asked_by(rt: &(impl Abort + AllocGlobal)) -> Result<(), ReviewFault> {
    let mut known = Vec::new(rt.alloc());
    known.push(Bytes::from_vec(Vec::from_slice(rt.alloc(), PAYLOAD)?))?;
    let (log, asked) = DISPUTED;
    sees_asked(rt, log, None, &[])?;
    sees_asked(rt, log, Some(&[]), &[])?;
    sees_asked(rt, log, Some(known.as_slice()), asked)
}

#[test]
fn asking(rt: HostRuntime) -> Result<(), Fail> {
    for row in &ROWS {
        sees(&rt, row)?;
        sees_asked(&rt, row.log, None, row.asked)?;
    }
    sees_asked_by(&rt)?;
    Ok(())
}

#[test]
fn asks_once_about_equal_blocks(rt: HostRuntime) -> Result<(), Fail> {
    for (log, payloads, counts) in &COUNTS {
        for (least, count) in JUDGES.iter().zip(counts) {
            let (about_payloads, about_signatures) = times_asked(rt.alloc(), log, *least)?;
            assert_eq!(rt; about_payloads, *payloads, "{log:?}, {least}");
            assert_eq!(rt; about_signatures, *count, "{log:?}, {least}");
        }
    }
    Ok(())
}
