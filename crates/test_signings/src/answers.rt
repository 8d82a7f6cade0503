//! Answers files: the lines of them, made by hand from the format, and that a call succeeds.
ghost use Rattle.std.specs.Prelude.{◌≡◌};
ghost use Rattle.ss_answers.specs.Answers.{trusted, valid};
ghost use Rattle.ss_review.specs.declared.questions.question.Question.{Question};

use ss_answers::{
    AnswerFault, Answers, CounterFault, StartFault, read_answers, read_counters, start_of,
};
use ss_block::Session;
use ss_frame::Watched;
use ss_message::Field;
use ss_octets::{Bytes, Code, NoMemory};
use ss_origin::{Grouping, NextNumber, SealFault};
use ss_review::{Judge, Verifier};
use std::alloc::Global;
use std::io::ErrorKind;
use std::process::Abort;
use std::test::Fail;
use test_devices::Pieces;

const LINES: &[u8] =
    b"trust S0VZ\nyes S0VZ QQ== AAAA\nseal QQ== AAAA\nseal QQ== BBBB\ntrust S0VZ\n";

fn read(rt: &impl AllocGlobal, text: &[u8], max: u32) -> Result<Answers, AnswerFault> {
    let mut reader = Watched::new(text);
    read_answers(rt.alloc(), &mut reader, max)
}

/// Asks a judge.
fn ask<J: Judge>(judge: &J, payload: &[u8], bytes: &[u8], signature: &[u8]) -> (bool, bool)
    requires sound { J.sound judge.now }
    requires askable { (q : Question) → J.askable judge.now q }
    ensures trusts { result.0 ≡ J.trusted judge.now payload.now }
    ensures accepts { result.1 ≡ J.valid judge.now payload.now bytes.now signature.now }
{
    (
        judge.trusts(payload),
        judge.accepts(payload, bytes, signature),
    )
}

/// Answers are a judge of their own.
fn ask_answers(answers: &Answers, payload: &[u8], bytes: &[u8], signature: &[u8]) -> (bool, bool)
    ensures trusts { result.0 ≡ trusted answers.now payload.now }
    ensures accepts { result.1 ≡ valid answers.now payload.now bytes.now signature.now }
{
    ask(answers, payload, bytes, signature)
}

/// Closures over answers make a verifier of their scheme.
fn ask_closures(answers: &Answers, payload: &[u8], bytes: &[u8], signature: &[u8]) -> (bool, bool)
    ensures trusts { result.0 ≡ trusted answers.now payload.now }
    ensures accepts { result.1 ≡ valid answers.now payload.now bytes.now signature.now }
{
    let verifier = Verifier::new(
        answers,
        |p: &[u8]| answers.trusts(p),
        |p: &[u8], b: &[u8], s: &[u8]| answers.accepts(p, b, s),
    );
    ask(&verifier, payload, bytes, signature)
}

/// A file, the most octets of it that are read, and why it is refused.
const REFUSED: [(&[u8], u32, AnswerFault); 15] = [
    (b"trust S0V\n", 9, AnswerFault::TooBig),
    (b"trust S0V", 1000, AnswerFault::BadLine { line: 1 }),
    (b"trust S0VZ\n\n", 1000, AnswerFault::BadLine { line: 2 }),
    (b"\n", 1000, AnswerFault::BadLine { line: 1 }),
    (b"trust  S0VZ\n", 1000, AnswerFault::BadLine { line: 1 }),
    (b"trust S0VZ \n", 1000, AnswerFault::BadLine { line: 1 }),
    (b"trust S0VZ\r\n", 1000, AnswerFault::BadLine { line: 1 }),
    (b"trust \n", 1000, AnswerFault::BadLine { line: 1 }),
    (b"trust QR==\n", 1000, AnswerFault::BadLine { line: 1 }),
    (b"trust QQ\n", 1000, AnswerFault::BadLine { line: 1 }),
    (b"trust S0V-\n", 1000, AnswerFault::BadLine { line: 1 }),
    (b"yes S0VZ QQ==\n", 1000, AnswerFault::BadLine { line: 1 }),
    (
        b"seal S0VZ\nwant S0VZ\n",
        1000,
        AnswerFault::BadLine { line: 1 },
    ),
    (
        b"trust S0VZ\nwant S0VZ\n",
        1000,
        AnswerFault::BadLine { line: 2 },
    ),
    (b"want S0VZ\n", 9, AnswerFault::TooBig),
];

/// Octet by octet, the read of that number fails.
fn sees_a_failed_read(rt: &(impl Abort + AllocGlobal), read: u64, kind: ErrorKind) {
    let mut reader = Watched::new(Pieces::failing(LINES, 1, read, kind));
    let said = read_answers(rt.alloc(), &mut reader, 1000);
    assert_eq!(rt; said.err(), Some(AnswerFault::Read), "{kind:?} at {read}");
    assert!(rt; reader.failed(), "{kind:?} at {read}");
}

/// A reader that never ends, of which one octet more than the most is taken.
fn sees_no_end(rt: &(impl Abort + AllocGlobal), text: &[u8]) {
    let mut reader = Watched::new(Pieces::endless(text, text.len()));
    let said = read_answers(rt.alloc(), &mut reader, 1000);
    assert_eq!(rt; said.err(), Some(AnswerFault::TooBig));
    assert!(rt; !reader.failed());
    assert_eq!(rt; reader.into_inner().taken, 1001);
}

/// Each fault of answers, and its code as it is printed.
const ANSWER_FAULTS: [(AnswerFault, &str); 4] = [
    (AnswerFault::BadLine { line: 7 }, "A1 7"),
    (AnswerFault::Read, "A2"),
    (AnswerFault::TooBig, "A3"),
    (AnswerFault::Memory, "A4"),
];

/// Each fault of counters in the same way.
const COUNTER_FAULTS: [(CounterFault, &str); 5] = [
    (CounterFault::BadLine { line: 7 }, "C1 7"),
    (CounterFault::Read, "C2"),
    (CounterFault::TooBig, "C3"),
    (CounterFault::NotWhole, "C3"),
    (CounterFault::Memory, "C4"),
];

/// Each fault of a start in the same way.
const START_FAULTS: [(StartFault, &str); 3] = [
    (StartFault::NoSession, "C5"),
    (StartFault::OtherGroup { counter: 7 }, "C6 7"),
    (StartFault::Memory, "C4"),
];

/// Whether the code is printed so.
fn is_printed(rt: &impl AllocGlobal, code: &Code, text: &str) -> bool {
    match format!(in rt.alloc(); "{code}") {
        Ok(printed) => printed.as_str() == text,
        Err(_) => false,
    }
}

#[test]
fn refuses(rt: HostRuntime) {
    for (fault, code) in &ANSWER_FAULTS {
        assert!(rt; is_printed(&rt, &fault.code(), code), "{code}");
    }
    for (fault, code) in &COUNTER_FAULTS {
        assert!(rt; is_printed(&rt, &fault.code(), code), "{code}");
    }
    for (fault, code) in &START_FAULTS {
        assert!(rt; is_printed(&rt, &fault.code(), code), "{code}");
    }
    for (text, max, fault) in &REFUSED {
        assert_eq!(rt; read(&rt, text, *max).err(), Some(*fault), "{text:?}");
    }
    sees_no_end(&rt, b"9");
    sees_no_end(&rt, &[b'9'; 2000]);
    for kind in [ErrorKind::Interrupted, ErrorKind::Other] {
        for before in 0..=LINES.len() {
            sees_a_failed_read(&rt, before as u64 + 1, kind);
        }
    }
}

/// Octets, and what is asked about as their signature.
#[derive(Clone, Copy)]
struct Signed<'s> {
    bytes: &'s [u8],
    signature: &'s [u8],
}

/// These octets with the signature of three zeros.
fn by_zeros<'s>(bytes: &'s [u8]) -> Signed<'s> {
    Signed {
        bytes,
        signature: b"\0\0\0",
    }
}

/// What both judges say under this payload.
fn sees(
    rt: &impl Abort,
    answers: &Answers,
    payload: &[u8],
    signed: Signed<'_>,
    want: (bool, bool),
) {
    let Signed { bytes, signature } = signed;
    assert_eq!(rt; ask_answers(answers, payload, bytes, signature), want);
    assert_eq!(rt; ask_closures(answers, payload, bytes, signature), want);
}

/// The octets have the signature of three zeros.
fn sees_seal(
    rt: &(impl Abort + AllocGlobal),
    answers: &Answers,
    octets: &[u8],
) -> Result<(), SealFault> {
    let signature = answers.seal(rt.alloc(), octets)?;
    assert_eq!(rt; signature.as_slice(), b"\0\0\0".as_slice());
    Ok(())
}

/// The octets have no signature.
fn sees_no_seal(rt: &(impl Abort + AllocGlobal), answers: &Answers, octets: &[u8]) {
    let fault = answers.seal(rt.alloc(), octets).err();
    assert_eq!(rt; fault, Some(SealFault::Refused));
}

#[test]
fn answers_by_the_lines(rt: HostRuntime) -> Result<(), Fail> {
    assert!(rt; !read(&rt, b"", 1000)?.trusts(b"KEY"));
    assert!(rt; read(&rt, b"trust S0VZ", 1000)?.trusts(b"KEY"));
    let answers = read(&rt, LINES, LINES.len() as u32)?;
    sees(&rt, &answers, b"KEY", by_zeros(b"A"), (true, true));
    let otherwise = Signed {
        bytes: b"A",
        signature: b"\x04\x10\x41",
    };
    sees(&rt, &answers, b"KEY", otherwise, (true, false));
    sees(&rt, &answers, b"KEY", by_zeros(b"B"), (true, false));
    sees(&rt, &answers, b"KE", by_zeros(b"A"), (false, false));
    sees(&rt, &answers, b"A", by_zeros(b"A"), (false, false));
    sees_seal(&rt, &answers, b"A")?;
    sees_no_seal(&rt, &answers, b"KEY");
    let answers = read(&rt, b"seal S0VZ AAAA", 1000)?;
    sees_seal(&rt, &answers, b"KEY")?;
    sees_no_seal(&rt, &answers, b"KEX");
    Ok(())
}

/// Reads answers octet by octet, and once more where memory ran out, which no read reports.
fn read_on(rt: &(impl Abort + AllocGlobal), text: &[u8], max: u32) -> Result<Answers, AnswerFault> {
    let mut reader = Watched::new(Pieces::new(text, 1));
    let said = read_answers(rt.alloc(), &mut reader, max);
    assert!(rt; !reader.failed(), "{text:?}");
    match said {
        Err(AnswerFault::Memory) => read(rt, text, max),
        said => said,
    }
}

/// The octets have the signature of three zeros, which is asked for once more where memory ran out.
fn sees_seal_on(rt: &(impl Abort + AllocGlobal), answers: &Answers) -> Result<(), SealFault> {
    match sees_seal(rt, answers, b"A") {
        Err(SealFault::Memory) => sees_seal(rt, answers, b"A"),
        said => said,
    }
}

const COUNTERS: &[u8] = b"count h s - 1 2\ncount h s - 1 0 0 4\nend 2\n";

/// Files of counters: how many each has, or its fault, in at most 1,000 octets.
const FILES: [(&[u8], Result<usize, CounterFault>); 18] = [
    (COUNTERS, Ok(2)),
    (b"end 0\n", Ok(0)),
    (b"end 0\ncount h s - 1 2\nend 1\nend 0\n", Ok(1)),
    (b"count h s - 1 2\nend 1\ncount h s - 1 2\nend 1\n", Ok(2)),
    (b"", Err(CounterFault::NotWhole)),
    (b"count h s - 1 2\n", Err(CounterFault::NotWhole)),
    (b"count h s - 1 2\nend 1", Err(CounterFault::NotWhole)),
    (b"count h s - 1 2\nend 0\n", Err(CounterFault::NotWhole)),
    (b"count h s - 1 2\nend 2\n", Err(CounterFault::NotWhole)),
    (b"count h s - 1 2\nend 01\n", Err(CounterFault::NotWhole)),
    (b"count h s - 1 2\nend 1\r\n", Err(CounterFault::NotWhole)),
    (
        b"count h s - 1 2\nend 1\ncount h s - 1 2\nend 2\n",
        Err(CounterFault::NotWhole),
    ),
    (
        b"count h s - 1 2\nend 1\ncount h s - 1 2\n",
        Err(CounterFault::NotWhole),
    ),
    (b"count h s - 1 2\nend 1\nx", Err(CounterFault::NotWhole)),
    (b"end 1\nx\n", Err(CounterFault::NotWhole)),
    (b"x\nend 1\n", Err(CounterFault::BadLine { line: 1 })),
    (
        b"count h s - 1 2\nend 1\n\n",
        Err(CounterFault::BadLine { line: 3 }),
    ),
    (
        b"count h s - 1 2\nend\n",
        Err(CounterFault::BadLine { line: 2 }),
    ),
];

fn count(alloc: Global, text: &[u8]) -> Result<usize, CounterFault> {
    let mut reader = Watched::new(text);
    Ok(read_counters(alloc, &mut reader, 1000)?.as_slice().len())
}

#[test]
fn reads_files_of_counters(rt: HostRuntime) {
    for (text, wanted) in &FILES {
        assert_eq!(rt; count(rt.alloc(), text), *wanted, "{text:?}");
    }
}

/// The session of these counters.
fn session(alloc: Global) -> Result<Session, NoMemory> {
    let host = Vec::from_slice(alloc, b"h")?;
    let app = Vec::from_slice(alloc, b"s")?;
    Ok(Session {
        host: Field::Text(Bytes::from_vec(host)),
        app: Field::Text(Bytes::from_vec(app)),
        procid: Field::Nil,
        rsid: 1,
    })
}

/// Where an originator with this grouping goes on by them: its GBC, and the number of its first group.
fn start(alloc: Global, grouping: &Grouping) -> Result<(u64, Option<NextNumber>), StartFault> {
    let mut reader = Watched::new(COUNTERS);
    let Ok(counters) = read_counters(alloc, &mut reader, 1000) else {
        return Err(StartFault::Memory);
    };
    let session = session(alloc)?;
    let start = start_of(alloc, &session, grouping, counters.as_slice())?;
    Ok((start.gbc, start.groups.as_slice().first().copied()))
}

/// `tests/memory.sh` refuses each allocation of this test in turn, and it passes each time.
#[test]
fn goes_on_after_want_of_memory(rt: HostRuntime) -> Result<(), Fail> {
    for (text, max, fault) in &REFUSED {
        assert_eq!(rt; read_on(&rt, text, *max).err(), Some(*fault), "{text:?}");
    }
    let answers = read_on(&rt, LINES, 1000)?;
    sees(&rt, &answers, b"KEY", by_zeros(b"A"), (true, true));
    sees(&rt, &answers, b"KEY", by_zeros(b"B"), (true, false));
    sees_no_seal(&rt, &answers, b"KEY");
    sees_seal_on(&rt, &answers)?;
    let counted = match count(rt.alloc(), COUNTERS) {
        Err(CounterFault::Memory) => count(rt.alloc(), COUNTERS),
        counted => counted,
    };
    assert_eq!(rt; counted, Ok(2));
    let grouping = Grouping::One { spri: 0 };
    let started = match start(rt.alloc(), &grouping) {
        Err(StartFault::Memory) => start(rt.alloc(), &grouping),
        started => started,
    };
    let next = NextNumber { spri: 0, number: 4 };
    assert_eq!(rt; started, Ok((2, Some(next))));
    let other = match start(rt.alloc(), &Grouping::ByPri) {
        Err(StartFault::Memory) => start(rt.alloc(), &Grouping::ByPri),
        other => other,
    };
    assert_eq!(rt; other, Err(StartFault::OtherGroup { counter: 2 }));
    Ok(())
}
