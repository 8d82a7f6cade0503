//! Who answers for signatures in these tests, and the runs that ask.
ghost use Rattle.std.specs.Prelude.{◌≡◌, ◌&&◌, ◌||◌, false, true, Bool};
ghost use Rattle.std.specs.Str.{bytes_eq};
ghost use Rattle.ss_frame.specs.Watched.{has_failed};

use crate::texts::{Text, signed_of};
use ss_block::Scheme;
use ss_frame::Form;
use ss_report::{
    Extraction, Notation, Payloads, Run, RunFault, Selection, Verdict, run_extract, run_questions,
    run_review,
};
use ss_review::{Counter, Judge, Verifier};
use std::alloc::{AllocError, Global};
use std::io::{Read, Write};

/// The payload of the certificate blocks.
pub const PAYLOAD: &[u8] = b"2009-05-03T14:00:39Z K S0VZ";

/// The signature that the blocks carry: `AAAA` in base64.
pub const SIGN: &[u8] = b"\0\0\0";

/// The answers on payloads and signatures.
#[derive(Clone, Copy)]
pub enum Who {
    /// Yes to everything.
    All,
    /// Yes to no payload, and to two texts under the usual one.
    NoPayload(Text, Text),
    /// Yes to the payload, and under it to no signature.
    NoSignature,
    /// Yes to the payload, and under it to these texts.
    Only(Text, Text),
}

/// A scheme in which all is trusted and valid, or one payload is trusted, and two texts have one valid signature under
/// one payload.
#[derive(Clone, Copy)]
pub struct Book<'b> {
    all: bool,
    trusted: &'b [u8],
    payload: &'b [u8],
    signed: (&'b [u8], &'b [u8]),
    sign: &'b [u8],
}

impl<'b> Scheme for Book<'b> {
    ghost trusted = { λ b p. b.all || bytes_eq p b.trusted.now };

    ghost valid = { λ b p x s. b.all || (bytes_eq p b.payload.now && bytes_eq s b.sign.now
        && (bytes_eq x b.signed.0.now || bytes_eq x b.signed.1.now)) };
}

impl<'b> Book<'b> {
    pub(crate) fn trusts(&self, payload: &[u8]) -> bool
        ensures { result ≡ (self.now.all || bytes_eq payload.now self.now.trusted.now) }
    {
        self.all || payload == self.trusted
    }

    pub(crate) fn accepts(&self, payload: &[u8], octets: &[u8], sign: &[u8]) -> bool
        ensures { result
            ≡ (self.now.all || (bytes_eq payload.now self.now.payload.now && bytes_eq sign.now self.now.sign.now
            && (bytes_eq octets.now self.now.signed.0.now || bytes_eq octets.now self.now.signed.1.now))) }
    {
        self.all
            || (payload == self.payload
                && sign == self.sign
                && (octets == self.signed.0 || octets == self.signed.1))
    }
}

/// Which run over a log.
#[derive(Clone, Copy, Debug)]
pub enum Job {
    Review,
    Questions,
    QuestionsJson,
    QuestionsOnce,
    QuestionsOnceJson,
    Extract,
    Carry,
}

/// The messages that a run extracts, as frames.
fn frames_of(job: Job) -> Extraction {
    let selection = match job {
        Job::Carry => Selection::Carried,
        _ => Selection::Listed,
    };
    Extraction {
        selection,
        form: Form::Frames,
        unwrap: false,
    }
}

/// Runs over a log with two closures that answer as `book` says.
pub(crate) fn run_by<R: Read, W: Write>(
    run: Run<'_, R, W>,
    job: Job,
    book: &Book<'_>,
) -> Result<Verdict, RunFault>
    requires reader { has_failed run.reader.now ≡ false }
    requires writer { has_failed run.writer.now ≡ false }
{
    let Run {
        reader,
        writer,
        options,
        known,
        alloc,
    } = run;
    let trust = |payload: &[u8]| book.trusts(payload);
    let check = |payload: &[u8], octets: &[u8], sign: &[u8]| book.accepts(payload, octets, sign);
    let verifier = Verifier::new(book, trust, check);
    match job {
        Job::Review => run_review(alloc, reader, writer, &verifier, options.limits),
        Job::Questions | Job::QuestionsJson | Job::QuestionsOnce | Job::QuestionsOnceJson => {
            let run = Run {
                reader,
                writer,
                options,
                known,
                alloc,
            };
            run_questions(run, notation_of(job), payloads_of(job))
        }
        Job::Extract | Job::Carry => {
            let run = Run {
                reader,
                writer,
                options,
                known,
                alloc,
            };
            run_extract(run, verifier, frames_of(job))
        }
    }
}

/// In which notation the questions of a run are written.
fn notation_of(job: Job) -> Notation {
    match job {
        Job::QuestionsJson | Job::QuestionsOnceJson => Notation::Json,
        _ => Notation::Plain,
    }
}

/// Where the payloads stand in the questions of a run.
fn payloads_of(job: Job) -> Payloads {
    match job {
        Job::QuestionsOnce | Job::QuestionsOnceJson => Payloads::Once,
        _ => Payloads::InEach,
    }
}

/// No counter.
pub(crate) fn no_counters<'c>() -> &'c [Counter] {
    &[]
}

/// Says yes to everything.
#[derive(Drop)]
pub struct Yes;

impl Judge for Yes {
    ghost sound = { λ _. Unit {0} };

    ghost askable = { λ _ _. Unit {0} };

    ghost trusted = { λ _ _. true };

    ghost valid = { λ _ _ _ _. true };

    fn trusts(&self, _payload: &[u8]) -> bool {
        true
    }

    fn accepts(&self, _payload: &[u8], _octets: &[u8], _signature: &[u8]) -> bool {
        true
    }
}

/// The two texts whose signatures are valid.
fn valid_texts(who: Who) -> Option<(Text, Text)> {
    match who {
        Who::NoPayload(first, second) | Who::Only(first, second) => Some((first, second)),
        _ => None,
    }
}

/// What is signed of the first text and of the second, or nothing.
pub(crate) fn signed_texts(alloc: Global, who: Who) -> Result<(Vec<u8>, Vec<u8>), AllocError> {
    match valid_texts(who) {
        Some((first, second)) => Ok((signed_of(alloc, first)?, signed_of(alloc, second)?)),
        None => Ok((Vec::new(alloc), Vec::new(alloc))),
    }
}

/// The book with this answer, where these octets are signed.
pub(crate) fn book_of<'b>(who: Who, signed: (&'b [u8], &'b [u8])) -> Book<'b> {
    Book {
        all: matches!(who, Who::All),
        trusted: match who {
            Who::NoPayload(..) => b"",
            _ => PAYLOAD,
        },
        payload: PAYLOAD,
        signed,
        sign: SIGN,
    }
}
