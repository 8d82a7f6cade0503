//! Calls of which `tests/memory.sh` refuses each allocation in turn: a call answers "out of memory" then, and its
//! answer when it is made again.
use crate::blocks::writing::is_each_written;
use crate::messages::drafts::{FULL, full};
use crate::messages::examples::FOURTH;
use ss_block::{
    Cut, FullReading, Kind, Payload, Reading, Session, cut, read_fully, session_of, signed_bytes,
};
use ss_message::{
    DraftFault, Fault, Field, Message, Stamp, escape, parse, value, write_message, write_stamp,
};
use ss_octets::{Bytes, NoMemory};
use std::alloc::Global;

/// A call that takes memory.
#[derive(Clone, Copy, Debug)]
enum Call {
    Parse,
    WriteMessage,
    WriteStamp,
    Value,
    Escape,
    Payload,
    Cut,
    WriteBlocks,
    SessionOf,
    SignedBytes,
    ReadFully,
}

const CALLS: [Call; 11] = [
    Call::Parse,
    Call::WriteMessage,
    Call::WriteStamp,
    Call::Value,
    Call::Escape,
    Call::Payload,
    Call::Cut,
    Call::WriteBlocks,
    Call::SessionOf,
    Call::SignedBytes,
    Call::ReadFully,
];

/// Values that hold an escaped SIGN, in the block's element too.
const ESCAPED: &[u8] =
    b"<110>1 - - - 7 - [x@1 a=\" SIGN=\\\"x\\\"\"][ssign-cert VER=\"0121\" RSID=\"9\" SG=\"0\" SPRI=\"0\" TPBL=\"9\" \
        INDEX=\"1\" FLEN=\"9\" FRAG=\" SIGN=\\\"x\\\"\" SIGN=\"AAAA\"]";

const ESCAPED_SIGNED: &[u8] =
    b"<110>1 - - - 7 - [x@1 a=\" SIGN=\\\"x\\\"\"][ssign-cert VER=\"0121\" RSID=\"9\" SG=\"0\" SPRI=\"0\" TPBL=\"9\" \
        INDEX=\"1\" FLEN=\"9\" FRAG=\" SIGN=\\\"x\\\"\"]";

const PAYLOAD: &[u8] = b"2009-05-03T14:00:39Z K S0VZ";

/// A value as it stands, and what it stands for.
const ESCAPES: &[u8] = b"a\\\"b\\]\\\\";

const OCTETS: &[u8] = b"a\"b]\\";

const STAMP: &[u8] = b"2003-08-24T05:14:15.000003-07:00";

/// Whether the message has both of its elements, the first with three parameters, the second with one.
fn has_elements(m: &Message<'_>) -> bool {
    let elements = m.elements.as_slice();
    let (Some(first), Some(second)) = (elements.first(), elements.get(1)) else {
        return false;
    };
    elements.len() == 2
        && first.parameters.as_slice().len() == 3
        && second.parameters.as_slice().len() == 1
}

fn parses(alloc: Global) -> Result<bool, NoMemory> {
    match parse(alloc, FOURTH) {
        Ok(m) => Ok(has_elements(&m)),
        Err(Fault::Memory) => Err(NoMemory),
        Err(Fault::Bad { .. }) => Ok(false),
    }
}

fn writes_message(alloc: Global) -> Result<bool, NoMemory> {
    let draft = full(alloc)?;
    match write_message(alloc, &draft) {
        Ok(text) => Ok(text.as_slice() == FULL),
        Err(DraftFault::Memory) => Err(NoMemory),
        Err(DraftFault::Bad { .. }) => Ok(false),
    }
}

fn writes_stamp(alloc: Global) -> Result<bool, NoMemory> {
    match Stamp::parse(STAMP) {
        Some(stamp) => Ok(write_stamp(alloc, &stamp)?.as_slice() == STAMP),
        None => Ok(false),
    }
}

/// Whether the payload block is read, and written again as it stood.
fn keeps_payload(alloc: Global) -> Result<bool, NoMemory> {
    let Some(payload) = Payload::parse(alloc, PAYLOAD)? else {
        return Ok(false);
    };
    let is_read = payload.kind() == Kind::K && payload.blob().as_slice() == b"KEY".as_slice();
    Ok(is_read && payload.write(alloc)?.as_slice() == PAYLOAD)
}

fn cuts(alloc: Global) -> Result<bool, NoMemory> {
    let pieces = [Cut { index: 1, len: 20 }, Cut { index: 21, len: 7 }];
    Ok(cut(alloc, PAYLOAD, 20)?.as_slice() == pieces.as_slice())
}

/// Whether the session is that of the text, PROCID 7 and RSID 9.
fn is_session(session: &Option<Session>) -> bool {
    let Some(session) = session else {
        return false;
    };
    let Field::Text(procid) = &session.procid else {
        return false;
    };
    procid.as_slice() == b"7".as_slice() && session.rsid == 9
}

fn is_signed(signed: &Option<Bytes>) -> bool {
    match signed {
        Some(signed) => signed.as_slice() == ESCAPED_SIGNED,
        None => false,
    }
}

/// Whether the text is reported to be a certificate block, with its session and what is signed of it.
fn is_told(told: &FullReading) -> bool {
    matches!(&told.reading, Reading::Certificate(_))
        && is_session(&told.session)
        && is_signed(&told.signed)
}

/// Makes a call, and reports whether it gives what it is to give.
fn gives(alloc: Global, call: Call) -> Result<bool, NoMemory> {
    match call {
        Call::Parse => parses(alloc),
        Call::WriteMessage => writes_message(alloc),
        Call::WriteStamp => writes_stamp(alloc),
        Call::Value => Ok(value(alloc, ESCAPES)?.as_slice() == OCTETS),
        Call::Escape => Ok(escape(alloc, OCTETS)?.as_slice() == ESCAPES),
        Call::Payload => keeps_payload(alloc),
        Call::Cut => cuts(alloc),
        Call::WriteBlocks => is_each_written(alloc),
        Call::SessionOf => Ok(is_session(&session_of(alloc, ESCAPED)?)),
        Call::SignedBytes => Ok(is_signed(&signed_bytes(alloc, ESCAPED)?)),
        Call::ReadFully => Ok(is_told(&read_fully(alloc, ESCAPED)?)),
    }
}

/// `tests/memory.sh` refuses each allocation of this test in turn, and it passes each time. The other tests but those
/// of a joiner and of a reader of frames take "out of memory" for a wrong answer.
#[test]
fn gives_the_answer_after_want_of_memory(rt: HostRuntime) {
    for call in CALLS {
        let given = match gives(rt.alloc(), call) {
            Err(_) => gives(rt.alloc(), call),
            given => given,
        };
        assert_eq!(rt; given, Ok(true), "{call:?}");
    }
}
