//! Scripts of calls, with all that is sent, refused and counted.
use super::sealing::{Lenient, Seal, answer};
use super::settings::{At, Groups, Setting, are, config, counters, payload};
use super::texts::{
    A, A_FLUSHED, A_UNSTAMPED, B, B_ALONE, B_STAMPED, BACK, BY_SHA256, C, C_AND_E, C_STAMPED, D, E,
    FIRST_OF_13, FIRST_OF_14, FRONT, LAST_OF_ALL, RANGE_TO_13, RANGE_TO_191, THIRD_OF_13, WHOLE,
    WHOLE_BY_SHA256, WHOLE_STAMPED,
};
use Call::{Begin, BeginAt, Flush, FlushAt, Submit, SubmitAt};
use OriginFault::{
    AlreadyBegun, CounterSpent, HasBlock, Memory, NotBegun, NotSyslog, NumbersSpent, SealRefused,
    SignatureLength,
};
use Step::{Counters, Lengths, Refused, Sent};
use ss_block::{Alg, Session};
use ss_message::{Field, Stamp};
use ss_octets::NoMemory;
use ss_origin::{Emitted, OriginFault, Originator, Sealer, Seals};
use std::alloc::Global;
use std::cell::Cell;
use std::process::Abort;
use std::test::Fail;

/// A call, without a stamp or with this one.
#[derive(Clone, Copy, Debug)]
enum Call {
    Begin,
    BeginAt(&'static [u8]),
    Submit(&'static [u8]),
    SubmitAt(&'static [u8], &'static [u8]),
    Flush,
    FlushAt(&'static [u8]),
}

/// A call, what the sealer answers in it, and what comes of it; or what the counters are.
#[derive(Clone, Copy, Debug)]
enum Step {
    /// These messages.
    Sent(Call, Seal, &'static [&'static [u8]]),
    /// Messages of so many octets.
    Lengths(Call, Seal, &'static [usize]),
    Refused(Call, Seal, OriginFault),
    Counters(At),
}

/// Where the originator goes on after another one, if it does, and the calls.
#[derive(Clone, Copy)]
struct Script {
    name: &'static str,
    setting: Setting,
    behind: Option<At>,
    steps: &'static [Step],
}

/// `AAAA` in base64.
const SIGNS: Seal = Seal::Zeros(3);

const BY_PRI: Setting = Setting {
    msgid: None,
    alg: Alg::Sha1,
    rsid: 1,
    groups: Groups::ByPri,
    per_block: 2,
    copies: 1,
    frag: 20,
};

const ONE_HASH: Setting = Setting {
    msgid: None,
    alg: Alg::Sha1,
    rsid: 1,
    groups: Groups::ByPri,
    per_block: 1,
    copies: 1,
    frag: 20,
};

/// A message with an element `ssign`.
const HAS_BLOCK: &[u8] =
    b"<110>1 - h s - - [ssign VER=\"0111\" RSID=\"1\" SG=\"0\" SPRI=\"0\" GBC=\"0\" FMN=\"1\" CNT=\"2\" \
        HB=\"qZk+NkcGgWq6PiVxeFDCbJzQ2J0= hJg+RBw70m66rkqh+VEp5eVGcPE=\" SIGN=\"AAAA\"]";

/// No messages of RFC 5424.
const ABC: &[u8] = b"abc";

const ALPHABET: &[u8] = b"abcdbcdecdefdefgefghfghighijhijkijkljklmklmnlmnomnopnopq";

const STAMP: &[u8] = b"2009-05-03T14:00:39Z";

const OTHER_STAMP: &[u8] = b"2009-05-03T14:00:39.5+01:00";

const SCRIPTS: [Script; 12] = [
    Script {
        name: "two groups",
        setting: BY_PRI,
        behind: None,
        steps: &[
            Refused(Submit(A), SIGNS, NotBegun),
            Refused(Submit(b"abc"), SIGNS, NotBegun),
            Refused(Flush, SIGNS, NotBegun),
            Refused(Begin, Seal::Refused, SealRefused),
            Refused(Begin, Seal::Memory, Memory),
            Refused(Begin, Seal::Zeros(0), SignatureLength),
            Counters(At(0, &[])),
            Refused(Flush, SIGNS, NotBegun),
            Sent(Begin, SIGNS, &[FRONT, BACK]),
            Refused(Begin, Seal::Refused, AlreadyBegun),
            Sent(Submit(A), Seal::Refused, &[A]),
            Sent(Submit(B), SIGNS, &[B]),
            Sent(Submit(C), SIGNS, &[C, FIRST_OF_13]),
            Refused(Submit(D), Seal::Refused, SealRefused),
            Counters(At(1, &[(13, 3), (14, 2)])),
            Refused(Submit(D), Seal::Memory, Memory),
            Refused(Submit(D), Seal::Zeros(0), SignatureLength),
            Refused(Submit(D), Seal::Zeros(1025), SignatureLength),
            Counters(At(1, &[(13, 3), (14, 2)])),
            Sent(Submit(D), SIGNS, &[D, FIRST_OF_14]),
            Sent(Flush, Seal::Refused, &[]),
            Sent(Submit(E), SIGNS, &[E]),
            Refused(Submit(b"abc"), SIGNS, NotSyslog),
            Refused(Submit(HAS_BLOCK), SIGNS, HasBlock),
            Refused(Flush, Seal::Memory, Memory),
            Refused(Flush, Seal::Refused, SealRefused),
            Counters(At(2, &[(13, 4), (14, 3)])),
            Sent(Flush, SIGNS, &[THIRD_OF_13]),
            Counters(At(3, &[(13, 4), (14, 3)])),
        ],
    },
    Script {
        name: "a flush between two messages of a group",
        setting: BY_PRI,
        behind: None,
        steps: &[
            Sent(Begin, SIGNS, &[FRONT, BACK]),
            Sent(Submit(A), SIGNS, &[A]),
            Sent(Flush, SIGNS, &[A_FLUSHED]),
            Sent(Submit(C), SIGNS, &[C]),
            Sent(Submit(E), SIGNS, &[E, C_AND_E]),
        ],
    },
    Script {
        name: "the shortest signature and the longest",
        setting: BY_PRI,
        behind: None,
        steps: &[
            Lengths(Begin, Seal::Zeros(1), &[137, 124]),
            Sent(Submit(A), SIGNS, &[A]),
            Lengths(Submit(C), Seal::Zeros(1024), &[19, 1524]),
        ],
    },
    Script {
        name: "two copies of blocks of one hash",
        setting: Setting {
            msgid: None,
            alg: Alg::Sha1,
            rsid: 1,
            groups: Groups::ByPri,
            per_block: 1,
            copies: 2,
            frag: 20,
        },
        behind: None,
        steps: &[
            Sent(Begin, SIGNS, &[FRONT, FRONT, BACK, BACK]),
            Sent(Submit(A), SIGNS, &[A, A_FLUSHED, A_FLUSHED]),
            Sent(Submit(B), SIGNS, &[B, B_ALONE, B_ALONE]),
            Counters(At(2, &[(13, 2), (14, 2)])),
        ],
    },
    Script {
        name: "a group whose numbers are spent",
        setting: BY_PRI,
        behind: Some(At(0, &[(13, 10_000_000_000)])),
        steps: &[
            Refused(Begin, SIGNS, AlreadyBegun),
            Refused(Submit(A), SIGNS, NumbersSpent),
            Sent(Submit(B), SIGNS, &[B]),
            Counters(At(0, &[(13, 10_000_000_000), (14, 2)])),
        ],
    },
    Script {
        name: "block counters that are spent",
        setting: ONE_HASH,
        behind: Some(At(10_000_000_000, &[])),
        steps: &[
            Refused(Submit(A), Seal::Refused, CounterSpent),
            Counters(At(10_000_000_000, &[])),
            Sent(Flush, Seal::Refused, &[]),
        ],
    },
    Script {
        name: "one block counter for two groups",
        setting: BY_PRI,
        behind: Some(At(9_999_999_999, &[])),
        steps: &[
            Sent(Submit(A), SIGNS, &[A]),
            Sent(Submit(B), SIGNS, &[B]),
            Refused(Flush, Seal::Refused, CounterSpent),
            Counters(At(9_999_999_999, &[(13, 2), (14, 2)])),
        ],
    },
    Script {
        name: "the last number under the last block counter",
        setting: ONE_HASH,
        behind: Some(At(9_999_999_999, &[(13, 9_999_999_999)])),
        steps: &[
            Sent(Submit(A), SIGNS, &[A, LAST_OF_ALL]),
            Refused(Submit(A), SIGNS, NumbersSpent),
            Refused(Submit(B), SIGNS, CounterSpent),
            Counters(At(10_000_000_000, &[(13, 10_000_000_000)])),
        ],
    },
    Script {
        name: "ranges",
        setting: Setting {
            msgid: None,
            alg: Alg::Sha1,
            rsid: 1,
            groups: Groups::Ranges(&[13, 191]),
            per_block: 2,
            copies: 1,
            frag: 20,
        },
        behind: Some(At(0, &[])),
        steps: &[
            Sent(Submit(B), SIGNS, &[B]),
            Sent(Submit(A), SIGNS, &[A]),
            Sent(Flush, SIGNS, &[RANGE_TO_13, RANGE_TO_191]),
            Counters(At(2, &[(13, 2), (191, 2)])),
        ],
    },
    Script {
        name: "one group by SHA-256, and the payload in one piece",
        setting: Setting {
            msgid: None,
            alg: Alg::Sha256,
            rsid: 1,
            groups: Groups::One(7),
            per_block: 2,
            copies: 1,
            frag: 27,
        },
        behind: None,
        steps: &[
            Sent(Begin, SIGNS, &[WHOLE_BY_SHA256]),
            Sent(Submit(A), SIGNS, &[A]),
            Sent(Submit(B), SIGNS, &[B, BY_SHA256]),
            Counters(At(1, &[(7, 3)])),
        ],
    },
    Script {
        name: "the payload in one piece, and texts that are no messages",
        setting: Setting {
            msgid: None,
            alg: Alg::Sha1,
            rsid: 1,
            groups: Groups::One(0),
            per_block: 10,
            copies: 1,
            frag: 500,
        },
        behind: None,
        steps: &[
            Sent(Begin, SIGNS, &[WHOLE]),
            Refused(Submit(ABC), SIGNS, NotSyslog),
            Refused(Submit(ALPHABET), SIGNS, NotSyslog),
            Counters(At(0, &[])),
        ],
    },
    Script {
        name: "a MSGID, and in each call its own stamp",
        setting: Setting {
            msgid: Some(b"m"),
            alg: Alg::Sha1,
            rsid: 1,
            groups: Groups::One(0),
            per_block: 1,
            copies: 1,
            frag: 27,
        },
        behind: None,
        steps: &[
            Refused(BeginAt(OTHER_STAMP), Seal::Refused, SealRefused),
            Sent(BeginAt(STAMP), SIGNS, &[WHOLE_STAMPED]),
            Sent(Submit(A), SIGNS, &[A, A_UNSTAMPED]),
            Refused(SubmitAt(OTHER_STAMP, B), Seal::Memory, Memory),
            Sent(SubmitAt(STAMP, B), SIGNS, &[B, B_STAMPED]),
            Sent(SubmitAt(OTHER_STAMP, C), SIGNS, &[C, C_STAMPED]),
            Sent(FlushAt(STAMP), SIGNS, &[]),
        ],
    },
];

/// How a script is played.
#[derive(Clone, Copy)]
struct Play<'p> {
    name: &'static str,
    /// What the sealer answers next.
    told: &'p Cell<Seal>,
    /// Whether a call is made again where memory runs out.
    again: bool,
}

/// Makes a call.
fn make_once<J: Seals>(originator: &mut Originator<J>, call: Call) -> Result<Emitted, OriginFault> {
    match call {
        Begin => originator.begin(None),
        BeginAt(stamp) => originator.begin(Stamp::parse(stamp)),
        Submit(message) => originator.submit(message, None),
        SubmitAt(stamp, message) => originator.submit(message, Stamp::parse(stamp)),
        Flush => originator.flush(None),
        FlushAt(stamp) => originator.flush(Stamp::parse(stamp)),
    }
}

/// Makes a call, with a sealer that answers so.
fn make<J: Seals>(
    originator: &mut Originator<J>,
    play: Play<'_>,
    call: Call,
    answers: Seal,
) -> Result<Emitted, OriginFault> {
    play.told.set(answers);
    match make_once(originator, call) {
        Err(Memory) if play.again => make_once(originator, call),
        made => made,
    }
}

/// Whether an originator's counters are these.
fn has_counters<J: Seals>(
    originator: &Originator<J>,
    play: Play<'_>,
    at: &At,
) -> Result<bool, NoMemory> {
    match originator.counters() {
        Err(_) if play.again => Ok(are(&originator.counters()?, at)),
        counters => Ok(are(&counters?, at)),
    }
}

/// The messages are these.
fn sees_messages(rt: &impl Abort, emitted: &Emitted, messages: &[&[u8]], name: &str) {
    assert_eq!(rt; emitted.as_slice().len(), messages.len(), "{name}");
    for (found, message) in emitted.as_slice().iter().zip(messages) {
        assert_eq!(rt; found.as_slice(), *message, "{name}");
    }
}

/// The messages have so many octets.
fn sees_lengths(rt: &impl Abort, emitted: &Emitted, lengths: &[usize], name: &str) {
    assert_eq!(rt; emitted.as_slice().len(), lengths.len(), "{name}");
    for (found, length) in emitted.as_slice().iter().zip(lengths) {
        assert_eq!(rt; found.as_slice().len(), *length, "{name}");
    }
}

/// Takes a step, and sees that what comes of it is that.
fn sees_step<J: Seals>(
    rt: &impl Abort,
    originator: &mut Originator<J>,
    play: Play<'_>,
    step: &Step,
) {
    let name = play.name;
    match step {
        Sent(call, answers, messages) => match make(originator, play, *call, *answers) {
            Ok(emitted) => sees_messages(rt, &emitted, messages, name),
            Err(fault) => assert!(rt; false, "{name}: {call:?}: {fault:?}"),
        },
        Lengths(call, answers, lengths) => match make(originator, play, *call, *answers) {
            Ok(emitted) => sees_lengths(rt, &emitted, lengths, name),
            Err(fault) => assert!(rt; false, "{name}: {call:?}: {fault:?}"),
        },
        Refused(call, answers, fault) => {
            let said = make(originator, play, *call, *answers);
            assert_eq!(rt; said.err(), Some(*fault), "{name}: {call:?}");
        }
        Counters(at) => {
            assert!(rt;
                has_counters(originator, play, at) == Ok(true),
                "{name}: {at:?}"
            );
        }
    }
}

/// The octets of a field; none where it is absent.
fn octets(field: &Field) -> Option<&[u8]> {
    match field {
        Field::Nil => None,
        Field::Text(octets) => Some(octets.as_slice()),
    }
}

/// The session is that of all settings here.
fn sees_session(rt: &impl Abort, session: &Session) {
    assert_eq!(rt; octets(&session.host), Some(b"h".as_slice()));
    assert_eq!(rt; octets(&session.app), Some(b"s".as_slice()));
    assert_eq!(rt; octets(&session.procid), None);
    assert_eq!(rt; session.rsid, 1);
}

/// An originator by this sealer, where the script begins.
fn start<J: Seals>(alloc: Global, script: &Script, sealer: J) -> Result<Originator<J>, OriginFault>
    requires { J.sound sealer }
{
    let Some(config) = config(alloc, &script.setting)? else {
        return Err(OriginFault::BadConfig);
    };
    Ok(match &script.behind {
        None => Originator::new(alloc, config, sealer)?,
        Some(at) => Originator::resume(alloc, config, sealer, &counters(alloc, at)?)?,
    })
}

/// Plays the script at this place with a sealer that answers by the script. Errs only before its first step.
fn play_with<J: Seals>(
    rt: &(impl Abort + AllocGlobal),
    place: usize,
    sealer: J,
    told: &Cell<Seal>,
    again: bool,
) -> Result<(), OriginFault>
    requires { J.sound sealer }
{
    let Some(script) = SCRIPTS.get(place) else {
        return Err(OriginFault::BadConfig);
    };
    let name = script.name;
    let mut originator = start(rt.alloc(), script, sealer)?;
    sees_session(rt, &originator.session()?);
    for step in script.steps {
        sees_step(rt, &mut originator, Play { name, told, again }, step);
    }
    Ok(())
}

/// A scheme, and what its sealer answers next.
#[derive(Drop)]
struct Desk {
    scheme: Lenient,
    told: Cell<Seal>,
}

/// Plays the script at this place. Errs only before its first step.
fn play_at(
    rt: &(impl Abort + AllocGlobal),
    place: usize,
    desk: &Desk,
    again: bool,
) -> Result<(), OriginFault> {
    let Some(payload) = payload(rt.alloc())? else {
        return Err(OriginFault::BadConfig);
    };
    let seal = move |alloc: Global, _octets: &[u8]| answer(alloc, desk.told.get());
    let sealer = Sealer::new(&desk.scheme, payload, seal);
    play_with(rt, place, sealer, &desk.told, again)
}

fn signing() -> Desk {
    Desk {
        scheme: Lenient,
        told: Cell::new(SIGNS),
    }
}

#[test]
fn scripts(rt: HostRuntime) -> Result<(), Fail> {
    for place in 0..SCRIPTS.len() {
        play_at(&rt, place, &signing(), false)?;
    }
    Ok(())
}

/// `tests/memory.sh` refuses each allocation of this test in turn, and it passes each time: a call that wants memory
/// leaves the originator as it was, and made again it gives the row's answer. The other tests take "out of memory" for
/// a wrong answer.
#[test]
fn goes_on_after_want_of_memory(rt: HostRuntime) -> Result<(), Fail> {
    for place in 0..SCRIPTS.len() {
        if play_at(&rt, place, &signing(), true) == Err(Memory) {
            play_at(&rt, place, &signing(), true)?;
        }
    }
    Ok(())
}
