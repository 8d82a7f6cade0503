//! Fragments that agree and disagree, rising and falling, and far too many of them.
use ss_block::Joined::{Agreed, Disagrees};
use ss_block::{JoinState, Joined, Joiner};
use ss_octets::NoMemory;
use std::alloc::Global;
use std::test::Fail;
use test_devices::Cells;

/// Fragments that a joiner takes in turn, with `;` between two: TPBL, INDEX and FRAG, what the joiner answers, and its
/// state then, with its payload if that is whole.
#[rattlefmt::skip]
const SEQUENCES: [(&str, &[u8]); 11] = [
    // The worked example of a payload in two fragments, out of order, and another total.
    ("the worked example",
        b"27|18|39Z K S0VZ|agrees|incomplete;\
          27|1|2009-05-03T14:00:39Z|agrees|whole|2009-05-03T14:00:39Z K S0VZ;\
          28|1|2|disagrees|disputed"),
    // The longest payload there is, of which four octets come.
    ("the longest payload",
        b"99999999|99999999|x|agrees|incomplete;\
          99999999|1|ab|agrees|incomplete;\
          99999999|2|bc|agrees|incomplete;\
          99999999|3|d|disagrees|disputed"),
    // Fragments that overlap, repeat and lie within others, and agree.
    ("overlapping",
        b"10|3|cdef|agrees|incomplete;\
          10|1|abcd|agrees|incomplete;\
          10|3|cdef|agrees|incomplete;\
          10|5|efgh|agrees|incomplete;\
          10|10|j|agrees|incomplete;\
          10|9|i|agrees|whole|abcdefghij;\
          10|1|abcdefghij|agrees|whole|abcdefghij;\
          10|4|d|agrees|whole|abcdefghij"),
    // An octet in the middle that differs: from then on each fragment over it disagrees, whichever octet it has.
    ("one octet apart",
        b"10|1|abcdefghij|agrees|whole|abcdefghij;\
          10|3|cdXfg|disagrees|disputed;\
          10|3|cd|agrees|disputed;\
          10|5|e|disagrees|disputed;\
          10|5|X|disagrees|disputed;\
          10|5|Y|disagrees|disputed;\
          10|6|fghij|agrees|disputed;\
          10|1|abcdefghij|disagrees|disputed"),
    // The first octet differs, and the last one.
    ("both ends apart",
        b"6|2|bcde|agrees|incomplete;\
          6|1|aX|disagrees|disputed;\
          6|5|Yf|disagrees|disputed;\
          6|3|cd|agrees|disputed;\
          6|1|a|agrees|disputed"),
    // Another total comes last.
    ("another total last",
        b"4|1|abcd|agrees|whole|abcd;\
          3|1|abc|disagrees|disputed;\
          4|1|abcd|disagrees|disputed;\
          3|1|abc|disagrees|disputed"),
    // Another total comes first, and the payload is never whole.
    ("another total first",
        b"9|1|a|agrees|incomplete;\
          4|1|ab|disagrees|disputed;\
          4|3|cd|disagrees|disputed;\
          9|5|efghi|disagrees|disputed"),
    // The shortest payload.
    ("the shortest payload",
        b"1|1|a|agrees|whole|a;\
          1|1|a|agrees|whole|a;\
          1|1|b|disagrees|disputed;\
          1|1|a|disagrees|disputed"),
    // Fragments over many multiples of 16, the last of which fills the gap before the first.
    ("over many multiples of 16",
        b"70|17|qrstuvwxyzABCDEFGHIJKLMNOPQRSTUVWXYZ0123456789|agrees|incomplete;\
          70|60|789abcdefgh|agrees|incomplete;\
          70|1|abcdefghijklmno|agrees|incomplete;\
          70|16|p|agrees|whole|abcdefghijklmnopqrstuvwxyzABCDEFGHIJKLMNOPQRSTUVWXYZ0123456789abcdefgh;\
          70|15|opqr|agrees|whole|abcdefghijklmnopqrstuvwxyzABCDEFGHIJKLMNOPQRSTUVWXYZ0123456789abcdefgh;\
          70|31|EFGH|agrees|whole|abcdefghijklmnopqrstuvwxyzABCDEFGHIJKLMNOPQRSTUVWXYZ0123456789abcdefgh;\
          70|31|EFgH|disagrees|disputed"),
    // The last index has no octet until the last fragment comes.
    ("the last index last",
        b"3|1|ab|agrees|incomplete;\
          3|2|b|agrees|incomplete;\
          3|3|c|agrees|whole|abc"),
    // The first index has no octet until the last fragment comes.
    ("the first index last",
        b"3|2|bc|agrees|incomplete;\
          3|2|b|agrees|incomplete;\
          3|1|a|agrees|whole|abc"),
];

/// Adds a fragment, or nothing where it isn't in the ranges of RFC 5848, section 5.3.2.
pub(crate) fn add(
    joiner: &mut Joiner,
    total: u32,
    index: u32,
    fragment: &[u8],
) -> Option<Result<Joined, NoMemory>> {
    let length = fragment.len();
    if total < 1 || total > 99_999_999 || index < 1 || index > 99_999_999 {
        return None;
    }
    if length < 1 || length > 9_999 || index as usize + length - 1 > total as usize {
        return None;
    }
    Some(joiner.add(total, index, fragment))
}

/// Adds a fragment, and once more where memory ran out and left the state as it was.
fn add_again(
    joiner: &mut Joiner,
    total: u32,
    index: u32,
    fragment: &[u8],
) -> Option<Result<Joined, NoMemory>> {
    let state = joiner.state();
    match add(joiner, total, index, fragment) {
        Some(Err(_)) if joiner.state() == state => add(joiner, total, index, fragment),
        answer => answer,
    }
}

/// Whether the joiner has this state, and its payload, which is asked for once more where memory ran out, is that of
/// it.
fn is_then(joiner: &Joiner, then: Cells<'_>) -> Result<bool, NoMemory> {
    let payload = match joiner.payload() {
        Ok(payload) => payload,
        Err(_) => joiner.payload()?,
    };
    let mut cells = then;
    let state = cells.octets();
    Ok(match (payload, joiner.state()) {
        (Some(payload), JoinState::Whole) => {
            state == b"whole".as_slice() && payload.as_slice() == cells.octets()
        }
        (None, JoinState::Incomplete) => state == b"incomplete".as_slice(),
        (None, JoinState::Disputed) => state == b"disputed".as_slice(),
        _ => false,
    })
}

fn is_incomplete(joiner: &Joiner) -> Result<bool, NoMemory> {
    is_then(joiner, Cells::new(b"incomplete"))
}

fn is_incomplete_at_first(alloc: Global) -> Result<bool, NoMemory> {
    is_incomplete(&Joiner::new(alloc))
}

/// The number of a cell; none if it has none of 32 bits.
fn number(cells: &mut Cells<'_>) -> Option<u32> {
    u32::try_from(cells.number()?).ok()
}

/// Adds the fragment of the next three cells.
fn answer_to(joiner: &mut Joiner, cells: &mut Cells<'_>) -> Option<Result<Joined, NoMemory>> {
    let total = number(cells)?;
    let index = number(cells)?;
    add_again(joiner, total, index, cells.octets())
}

/// Whether a joiner bears out a step.
fn is_step(joiner: &mut Joiner, step: &[u8]) -> Result<bool, NoMemory> {
    let mut cells = Cells::new(step);
    let wanted = match answer_to(joiner, &mut cells) {
        Some(Ok(Agreed)) => b"agrees".as_slice(),
        Some(Ok(Disagrees)) => b"disagrees",
        Some(Err(_)) => return Err(NoMemory),
        None => return Ok(false),
    };
    Ok(cells.octets() == wanted && is_then(joiner, cells)?)
}

/// The first step, counted from 0, that a joiner which takes them all in turn doesn't bear out.
fn first_wrong(alloc: Global, steps: &[u8]) -> Result<Option<usize>, NoMemory> {
    let mut joiner = Joiner::new(alloc);
    for (number, step) in steps.split(|octet| *octet == b';').enumerate() {
        if !is_step(&mut joiner, step)? {
            return Ok(Some(number));
        }
    }
    Ok(None)
}

/// `tests/memory.sh` refuses each allocation of this test in turn, and it passes each time: what was refused leaves the
/// joiner as it was, and is done when it is asked again.
#[test]
fn sequences(rt: HostRuntime) -> Result<(), Fail> {
    for (name, steps) in &SEQUENCES {
        let wrong = first_wrong(rt.alloc(), steps)?;
        assert!(rt; wrong.is_none(), "{name}: step {wrong:?}");
    }
    assert!(rt; is_incomplete_at_first(rt.alloc())?);
    Ok(())
}

/// Adds a fragment, and reports whether it agrees and leaves this state.
fn agrees(
    joiner: &mut Joiner,
    at: (u32, u32),
    fragment: &[u8],
    state: JoinState,
) -> Result<bool, NoMemory> {
    match add(joiner, at.0, at.1, fragment) {
        Some(answer) => Ok(answer? == Agreed && joiner.state() == state),
        None => Ok(false),
    }
}

/// Whether it agrees at both ends of the longest payload.
fn agrees_at_both_ends(alloc: Global, fragment: &[u8]) -> Result<bool, NoMemory> {
    let mut joiner = Joiner::new(alloc);
    for index in [1, 99_990_001, 5_000, 99_980_002] {
        let at = (99_999_999, index);
        if !agrees(&mut joiner, at, fragment, JoinState::Incomplete)? {
            return Ok(false);
        }
    }
    Ok(true)
}

/// Whether it is a payload of its own.
fn is_whole(alloc: Global, fragment: &[u8]) -> Result<bool, NoMemory> {
    let mut joiner = Joiner::new(alloc);
    Ok(
        agrees(&mut joiner, (9_999, 1), fragment, JoinState::Whole)?
            && is_payload(&joiner, fragment)?,
    )
}

fn is_payload(joiner: &Joiner, text: &[u8]) -> Result<bool, NoMemory> {
    match joiner.payload()? {
        Some(payload) => Ok(payload.as_slice() == text),
        None => Ok(false),
    }
}

/// Joiners of the longest payload with one octet each, from the last to the first.
fn joiners(alloc: Global) -> Result<Option<Vec<Joiner>>, NoMemory> {
    let mut joiners = Vec::new(alloc);
    for i in 0..1_000 {
        let mut joiner = Joiner::new(alloc);
        let at = (99_999_999, 99_999_999 - i);
        if !agrees(&mut joiner, at, b"x", JoinState::Incomplete)? {
            return Ok(None);
        }
        joiners.push(joiner)?;
    }
    Ok(Some(joiners))
}

/// Whether each of the joiners agrees, and is then incomplete.
fn are_many_incomplete(alloc: Global) -> Result<bool, NoMemory> {
    let Some(joiners) = joiners(alloc)? else {
        return Ok(false);
    };
    for joiner in &joiners {
        if !is_incomplete(joiner)? {
            return Ok(false);
        }
    }
    Ok(true)
}

/// The longest fragment, at both ends of the longest payload and as a payload of its own, and a total that reserves
/// nothing: a thousand joiners of the longest payload, with one octet each.
#[test]
fn longest(rt: HostRuntime) -> Result<(), Fail> {
    let fragment = [b'x'; 9_999];
    assert!(rt; agrees_at_both_ends(rt.alloc(), &fragment)?);
    assert!(rt; is_whole(rt.alloc(), &fragment)?);
    assert!(rt; are_many_incomplete(rt.alloc())?);
    Ok(())
}

/// The first index at which an octet disagrees, or 0 where the payload isn't incomplete then.
fn wrong_odd(alloc: Global) -> Result<Option<u32>, NoMemory> {
    let mut joiner = Joiner::new(alloc);
    for i in 0..20_000 {
        let index = if i < 10_000 {
            2 * i + 1
        } else {
            39_999 - 2 * i
        };
        let at = (99_999_999, index);
        if !agrees(&mut joiner, at, b"x", JoinState::Incomplete)? {
            return Ok(Some(index));
        }
    }
    Ok(if is_incomplete(&joiner)? {
        None
    } else {
        Some(0)
    })
}

/// The first index whose octet disagrees or leaves another state, or 0 where the payload isn't whole then.
fn wrong_falling(alloc: Global) -> Result<Option<u32>, NoMemory> {
    let mut joiner = Joiner::new(alloc);
    for i in 0..10_000 {
        let state = if i < 9_999 {
            JoinState::Incomplete
        } else {
            JoinState::Whole
        };
        let before = joiner.state();
        if before != JoinState::Incomplete
            || !agrees(&mut joiner, (10_000, 10_000 - i), b"x", state)?
        {
            return Ok(Some(10_000 - i));
        }
    }
    Ok(if is_payload(&joiner, &[b'x'; 10_000])? {
        None
    } else {
        Some(0)
    })
}

/// One octet at each odd index, rising and then falling again: each is a run of its own for whoever keeps runs. And one
/// at each index, falling: whole with the last that comes, and not before.
#[test]
fn ten_thousand_octets(rt: HostRuntime) -> Result<(), Fail> {
    assert_eq!(rt; wrong_odd(rt.alloc())?, None);
    assert_eq!(rt; wrong_falling(rt.alloc())?, None);
    Ok(())
}
