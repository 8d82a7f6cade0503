//! Asks a frame reader for its frames, and compares each answer with what is wanted.
use ss_frame::{FrameFault, FrameReader, Limits, Step, Watched};
use std::alloc::{AllocError, Global};
use std::io::Read;
use test_devices::{Cells, Pieces};

/// What a call is to answer.
#[derive(Clone, Copy)]
pub enum Want<'w> {
    /// This message.
    Message(&'w [u8]),
    /// The end after a frame.
    Done,
    /// The end inside the frame that begins at this offset.
    Torn(u64),
    /// This fault.
    Fault(FrameFault),
}

impl<'w> Want<'w> {
    /// What each call after an end is to answer.
    fn again(self) -> Want<'w> {
        match self {
            Want::Fault(_) => Want::Fault(FrameFault::Failed),
            other => other,
        }
    }

    /// Whether a read has failed, and whether the frames have.
    fn failures(self) -> (bool, bool) {
        (
            matches!(self, Want::Fault(FrameFault::Read)),
            matches!(self, Want::Fault(_)),
        )
    }

    pub(crate) fn is_given(self, answer: &Result<Step, FrameFault>) -> bool {
        match (self, answer) {
            (Want::Message(octets), Ok(Step::Message(message))) => message.as_slice() == octets,
            (Want::Done, Ok(Step::Done)) => true,
            (Want::Torn(start), Ok(Step::Torn { pos })) => start == *pos,
            (Want::Fault(wanted), Err(fault)) => wanted == *fault,
            _ => false,
        }
    }
}

/// The limits that the next three cells state: `frames` or `lines`, the most octets of a message, and the most
/// messages.
pub(crate) fn limits_of(cells: &mut Cells<'_>) -> Option<Limits> {
    let form = cells.octets();
    let max_len = u32::try_from(cells.number()?).ok()?;
    let max_messages = u32::try_from(cells.number()?).ok()?;
    let limits = Limits::new(max_len, max_messages)?;
    if form == b"lines".as_slice() {
        return Some(limits.lines());
    }
    if form == b"frames".as_slice() {
        Some(limits)
    } else {
        None
    }
}

/// The fault of this letter at an offset.
fn fault_of(letter: u8, pos: u64) -> Option<FrameFault> {
    match letter {
        b'n' => Some(FrameFault::BadLength { pos }),
        b'l' => Some(FrameFault::TooLong { pos }),
        b'm' => Some(FrameFault::TooManyMessages { pos }),
        b'e' => Some(FrameFault::EmptyLine { pos }),
        _ => None,
    }
}

/// The answer of a cell. `=` stands before a message, and `.` is the end after a frame. Before an offset, `t` is the
/// end inside the frame that begins there. `n`, `l`, `m` and `e` are the faults of a length that is no number, of one
/// that is too long, of too many messages and of an empty line.
fn want_of(cell: &[u8]) -> Option<Want<'_>> {
    let (letter, rest) = cell.split_first()?;
    if *letter == b'=' {
        return Some(Want::Message(rest));
    }
    if *letter == b'.' {
        return Some(Want::Done);
    }
    let pos = Cells::new(rest).number()?;
    if *letter == b't' {
        return Some(Want::Torn(pos));
    }
    Some(Want::Fault(fault_of(*letter, pos)?))
}

/// An answer, and how many octets are then taken.
fn wanted<'w>(cells: &mut Cells<'w>) -> Option<(Want<'w>, u64)> {
    let taken = cells.number()?;
    Some((want_of(cells.octets())?, taken))
}

/// The answers of the cells that are left, two cells each; none where a cell has none.
pub(crate) fn wants_of<'w>(
    alloc: Global,
    cells: Cells<'w>,
) -> Result<Option<Vec<(Want<'w>, u64)>>, AllocError> {
    let mut cells = cells;
    let mut wants = Vec::new(alloc);
    for _ in 0..cells.rest().len() {
        if cells.rest().is_empty() {
            break;
        }
        let Some(want) = wanted(&mut cells) else {
            return Ok(None);
        };
        wants.push(want)?;
    }
    Ok(Some(wants))
}

/// Whether a call answers so, and leaves so many octets taken, of the reader as of the frames.
fn is_answered(
    frames: &mut FrameReader,
    pieces: &mut Pieces<'_>,
    want: Want<'_>,
    taken: u64,
) -> bool {
    let mut reader = Watched::new(*pieces);
    let answer = frames.next_frame(&mut reader);
    let failed = (reader.failed(), frames.failed());
    *pieces = reader.into_inner();
    want.is_given(&answer)
        && (frames.offset(), pieces.taken) == (taken, taken)
        && failed == want.failures()
}

/// Whether two more calls after an end answer so again, and read nothing.
fn is_over(frames: &mut FrameReader, pieces: &mut Pieces<'_>, last: Want<'_>, taken: u64) -> bool {
    let reads = pieces.reads;
    let want = last.again();
    is_answered(frames, pieces, want, taken)
        && is_answered(frames, pieces, want, taken)
        && pieces.reads == reads
}

/// Whether the frames of `pieces` are these answers, each with the octets that are then taken. The last is an end, and
/// two more calls after it read nothing.
pub(crate) fn are_answers(
    alloc: Global,
    limits: Limits,
    pieces: Pieces<'_>,
    wants: &[(Want<'_>, u64)],
) -> bool {
    let mut pieces = pieces;
    let mut frames = FrameReader::new(alloc, limits);
    for (want, taken) in wants {
        if !is_answered(&mut frames, &mut pieces, *want, *taken) {
            return false;
        }
    }
    match wants.last() {
        Some((last, taken)) => is_over(&mut frames, &mut pieces, *last, *taken),
        None => false,
    }
}

/// One call; none where something failed before it.
fn next<R: Read>(
    frames: &mut FrameReader,
    reader: &mut Watched<R>,
) -> Option<Result<Step, FrameFault>> {
    if reader.failed() || frames.failed() {
        return None;
    }
    Some(frames.next_frame(reader))
}

/// One call, which is made again where it wants memory.
fn next_again<R: Read>(
    frames: &mut FrameReader,
    reader: &mut Watched<R>,
) -> Option<Result<Step, FrameFault>> {
    match next(frames, reader) {
        Some(Err(FrameFault::Memory)) => next(frames, reader),
        answer => answer,
    }
}

/// Whether a call, before which nothing has failed, answers so and leaves so many octets taken. A call that wants
/// memory is made again.
pub(crate) fn is_next<R: Read>(
    frames: &mut FrameReader,
    reader: &mut Watched<R>,
    want: Want<'_>,
    taken: u64,
) -> bool {
    match next_again(frames, reader) {
        Some(answer) => want.is_given(&answer) && frames.offset() == taken,
        None => false,
    }
}

/// As `are_answers`, over one watched reader and up to the last of `wants`. A call that wants memory is made again.
pub(crate) fn are_next(
    alloc: Global,
    limits: Limits,
    pieces: Pieces<'_>,
    wants: &[(Want<'_>, u64)],
) -> bool {
    let mut reader = Watched::new(pieces);
    let mut frames = FrameReader::new(alloc, limits);
    for (want, taken) in wants {
        if !is_next(&mut frames, &mut reader, *want, *taken) {
            return false;
        }
    }
    true
}
