//! Asks a salvaging reader for all that a log holds, and compares each answer with what is wanted.
use ss_frame::{FrameFault, Limits, Watched};
use ss_salvage::{SalvageReader, SalvageStep};
use std::alloc::AllocGlobal;
use std::process::Abort;
use test_devices::Pieces;

/// What a call is to answer.
#[derive(Clone, Copy, Debug)]
pub enum Want<'w> {
    /// This message.
    Message(&'w [u8]),
    /// A damaged stretch, by the offset of its first octet and how many it has.
    Damaged(u64, u64),
    /// The end after a frame or a damaged stretch.
    Done,
    /// The end inside the frame that begins at this offset.
    Torn(u64),
    /// This fault.
    Fault(FrameFault),
}

impl<'w> Want<'w> {
    /// What each call after an end is to answer.
    fn again(self) -> Want<'w> {
        match self {
            Want::Fault(_) => Want::Fault(FrameFault::Failed),
            other => other,
        }
    }

    /// Whether a call answers this.
    fn is_given(self, answer: &Result<SalvageStep, FrameFault>) -> bool {
        match (self, answer) {
            (Want::Message(octets), Ok(SalvageStep::Message(message))) => {
                message.as_slice() == octets
            }
            (Want::Damaged(first, count), Ok(SalvageStep::Damaged { at, len })) => {
                first == *at && count == *len
            }
            (Want::Done, Ok(SalvageStep::Done)) => true,
            (Want::Torn(start), Ok(SalvageStep::Torn { pos })) => start == *pos,
            (Want::Fault(wanted), Err(fault)) => wanted == *fault,
            _ => false,
        }
    }
}

/// One call, which is to answer as wanted. If memory runs out in it, it is made again.
fn ask(
    rt: &impl Abort,
    name: &str,
    salvage: &mut SalvageReader,
    pieces: &mut Pieces<'_>,
    want: Want<'_>,
) {
    let mut reader = Watched::new(*pieces);
    let mut answer = salvage.next_step(&mut reader);
    if let Err(FrameFault::Memory) = answer {
        answer = salvage.next_step(&mut reader);
    }
    *pieces = reader.into_inner();
    assert!(rt; want.is_given(&answer), "{name}: {answer:?}, not {want:?}");
    if let Ok(SalvageStep::Message(message)) = answer {
        salvage.reuse(message);
    }
}

/// Asks for all that `pieces` hold. The last answer is an end, and two more calls after it read nothing.
pub(crate) fn ask_all(
    rt: &(impl Abort + AllocGlobal),
    name: &str,
    limits: Limits,
    pieces: Pieces<'_>,
    wants: &[Want<'_>],
) {
    let mut pieces = pieces;
    let made = match SalvageReader::new(rt.alloc(), limits) {
        Err(_) => SalvageReader::new(rt.alloc(), limits),
        made => made,
    };
    let Ok(mut salvage) = made else {
        assert!(rt; false, "{name}: out of memory");
        return;
    };
    for want in wants {
        ask(rt, name, &mut salvage, &mut pieces, *want);
    }
    if let Some(last) = wants.last() {
        let reads = pieces.reads;
        ask(rt, name, &mut salvage, &mut pieces, last.again());
        ask(rt, name, &mut salvage, &mut pieces, last.again());
        assert_eq!(rt; pieces.reads, reads, "{name}: after {last:?}");
    }
}
