//! The payloads of sessions, each once.
ghost use Rattle.std.specs.Prelude.{◌≡◌, ℕ, List, map, not, length, IfOk};
ghost use Rattle.ss_report.specs.texts.Payloads.{index_among, is_among, marks, with_payload};
ghost use Rattle.ss_report.specs.texts.KnownPayloads.{Knows};

use ss_octets::NoMemory;
use ss_review::AskedSession;
use std::alloc::Global;
use std::collections::BTreeMap;

/// Where the payload of a session stands among the payloads of a log, each once.
#[derive(Clone, Copy, Debug, PartialEq, Eq)]
pub(crate) struct Mark {
    /// Its index, from 0, in the order in which they come first.
    pub(crate) index: u64,
    /// Whether no session before has it.
    pub(crate) is_new: bool,
}

/// The mark of the payload of each session. Equal payloads are found by their order, in a map of references to them.
pub(crate) fn marks_of(alloc: Global, sessions: &[AskedSession]) -> Result<Vec<Mark>, NoMemory>
    ensures { IfOk result (λ v. v.items ≡ marks (map (λ s. s.payload) sessions.now)) }
{
    let mut known = BTreeMap::new(alloc);
    let mut marks = Vec::with_capacity(alloc, sessions.len())?;
    for session in sessions {
        marks.push(next_mark(&mut known, session.payload.as_slice())?)?;
    }
    Ok(marks)
}

/// The mark of the next payload, which is known from then on.
fn next_mark<'a>(known: &mut BTreeMap<&'a [u8], u64>, payload: &'a [u8]) -> Result<Mark, NoMemory>
    ensures { (ps : List (List ℕ))
        → Knows known.old ps
        → IfOk result (λ m. Knows known.new (with_payload ps payload.now)
        × (m.index ≡ index_among (with_payload ps payload.now) payload.now)
        × (m.is_new ≡ not (is_among ps payload.now))) }
{
    match known.get(payload).copied() {
        Some(index) => Ok(Mark {
            index,
            is_new: false,
        }),
        None => {
            let index = known.len() as u64;
            known.insert(payload, index)?;
            Ok(Mark {
                index,
                is_new: true,
            })
        }
    }
}
