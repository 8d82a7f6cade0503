//! The sessions of a log, each with the payloads that claim it.
ghost use Rattle.std.specs.Prelude.{◌≡◌, All, map, IfOk};
ghost use Rattle.ss_review.specs.sessions.Sectioned.{referred, sections, SessionsRise};
ghost use Rattle.ss_review.specs.sessions.Verified.{answers};
ghost use Rattle.ss_review.specs.pinned.Finding.{session_claimed, section_claimed, AreAskableUnder, AreFoundRight};

use crate::keep::block_message::BlockMessage;
use crate::pinned::claimant::ClaimedSession;
use crate::pinned::claiming::claimants;
use crate::sessions::sectioning::{by_session, section_end};
use crate::sessions::verifier::Judge;
use ss_octets::{Bytes, NoMemory};
use std::alloc::Global;

/// The sessions of blocks in the order of their sessions, each with the payloads that claim it.
fn claimed_sections<'a, J: Judge>(
    alloc: Global,
    judge: &J,
    payloads: &'a [Bytes],
    blocks: &[&'a BlockMessage],
) -> Result<Vec<ClaimedSession<'a>>, NoMemory>
    requires sound { J.sound judge.now }
    requires askable { AreAskableUnder J.askable judge.now payloads.now (sections (referred blocks.now)) }
    requires rise { SessionsRise (referred blocks.now) }
    ensures claimed { IfOk result (λ v. map session_claimed v.items
        ≡ map (section_claimed (answers J.trusted J.valid judge.now) payloads.now) (sections (referred blocks.now))) }
    ensures found { IfOk result (λ v. All (AreFoundRight (answers J.trusted J.valid judge.now)) v.items) }
{
    let mut sessions = Vec::new(alloc);
    let mut start = 0;
    while start < blocks.len() {
        let end = section_end(blocks, start);
        sessions.push(ClaimedSession {
            session: blocks[start].session(),
            claimants: claimants(alloc, judge, payloads, &blocks[start..end])?,
        })?;
        start = end;
    }
    Ok(sessions)
}

/// The sessions of these blocks in their order, each with the payloads that claim it.
pub(crate) fn claimed_sessions<'a, J: Judge>(
    alloc: Global,
    judge: &J,
    payloads: &'a [Bytes],
    blocks: &'a [BlockMessage],
) -> Result<Vec<ClaimedSession<'a>>, NoMemory>
    requires sound { J.sound judge.now }
    requires askable { AreAskableUnder J.askable judge.now payloads.now (sections blocks.now) }
    ensures claimed { IfOk result (λ v. map session_claimed v.items
        ≡ map (section_claimed (answers J.trusted J.valid judge.now) payloads.now) (sections blocks.now)) }
    ensures found { IfOk result (λ v. All (AreFoundRight (answers J.trusted J.valid judge.now)) v.items) }
{
    let sorted = by_session(alloc, blocks)?;
    claimed_sections(alloc, judge, payloads, sorted.as_slice())
}
