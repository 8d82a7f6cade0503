//! The sessions of a log, and how far their payloads are joined (RFC 5848, section 7).
ghost use Rattle.std.specs.Prelude.{◌≡◌, map, IfOk};
ghost use Rattle.ss_review.specs.sessions.Sectioned.{referred, SessionsRise};
ghost use Rattle.ss_review.specs.sessions.Verified.{answers};
ghost use Rattle.ss_review.specs.questions.Questions.{questions, AreAskable};
ghost use Rattle.ss_review.specs.announced.Numbered.{session_with_joined, sessions_joined};

use crate::keep::block_message::BlockMessage;
use crate::sessions::accepting::joined;
use crate::sessions::joined_session::JoinedSession;
use crate::sessions::sectioning::{by_session, section_end};
use crate::sessions::verifier::Judge;
use ss_octets::NoMemory;
use std::alloc::Global;

/// The sessions of blocks in the order of their sessions, each with its joined payload, or else its state.
fn joined_sections<J: Judge>(
    alloc: Global,
    judge: &J,
    blocks: &[&BlockMessage],
) -> Result<Vec<JoinedSession>, NoMemory>
    requires sound { J.sound judge.now }
    requires askable { AreAskable J.askable judge.now (questions (referred blocks.now)) }
    requires rise { SessionsRise (referred blocks.now) }
    ensures { IfOk result (λ v. map session_with_joined v.items
        ≡ sessions_joined (answers J.trusted J.valid judge.now) (referred blocks.now)) }
{
    let mut sessions = Vec::new(alloc);
    let mut start = 0;
    while start < blocks.len() {
        let end = section_end(blocks, start);
        sessions.push(JoinedSession {
            session: blocks[start].session().try_clone(alloc)?,
            joined: joined(alloc, judge, &blocks[start..end])?,
        })?;
        start = end;
    }
    Ok(sessions)
}

/// The sessions of these blocks in their order, each with its joined payload, or else its state.
pub(crate) fn joined_sessions<J: Judge>(
    alloc: Global,
    judge: &J,
    blocks: &[BlockMessage],
) -> Result<Vec<JoinedSession>, NoMemory>
    requires sound { J.sound judge.now }
    requires askable { AreAskable J.askable judge.now (questions blocks.now) }
    ensures { IfOk result (λ v. map session_with_joined v.items
        ≡ sessions_joined (answers J.trusted J.valid judge.now) blocks.now) }
{
    let sorted = by_session(alloc, blocks)?;
    joined_sections(alloc, judge, sorted.as_slice())
}
