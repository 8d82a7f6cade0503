//! What a review asks of a signature scheme (RFC 5848, section 7).
ghost use Rattle.std.specs.Prelude.{◌≡◌, ◌++◌, map, flat_map, option_map, Ok, IfOk, OnOk};
ghost use Rattle.ss_review.specs.questions.Questions.{asked_block, asked_session, asked_sessions, question_under};
ghost use Rattle.ss_review.specs.questions.Questions.{session_questions, questions, questions_shared};
ghost use Rattle.ss_review.specs.sessions.Sectioned.{referred, SessionsRise};
ghost use Rattle.ss_review.specs.pinned.Pinned.{pinned_sessions, session_pinned, sessions_by};

use crate::keep::block_message::BlockMessage;
use crate::pinned::candidates::candidates;
use crate::questions::asked::{AskedBlock, AskedSession, AskedSessions};
use crate::questions::question::{Question, Questions};
use crate::report::session_report::SessionState;
use crate::sessions::joining::stated_payload;
use crate::sessions::sectioning::{by_session, section_end};
use ss_block::Session;
use ss_octets::{Bytes, List, NoMemory};
use std::alloc::Global;

/// The same octets, in memory of their own.
pub(crate) fn copy_of(alloc: Global, octets: &Bytes) -> Result<Bytes, NoMemory>
    ensures { IfOk result (λ b. b ≡ octets.now) }
{
    Ok(Bytes::from_vec(Vec::from_slice(alloc, octets.as_slice())?))
}

/// What is asked about a block.
fn asked_block(alloc: Global, block: &BlockMessage) -> Result<AskedBlock, NoMemory>
    ensures { IfOk result (λ b. b ≡ asked_block block.now) }
{
    Ok(AskedBlock {
        place: block.place(),
        parameters: block.parameters(),
        octets: block.signed(alloc)?,
        signature: Bytes::from_vec(Vec::from_slice(alloc, block.signature())?),
    })
}

/// What is asked about each of the blocks.
fn asked_blocks(alloc: Global, blocks: &[&BlockMessage]) -> Result<Vec<AskedBlock>, NoMemory>
    ensures { IfOk result (λ v. v.items ≡ map asked_block (referred blocks.now)) }
{
    let mut asked = Vec::with_capacity(alloc, blocks.len())?;
    for block in blocks {
        asked.push(asked_block(alloc, block)?)?;
    }
    Ok(asked)
}

/// Adds the session, whose blocks these are, with the payload under which they are asked about.
fn push_session(
    alloc: Global,
    sessions: &mut Vec<AskedSession>,
    session: &Session,
    payload: Bytes,
    blocks: &[&BlockMessage],
) -> Result<(), NoMemory>
    ensures { OnOk result (sessions.new.items
        ≡ sessions.old.items ++ asked_session session.now (referred blocks.now) (Ok payload)) }
{
    let blocks = List::from_vec(asked_blocks(alloc, blocks)?);
    let session = session.try_clone(alloc)?;
    sessions.push(AskedSession {
        session,
        payload,
        blocks,
    })?;
    Ok(())
}

/// Adds the session, whose blocks these are, if they state a payload.
fn add_stated(
    alloc: Global,
    sessions: &mut Vec<AskedSession>,
    session: &Session,
    stated: Result<Bytes, SessionState>,
    blocks: &[&BlockMessage],
) -> Result<(), NoMemory>
    ensures { OnOk result (sessions.new.items
        ≡ sessions.old.items ++ asked_session session.now (referred blocks.now) stated) }
{
    match stated {
        Ok(payload) => push_session(alloc, sessions, session, payload, blocks),
        Err(_) => Ok(()),
    }
}

/// Adds the session, whose blocks these are, once for each of the payloads.
fn add_each(
    alloc: Global,
    sessions: &mut Vec<AskedSession>,
    session: &Session,
    payloads: &[&Bytes],
    blocks: &[&BlockMessage],
) -> Result<(), NoMemory>
    ensures { OnOk result (sessions.new.items
        ≡ sessions.old.items
        ++ flat_map (λ p. asked_session session.now (referred blocks.now) (Ok p)) (map (λ p. p.now) payloads.now)) }
{
    for payload in payloads {
        push_session(alloc, sessions, session, copy_of(alloc, payload)?, blocks)?;
    }
    Ok(())
}

/// Adds the session, whose blocks these are, if they state a payload, and for each of the known payloads about which
/// else is asked.
fn add_session(
    alloc: Global,
    sessions: &mut Vec<AskedSession>,
    session: &Session,
    known: &[Bytes],
    blocks: &[&BlockMessage],
) -> Result<(), NoMemory>
    ensures { OnOk result (sessions.new.items
        ≡ sessions.old.items ++ session_pinned known.now session.now (referred blocks.now)) }
{
    let stated = stated_payload(alloc, blocks)?;
    let candidates = candidates(alloc, known, &stated, blocks)?;
    add_stated(alloc, sessions, session, stated, blocks)?;
    add_each(alloc, sessions, session, candidates.as_slice(), blocks)
}

/// What is asked about blocks in the order of their sessions, where these payloads are known.
fn asked_in_turn(
    alloc: Global,
    known: &[Bytes],
    blocks: &[&BlockMessage],
) -> Result<Vec<AskedSession>, NoMemory>
    requires { SessionsRise (referred blocks.now) }
    ensures { IfOk result (λ v. v.items ≡ pinned_sessions known.now (referred blocks.now)) }
{
    let mut sessions = Vec::new(alloc);
    let mut start = 0;
    while start < blocks.len() {
        let end = section_end(blocks, start);
        add_session(
            alloc,
            &mut sessions,
            blocks[start].session(),
            known,
            &blocks[start..end],
        )?;
        start = end;
    }
    Ok(sessions)
}

/// What a review of these blocks asks of a scheme where these payloads are known, in the order of their sessions.
fn pinned_sessions(
    alloc: Global,
    known: &[Bytes],
    blocks: &[BlockMessage],
) -> Result<AskedSessions, NoMemory>
    ensures { IfOk result (λ ss. ss ≡ pinned_sessions known.now blocks.now) }
{
    let sorted = by_session(alloc, blocks)?;
    Ok(AskedSessions::from_vec(asked_in_turn(alloc, known, sorted.as_slice())?))
}

/// What a review of these blocks asks of a scheme, in the order of their sessions.
#[tactic(auto, using(crate::proofs::of_questions::AskedShared::none_known))]
pub(crate) fn asked_sessions(
    alloc: Global,
    blocks: &[BlockMessage],
) -> Result<AskedSessions, NoMemory>
    ensures { IfOk result (λ ss. ss ≡ asked_sessions blocks.now) }
{
    pinned_sessions(alloc, &[], blocks)
}

/// What a review of these blocks asks of a scheme, by the payloads that are known beforehand, if some are given, in the
/// order of their sessions.
pub(crate) fn sessions_by(
    alloc: Global,
    known: Option<&[Bytes]>,
    blocks: &[BlockMessage],
) -> Result<AskedSessions, NoMemory>
    ensures { IfOk result (λ ss. ss ≡ sessions_by (option_map (λ ps. ps.now) known.entry) blocks.now) }
{
    match known {
        None => asked_sessions(alloc, blocks),
        Some(payloads) => pinned_sessions(alloc, payloads, blocks),
    }
}

/// Whether the block is valid under the payload.
fn question_under(alloc: Global, payload: &Bytes, block: &AskedBlock) -> Result<Question, NoMemory>
    ensures { IfOk result (λ q. q ≡ question_under payload.now block.now) }
{
    Ok(Question::Yes(
        copy_of(alloc, payload)?,
        copy_of(alloc, &block.octets)?,
        copy_of(alloc, &block.signature)?,
    ))
}

/// Adds the questions about a session.
fn put_questions(
    alloc: Global,
    questions: &mut Vec<Question>,
    session: &AskedSession,
) -> Result<(), NoMemory>
    ensures { OnOk result (questions.new.items ≡ questions.old.items ++ session_questions session.now) }
{
    questions.push(Question::Trust(copy_of(alloc, &session.payload)?))?;
    for block in session.blocks.as_slice() {
        questions.push(question_under(alloc, &session.payload, block)?)?;
    }
    Ok(())
}

/// The questions about these sessions, each with a payload of its own.
#[tactic(auto, unfolding(crate::specs::questions::Questions::questions_shared))]
fn questions_of(alloc: Global, sessions: &[AskedSession]) -> Result<Vec<Question>, NoMemory>
    ensures { IfOk result (λ v. v.items ≡ questions_shared sessions.now) }
{
    let mut questions = Vec::new(alloc);
    for session in sessions {
        put_questions(alloc, &mut questions, session)?;
    }
    Ok(questions)
}

/// What a review of these blocks asks of a scheme, a question each, in the order of their sessions.
#[tactic(auto, using(crate::proofs::of_questions::AskedShared::sessions_shared))]
pub(crate) fn questions(alloc: Global, blocks: &[BlockMessage]) -> Result<Questions, NoMemory>
    ensures { IfOk result (λ qs. qs ≡ questions blocks.now) }
{
    let sessions = asked_sessions(alloc, blocks)?;
    Ok(Questions::from_vec(questions_of(alloc, sessions.as_slice())?))
}
