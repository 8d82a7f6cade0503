//! The payload that the certificate blocks of a session state together (RFC 5848, section 5.3.2).
ghost use Rattle.std.specs.Prelude.{◌≡◌, ◌++◌, ◌∷◌, [], List, map, IfOk, OnOk};
ghost use Rattle.ss_block.specs.Block.{Certificate};
ghost use Rattle.ss_block.specs.Joiner.{Stands};
ghost use Rattle.ss_review.specs.keep.Stated.{States, IsOfBlock};
ghost use Rattle.ss_review.specs.sessions.Payloads.{certificates, payload_or_malformed, stated_payload};
ghost use Rattle.ss_review.specs.sessions.Stated.{stated_in_turn, unjoined};

use crate::keep::block_message::BlockMessage;
use crate::keep::kept_block::Stated;
use crate::report::session_report::SessionState;
use ss_block::{JoinState, Joiner, Payload};
use ss_octets::{Bytes, NoMemory};
use std::alloc::Global;

/// Gives the joiner the fragment of a certificate block.
fn add_fragment(joiner: &mut Joiner, stated: &Stated<'_>) -> Result<(), NoMemory>
    requires { IsOfBlock stated.now }
    ensures { (cs : List Certificate) (c : Certificate)
        → States stated.now c
        → Stands joiner.old (stated_in_turn cs)
        → OnOk result (Stands joiner.new (stated_in_turn (cs ++ c ∷ []))) }
{
    joiner.add(stated.total, stated.index, stated.fragment.as_slice())?;
    Ok(())
}

/// Gives the joiner the fragment of a block, if it is a certificate block.
fn add_block(alloc: Global, joiner: &mut Joiner, message: &BlockMessage) -> Result<(), NoMemory>
    ensures { (cs : List Certificate)
        → Stands joiner.old (stated_in_turn cs)
        → OnOk result (Stands joiner.new (stated_in_turn (cs ++ certificates (message.now ∷ [])))) }
{
    match message.stated(alloc)? {
        None => Ok(()),
        Some(stated) => add_fragment(joiner, &stated),
    }
}

/// A joiner that was given the fragments of the certificate blocks among these blocks.
fn joined_fragments(alloc: Global, blocks: &[&BlockMessage]) -> Result<Joiner, NoMemory>
    ensures { IfOk result (λ j. Stands j (stated_in_turn (certificates (map (λ b. b.now) blocks.now)))) }
{
    let mut joiner = Joiner::new(alloc);
    for message in blocks {
        add_block(alloc, &mut joiner, message)?;
    }
    Ok(joiner)
}

/// The joined text, if it is a payload block.
fn payload_or_malformed(alloc: Global, text: Bytes) -> Result<Result<Bytes, SessionState>, NoMemory>
    ensures { IfOk result (λ r. r ≡ payload_or_malformed text) }
{
    if Payload::parse(alloc, text.as_slice())?.is_some() {
        Ok(Ok(text))
    } else {
        Ok(Err(SessionState::Malformed))
    }
}

/// The state of a session whose payload isn't whole.
fn unjoined(state: JoinState) -> SessionState
    ensures { result ≡ unjoined state }
{
    match state {
        JoinState::Disputed => SessionState::Disputed,
        JoinState::Incomplete | JoinState::Whole => SessionState::Incomplete,
    }
}

/// The payload that the certificate blocks among these blocks of a session state, or why they state none: they dispute
/// it, some of it is missing, or it is no payload block.
pub(crate) fn stated_payload(
    alloc: Global,
    blocks: &[&BlockMessage],
) -> Result<Result<Bytes, SessionState>, NoMemory>
    ensures { IfOk result (λ r. r ≡ stated_payload (certificates (map (λ b. b.now) blocks.now))) }
{
    let joiner = joined_fragments(alloc, blocks)?;
    match joiner.payload()? {
        Some(text) => payload_or_malformed(alloc, text),
        None => Ok(Err(unjoined(joiner.state()))),
    }
}
