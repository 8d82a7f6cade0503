//! The verified signature blocks of a log.
ghost use Rattle.std.specs.Prelude.{◌≡◌, ◌<◌, ◌^◌, ◌++◌, true, List, length, map, filter, flat_map, All};
ghost use Rattle.std.specs.Prelude.{IfOk, OnOk, IfSome, IsSome};
ghost use Rattle.ss_review.specs.keep.BlockMessage.{BlockMessage};
ghost use Rattle.ss_review.specs.sessions.Verified.{Answers, is_verified};
ghost use Rattle.ss_review.specs.announced.Announced.{rows_said};
ghost use Rattle.ss_review.specs.announced.Numbered.{session_with_joined, sessions_joined};
ghost use Rattle.ss_review.specs.announced.Indexed.{session_at, rows_by};

use crate::announced::announced_block::AnnouncedBlock;
use crate::keep::block_message::BlockMessage;
use crate::sessions::joined_session::JoinedSession;
use ss_octets::NoMemory;
use std::alloc::Global;

/// Where the session of a block stands among those of its log, which stand in their order.
fn session_of(sessions: &[JoinedSession], message: &BlockMessage) -> Option<usize>
    ensures known { IfSome result (λ i. i < length sessions.now) }
    ensures same { IfSome result (λ i. session_at sessions.now i ≡ message.now.session) }
    ensures found { (says : Answers) (bs : List BlockMessage)
        → map session_with_joined sessions.now ≡ sessions_joined says bs
        → is_verified says bs message.now ≡ true
        → IsSome result }
{
    match sessions.binary_search_by(|known| known.session.cmp(message.session())) {
        Ok(index) => Some(index),
        Err(_) => None,
    }
}

/// Adds a verified block, if it is a signature block. `sessions` are those of its log, in their order.
fn add_block(
    alloc: Global,
    announced: &mut Vec<AnnouncedBlock>,
    sessions: &[JoinedSession],
    message: BlockMessage,
) -> Result<(), NoMemory>
    requires few { length sessions.now < 2 ^ 32 }
    ensures known { All (λ b. b.session < length sessions.now) announced.old.items
        → All (λ b. b.session < length sessions.now) announced.new.items }
    ensures rows { (says : Answers) (bs : List BlockMessage)
        → map session_with_joined sessions.now ≡ sessions_joined says bs
        → is_verified says bs message ≡ true
        → OnOk result (flat_map (rows_by sessions.now) announced.new.items
        ≡ flat_map (rows_by sessions.now) announced.old.items ++ rows_said message.session message.said) }
{
    let Some(index) = session_of(sessions, &message) else {
        return Ok(());
    };
    let session = index as u32;
    let Some(block) = message.into_signature_block(alloc)? else {
        return Ok(());
    };
    announced.push(AnnouncedBlock { session, block })?;
    Ok(())
}

/// The signature blocks that are marked as verified, in their order. `sessions` are those of the blocks, in their
/// order. There is room for 4,294,967,295 of them, which is more than any reviewer takes messages. What else the
/// messages of the blocks hold is let go.
pub(crate) fn signature_blocks(
    alloc: Global,
    sessions: &[JoinedSession],
    blocks: Vec<BlockMessage>,
    verified: &[bool],
) -> Result<Vec<AnnouncedBlock>, NoMemory>
    ensures known { IfOk result (λ v. All (λ b. b.session < length sessions.now) v.items) }
    ensures rows { (says : Answers)
        → map session_with_joined sessions.now ≡ sessions_joined says blocks.items
        → verified.now ≡ map (is_verified says blocks.items) blocks.items
        → IfOk result (λ v. flat_map (rows_by sessions.now) v.items
        ≡ flat_map (λ b. rows_said b.session b.said) (filter (is_verified says blocks.items) blocks.items)) }
{
    if sessions.len() > u32::MAX as usize {
        return Err(NoMemory);
    }
    let mut announced = Vec::new(alloc);
    let mut marks = verified.iter();
    for message in blocks {
        let is_verified = marks.next().copied().unwrap_or(false);
        if is_verified {
            add_block(alloc, &mut announced, sessions, message)?;
        }
    }
    Ok(announced)
}
