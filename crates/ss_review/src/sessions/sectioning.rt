//! The blocks of a log, session by session (RFC 5848, section 4.2).
ghost use Rattle.std.specs.Prelude.{◌≡◌, ◌<◌, ◌≤◌, length, IfOk};
ghost use Rattle.ss_review.specs.sessions.Sectioned.{sections, referred, front, SessionsRise, EndsSection};

use crate::keep::block_message::BlockMessage;
use ss_block::Session;
use ss_octets::NoMemory;
use std::alloc::Global;

/// References to the blocks, in their order.
fn references<'a>(
    alloc: Global,
    blocks: &'a [BlockMessage],
) -> Result<Vec<&'a BlockMessage>, NoMemory>
    ensures { IfOk result (λ v. referred v.items ≡ blocks.now) }
{
    let mut references = Vec::with_capacity(alloc, blocks.len())?;
    for block in blocks {
        references.push(block)?;
    }
    Ok(references)
}

/// The blocks of a log in the order of their sessions. Those of one session stay in theirs.
pub(crate) fn by_session<'a>(
    alloc: Global,
    blocks: &'a [BlockMessage],
) -> Result<Vec<&'a BlockMessage>, NoMemory>
    ensures rise { IfOk result (λ v. SessionsRise (referred v.items)) }
    ensures sectioned { IfOk result (λ v. sections (referred v.items) ≡ sections blocks.now) }
{
    let mut sorted = references(alloc, blocks)?;
    sorted.sort_by(|a, b| a.session().cmp(b.session()))?;
    Ok(sorted)
}

/// How many blocks, from the first on, are of the session.
fn front_len(blocks: &[&BlockMessage], session: &Session) -> usize
    ensures front { result ≡ length (front session.now (referred blocks.now)) }
    ensures within { result ≤ length blocks.now }
{
    for (index, block) in blocks.iter().enumerate() {
        if *block.session() != *session {
            return index;
        }
    }
    blocks.len()
}

/// Where the section of the block at `start` ends, among blocks in the order of their sessions that begin a section
/// there.
pub(crate) fn section_end(blocks: &[&BlockMessage], start: usize) -> usize
    requires rise { SessionsRise (referred blocks.now) }
    requires some { start < length blocks.now }
    ensures { EndsSection blocks.now start result }
{
    start + front_len(&blocks[start..], blocks[start].session())
}
