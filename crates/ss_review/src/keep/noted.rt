//! What a review keeps of a message.
ghost use Rattle.std.specs.Prelude.{◌≡◌, IfOk};
ghost use Rattle.ss_review.specs.keep.Noted.{IsKeptOf, IsKeptWithoutBlock};

use crate::keep::kept_block::KeptBlock;
use ss_block::{PlacedReading, Reading, Spoil, may_hold_block, read_placed};
use ss_octets::NoMemory;
use std::alloc::Global;

/// What a review keeps of a message. Of one without a block that is its two hashes, which are made from
/// its text.
#[derive(Drop)]
pub(crate) enum Noted {
    /// A message without a block, or a text that is no message.
    Normal,
    /// A message with a block.
    Block(KeptBlock),
    /// The first cause why the block element of a message holds no block.
    Spoilt(Spoil),
}

/// What is kept of a message that was read as this, which isn't a block.
fn without_block(reading: Reading) -> Noted
    ensures { IsKeptWithoutBlock reading result }
{
    match reading {
        Reading::Spoilt(cause) => Noted::Spoilt(cause),
        _ => Noted::Normal,
    }
}

/// What is kept of the message that stands at this place in its log. A text without `[ssign` holds no block, so it
/// isn't parsed: it is kept as a message without a block, whether it is a message or not.
#[tactic(auto, unfolding(crate::specs::keep::Notes::note, crate::specs::keep::Contents::block_in))]
pub(crate) fn noted_in(alloc: Global, place: u32, text: &[u8]) -> Result<Noted, NoMemory>
    ensures { IfOk result (IsKeptOf place text.now) }
{
    if !may_hold_block(text) {
        return Ok(Noted::Normal);
    }
    let PlacedReading {
        reading,
        sender,
        signed,
        content,
    } = read_placed(alloc, text)?;
    // A block has all three.
    let Some(sender) = sender else {
        return Ok(without_block(reading));
    };
    let Some(signed) = signed else {
        return Ok(without_block(reading));
    };
    let Some(content) = content else {
        return Ok(without_block(reading));
    };
    match reading {
        Reading::Signature(block) => {
            let kept = KeptBlock::of_signature(alloc, place, sender, block, signed, content)?;
            Ok(Noted::Block(kept))
        }
        Reading::Certificate(block) => {
            let kept = KeptBlock::of_certificate(alloc, place, sender, block, signed, content)?;
            Ok(Noted::Block(kept))
        }
        other => Ok(without_block(other)),
    }
}
