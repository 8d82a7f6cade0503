//! The signature blocks that announce hashes.
ghost use Rattle.std.specs.Prelude.{◌≡◌};
ghost use Rattle.ss_review.specs.announced.Indexed.{first_number};

use crate::announced::indexed_number::IndexedNumber;
use ss_block::SigBlock;

/// A verified signature block, and the index of its session among those of the log.
#[derive(Drop)]
pub(crate) struct AnnouncedBlock {
    pub(crate) session: u32,
    pub(crate) block: SigBlock,
}

/// The number of the first message that the block announces.
pub(crate) fn first_number(block: &AnnouncedBlock) -> IndexedNumber
    ensures { result ≡ first_number block.now }
{
    IndexedNumber {
        session: block.session,
        group: block.block.header().group,
        number: block.block.first(),
    }
}
