//! What a review reads of a log.
use crate::keep::block_message::BlockMessage;
use crate::keep::spoilt::SpoiltPlace;

/// What a review reads of a log.
#[derive(Drop)]
pub(crate) struct ReviewInput<'s, I> {
    /// Its messages without a block, to be found by their hashes.
    pub(crate) index: I,
    /// Its blocks, by rising place.
    pub(crate) blocks: Vec<BlockMessage>,
    /// Its spoilt blocks, by rising place.
    pub(crate) spoilt: &'s [SpoiltPlace],
    /// How many messages it has.
    pub(crate) count: u32,
}
