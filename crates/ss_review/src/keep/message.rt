//! A message without a block, as a review keeps it.
use ss_block::HashPair;

/// A message without a block.
#[derive(Clone, Copy, Debug, PartialEq, Eq)]
pub struct NormalMessage {
    /// Its place in the log, from 0.
    pub place: u32,
    /// Both its hashes.
    pub pair: HashPair,
}
