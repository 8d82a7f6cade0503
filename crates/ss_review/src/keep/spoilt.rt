//! Messages whose block element holds no block.
use ss_block::Spoil;
use ss_octets::List;

/// A message whose block element holds no block.
#[derive(Clone, Copy, Debug, PartialEq, Eq)]
pub struct SpoiltPlace {
    /// Its place in the log, from 0.
    pub place: u32,
    /// The first cause that applies.
    pub cause: Spoil,
}

/// Messages whose block element holds no block. Contracts see the list alone.
pub type SpoiltPlaces = List<SpoiltPlace>;
