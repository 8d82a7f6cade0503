//! The pieces in which a payload block is sent (RFC 5848, section 5.3.2).
use ss_octets::List;

/// A piece of a payload block: the octets of one certificate block's fragment.
#[derive(Clone, Copy, Debug, PartialEq, Eq)]
pub struct Cut {
    /// INDEX, 1 to 99,999,999: where the piece begins, counted from 1.
    pub index: u32,
    /// FLEN, 1 to 9,999: its octets.
    pub len: u16,
}

/// The pieces of a payload block, in order. Contracts see the list alone.
pub type Cuts = List<Cut>;
