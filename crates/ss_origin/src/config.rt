//! What an originator is to do.
use crate::grouping::Grouping;
use ss_block::{Alg, Head};

/// What an originator is to do. Any values may stand here; an originator is made of those in their ranges alone.
#[derive(Debug, Drop)]
pub struct Config {
    /// PRI and the header's fields of the block messages.
    pub head: Head,
    /// VER: the algorithm of the messages' hashes.
    pub alg: Alg,
    /// RSID, 0 to 9,999,999,999 (RFC 5848, section 4.2.2).
    pub rsid: u64,
    /// How messages are put into groups.
    pub grouping: Grouping,
    /// How many hashes a signature block has at most, 1 to 99.
    pub per_block: u8,
    /// How often each block message is sent, 1 to 9 (RFC 5848, section 6).
    pub copies: u8,
    /// How many octets of the payload a certificate block has at most, 1 to 9,999.
    pub frag: u16,
}
