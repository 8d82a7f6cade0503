//! What a block whose signature is asked about says about itself (RFC 5848, sections 4.2 and 5.3.2).
use ss_block::{Alg, Group};

/// The parameters of a block, without its session, its hashes, its fragment and its signature.
#[derive(Clone, Copy, Debug, PartialEq, Eq)]
pub enum AskedParameters {
    /// Of a signature block.
    Signature {
        /// VER's hash algorithm.
        alg: Alg,
        /// SG and SPRI.
        group: Group,
        /// GBC, 0 to 9,999,999,999: the signature blocks sent before in the session, over all groups.
        gbc: u64,
        /// FMN, 1 to 9,999,999,999: the number, in its group, of the first message.
        first: u64,
        /// CNT, 1 to 99: how many hashes the block announces.
        count: u8,
    },
    /// Of a certificate block.
    Certificate {
        /// VER's hash algorithm.
        alg: Alg,
        /// SG and SPRI.
        group: Group,
        /// TPBL, 1 to 99,999,999: how many octets the payload has.
        total: u32,
        /// INDEX, 1 to 99,999,999: where in the payload the fragment begins, counted from 1.
        index: u32,
        /// FLEN, 1 to 9,999: how many octets the fragment has.
        length: u32,
    },
}
