//! What a block says, as a review keeps it.
use crate::keep::kept_sender::ShortSpan;
use ss_block::Group;

/// The numbers of a block, and where FRAG stands in the signed octets of its message. The fragment is read from there
/// when it is needed. The hashes, and VER's algorithm, stand beside the signed octets.
#[derive(Clone, Copy, Debug)]
pub(crate) enum KeptContent {
    /// Of a signature block.
    Hashes {
        /// SG and SPRI.
        group: Group,
        /// GBC, 0 to 9,999,999,999.
        gbc: u64,
        /// FMN, 1 to 9,999,999,999.
        first: u64,
        /// How many of its hashes are held, from the first on: 1 to 99.
        held: u8,
    },
    /// Of a certificate block.
    Fragment {
        /// SG and SPRI.
        group: Group,
        /// TPBL, 1 to 99,999,999.
        total: u32,
        /// INDEX, 1 to 99,999,999.
        index: u32,
        /// FLEN, 1 to 9,999.
        len: u32,
        /// Where the value of FRAG stands.
        text: ShortSpan,
    },
}
