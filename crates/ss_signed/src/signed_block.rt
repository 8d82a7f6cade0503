//! What octets say of a block.
use ss_block::{Alg, Group, Session};
use ss_octets::Bytes;

/// What a block has of its own kind.
#[derive(Debug, Drop)]
pub enum SignedContent {
    /// A signature block: GBC, FMN and CNT.
    Signature {
        gbc: u64,
        first: u64,
        count: usize,
    },
    /// A certificate block: TPBL, INDEX, and the fragment, whose length is FLEN.
    Certificate {
        total: u32,
        index: u32,
        fragment: Bytes,
    },
}

/// What the signed octets of a block say. Numbers have the ranges of `SigBlock` and `CertBlock`.
#[derive(Debug, Drop)]
pub struct SignedBlock {
    /// HOSTNAME, APP-NAME, PROCID and RSID.
    pub session: Session,
    /// The algorithm that VER names.
    pub alg: Alg,
    /// SG and SPRI.
    pub group: Group,
    /// What its kind has.
    pub content: SignedContent,
    /// Whether the octets are those that are written for such a block, and nothing else stands in them.
    pub exact: bool,
}
