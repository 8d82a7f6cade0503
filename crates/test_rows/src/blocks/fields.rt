//! The fields of blocks, as values that tables hold.
use ss_block::{Alg, CertBlock, Group, Hash, Hashes, SigBlock};
use ss_octets::Bytes;
use std::alloc::{AllocError, Global};

/// SHA-1 of `abc`.
pub const A: [u8; 20] = [
    0xA9, 0x99, 0x3E, 0x36, 0x47, 0x06, 0x81, 0x6A, 0xBA, 0x3E, 0x25, 0x71, 0x78, 0x50, 0xC2, 0x6C,
    0x9C, 0xD0, 0xD8, 0x9D,
];

/// SHA-1 of `abcdbcdecdefdefgefghfghighijhijkijkljklmklmnlmnomnopnopq`.
pub const B: [u8; 20] = [
    0x84, 0x98, 0x3E, 0x44, 0x1C, 0x3B, 0xD2, 0x6E, 0xBA, 0xAE, 0x4A, 0xA1, 0xF9, 0x51, 0x29, 0xE5,
    0xE5, 0x46, 0x70, 0xF1,
];

/// SHA-256 of `abc`.
pub const A2: [u8; 32] = [
    0xBA, 0x78, 0x16, 0xBF, 0x8F, 0x01, 0xCF, 0xEA, 0x41, 0x41, 0x40, 0xDE, 0x5D, 0xAE, 0x22, 0x23,
    0xB0, 0x03, 0x61, 0xA3, 0x96, 0x17, 0x7A, 0x9C, 0xB4, 0x10, 0xFF, 0x61, 0xF2, 0x00, 0x15, 0xAD,
];

/// The octets as a value of their own.
pub(crate) fn bytes(alloc: Global, octets: &[u8]) -> Result<Bytes, AllocError> {
    Ok(Bytes::from_vec(Vec::from_slice(alloc, octets)?))
}

/// The fields of a signature block.
#[derive(Clone, Copy)]
pub struct SignatureFields {
    pub alg: Alg,
    pub rsid: u64,
    pub group: Group,
    pub gbc: u64,
    pub first: u64,
    pub hashes: &'static [Hash],
    pub signature: &'static [u8],
}

impl SignatureFields {
    /// Whether these are the block's.
    pub(crate) fn are_of(&self, block: &SigBlock) -> bool {
        block.header().alg == self.alg
            && block.header().rsid == self.rsid
            && block.header().group == self.group
            && block.gbc() == self.gbc
            && block.first() == self.first
            && block.hashes().as_slice() == self.hashes
            && block.header().signature.as_slice() == self.signature
    }

    /// The block that has them.
    pub(crate) fn block(&self, alloc: Global) -> Result<Option<SigBlock>, AllocError> {
        let hashes = Hashes::from_vec(Vec::from_slice(alloc, self.hashes)?);
        let signature = bytes(alloc, self.signature)?;
        Ok(SigBlock::new(
            self.alg, self.rsid, self.group, self.gbc, self.first, hashes, signature,
        ))
    }
}

/// The fields of a certificate block.
#[derive(Clone, Copy)]
pub struct CertificateFields {
    pub alg: Alg,
    pub rsid: u64,
    pub group: Group,
    pub total: u32,
    pub index: u32,
    pub fragment: &'static [u8],
    pub signature: &'static [u8],
}

impl CertificateFields {
    /// Whether these are the block's.
    pub(crate) fn are_of(&self, block: &CertBlock) -> bool {
        block.header().alg == self.alg
            && block.header().rsid == self.rsid
            && block.header().group == self.group
            && block.total() == self.total
            && block.index() == self.index
            && block.fragment().as_slice() == self.fragment
            && block.header().signature.as_slice() == self.signature
    }

    /// The block that has them.
    pub(crate) fn block(&self, alloc: Global) -> Result<Option<CertBlock>, AllocError> {
        let fragment = bytes(alloc, self.fragment)?;
        let signature = bytes(alloc, self.signature)?;
        Ok(CertBlock::new(
            self.alg, self.rsid, self.group, self.total, self.index, fragment, signature,
        ))
    }
}

/// The fields of a block.
#[derive(Clone, Copy)]
pub enum Fields {
    Signature(SignatureFields),
    Certificate(CertificateFields),
}
