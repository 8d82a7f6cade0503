//! Blocks before they are signed.
use ss_block::{CertBlock, SigBlock};

/// A block that is to be signed; its own signature isn't looked at.
#[derive(Drop)]
pub(crate) enum Unsigned {
    /// A signature block (RFC 5848, section 4.2).
    Signature(SigBlock),
    /// A certificate block (RFC 5848, section 5.3.2).
    Certificate(CertBlock),
}
