//! What a review asks of a signature scheme, session by session.
use crate::questions::parameters::AskedParameters;
use ss_block::Session;
use ss_octets::{Bytes, List};

/// A block whose signature is asked about.
#[derive(Debug, Drop)]
pub struct AskedBlock {
    /// Its place in the log, from 0.
    pub place: u32,
    /// What it says about itself.
    pub parameters: AskedParameters,
    /// The octets that are signed.
    pub octets: Bytes,
    /// The signature that the block holds.
    pub signature: Bytes,
}

/// What is asked about a session: whether its payload is trusted, and whether each of its blocks is valid under it.
#[derive(Debug, Drop)]
pub struct AskedSession {
    /// Who sent its blocks, and since which reboot.
    pub session: Session,
    /// The payload that the certificate blocks of the session state.
    pub payload: Bytes,
    /// The blocks of the session, by rising place.
    pub blocks: List<AskedBlock>,
}

/// What is asked about the sessions of a log, in their order. Contracts see the list alone.
pub type AskedSessions = List<AskedSession>;
