//! Payloads that claim sessions.
use crate::sessions::found_blocks::FoundBlocks;
use ss_block::Session;
use ss_octets::Bytes;

/// A payload that claims a session.
#[derive(Drop)]
pub(crate) struct Claimant<'a> {
    pub(crate) payload: &'a Bytes,
    /// What was found of the session's blocks under the payload.
    pub(crate) found: FoundBlocks<'a>,
}

/// A session, and the payloads that claim it.
#[derive(Drop)]
pub(crate) struct ClaimedSession<'a> {
    pub(crate) session: &'a Session,
    pub(crate) claimants: Vec<Claimant<'a>>,
}
