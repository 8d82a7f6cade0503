//! Sessions, and how far their payloads are joined.
use crate::report::session_report::SessionState;
use ss_block::Session;
use ss_octets::Bytes;

/// A session with its joined payload, or else its state.
#[derive(Drop)]
pub(crate) struct JoinedSession {
    pub(crate) session: Session,
    pub(crate) joined: Result<Bytes, SessionState>,
}
