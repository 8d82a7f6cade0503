//! What a review reports about a session.
use crate::report::group_report::GroupReports;
use ss_block::Session;
use ss_octets::List;

/// How far the payload of a session is joined, trusted and accepted. The first that applies.
#[derive(Clone, Copy, Debug, PartialEq, Eq)]
pub enum SessionState {
    /// The payload is whole and trusted, and the certificate blocks that are valid under it cover it.
    Joined,
    /// Two lengths of the payload are stated, or two octets at one index.
    Disputed,
    /// There is no certificate block, or no octet at some index.
    Incomplete,
    /// The joined octets are no payload block.
    Malformed,
    /// The scheme doesn't trust the payload.
    Untrusted,
    /// The certificate blocks that are valid under the payload don't cover it.
    Unaccepted,
}

/// What a review reports about a session.
#[derive(Debug, Drop)]
pub struct SessionReport {
    /// Whose it is.
    pub session: Session,
    /// How far its payload is joined.
    pub state: SessionState,
    /// The groups for which a number is announced.
    pub groups: GroupReports,
}

/// What a review reports about the sessions of a log, in their order. Contracts see the list alone.
pub type SessionReports = List<SessionReport>;
