//! What a review reports about a log, with the signature blocks that the log has.
use crate::counted::counted_session::CountedSessions;
use crate::report::report::Report;

/// What a review reports about a log, and which verified signature blocks the log has of each session.
#[derive(Debug, Drop)]
pub struct CountedReport {
    /// What a review reports about the log.
    pub report: Report,
    /// The GBC of the verified signature blocks of each session of the report, in its order.
    pub counted: CountedSessions,
}
