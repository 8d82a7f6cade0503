//! What a review reports about a log.
use crate::keep::spoilt::SpoiltPlaces;
use crate::report::places::Places;
use crate::report::session_report::SessionReports;

/// What a review reports about a log. Places are positions of messages in it, from 0.
#[derive(Debug, Drop)]
pub struct Report {
    /// The sessions of its blocks: by the octets of HOSTNAME, APP-NAME and PROCID, then by RSID.
    pub sessions: SessionReports,
    /// The messages without a block that are listed nowhere, by rising place.
    pub unlisted: Places,
    /// The blocks that aren't verified, by rising place.
    pub refused: Places,
    /// The messages whose block element holds no block, by rising place.
    pub spoilt: SpoiltPlaces,
    /// How many messages the log has.
    pub count: u32,
}
