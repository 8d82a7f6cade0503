//! What a review reports about a group of messages.
use crate::report::entry::Entries;
use ss_block::Group;
use ss_octets::List;

/// What a review reports about a group of messages of a session.
#[derive(Debug, Drop)]
pub struct GroupReport {
    /// SG and SPRI.
    pub group: Group,
    /// By rising number, a hole by its first.
    pub entries: Entries,
}

/// What a review reports about the groups of a session, by SG and SPRI. Contracts see the list alone.
pub type GroupReports = List<GroupReport>;
