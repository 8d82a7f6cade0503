//! What is missing of sessions up to the counters that were kept of them.
use crate::counted::missing::MissingRuns;
use ss_block::{Group, Session};
use ss_octets::List;

/// Messages of a group that were sent before its counter was noted, and come after the last one that is announced:
/// those with the numbers from `first` to `last`, each 1 to 9,999,999,999.
#[derive(Clone, Copy, Debug, PartialEq, Eq)]
pub struct GroupTail {
    pub group: Group,
    pub first: u64,
    pub last: u64,
}

/// Those of the groups of a session, by rising group. Contracts see the list alone.
pub type GroupTails = List<GroupTail>;

/// What is missing of a session up to its counters.
#[derive(Debug, Drop)]
pub struct Shortfall {
    /// Whose it is.
    pub session: Session,
    /// Of its messages: what comes after the last announced one of a group.
    pub tails: GroupTails,
    /// Of its signature blocks: those below its counter, and below the greatest GBC that is there.
    pub blocks: MissingRuns,
}

/// What is missing of several sessions. Contracts see the list alone.
pub type Shortfalls = List<Shortfall>;

/// What is missing of the sessions of a log, and of those that it has no block of.
#[derive(Debug, Drop)]
pub struct LogShortfalls {
    /// Of each session of the report, in its order.
    pub known: Shortfalls,
    /// Of each session that has a counter, and no block in the log, rising.
    pub absent: Shortfalls,
}
