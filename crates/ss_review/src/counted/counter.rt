//! Counters that somebody kept, apart from the log.
use ss_block::{Group, Session};
use ss_octets::List;

/// What a counter counts in its session.
#[derive(Clone, Copy, Debug, PartialEq, Eq)]
pub enum Counts {
    /// The signature blocks, over all groups (GBC; RFC 5848, section 4.2.4).
    Blocks,
    /// The messages of a group (FMN; RFC 5848, section 4.2.5).
    Messages(Group),
}

/// How far a session had come when its counter was noted.
#[derive(Debug, Drop)]
pub struct Counter {
    /// Whose it is.
    pub session: Session,
    /// What it counts.
    pub counts: Counts,
    /// Of blocks the GBC of the next one, 0 to 10,000,000,000; of messages the number of the next one, 1 to
    /// 10,000,000,000. Whatever stands below it had been sent.
    pub next: u64,
}

/// Counters in any order; of several that count the same, the greatest is right. Contracts see the list alone.
pub type Counters = List<Counter>;
