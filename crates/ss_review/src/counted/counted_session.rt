//! Which signature blocks of a session a log has.
use ss_block::Session;
use ss_octets::List;

/// Values of the Global Block Counter, GBC, from 0 to 9,999,999,999. Contracts see the list alone.
pub type Gbcs = List<u64>;

/// Which verified signature blocks of a session a log has.
#[derive(Debug, Drop)]
pub struct CountedSession {
    /// Whose it is.
    pub session: Session,
    /// The GBC of its verified signature blocks, each value once, rising. It says how many signature blocks were sent
    /// before the block in its session, over all groups (RFC 5848, section 4.2.4).
    pub gbcs: Gbcs,
}

/// Which verified signature blocks a log has of each session, in the order of its report. Contracts see the list alone.
pub type CountedSessions = List<CountedSession>;
