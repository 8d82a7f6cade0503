//! A line of a report.
use crate::lines::order::Order;
use crate::lines::tally::Tally;
use crate::strangers::suspects::Suspect;
use ss_block::{Group, Session, Spoil};
use ss_review::{GroupTail, LogBlock, MissingRun, SessionState, Why};

/// A line of a report. Places count the messages of the log from 0; numbers are 1 to 9,999,999,999.
#[derive(Clone, Copy)]
pub(crate) enum Line<'r> {
    /// A session and its state.
    Session {
        session: &'r Session,
        state: SessionState,
    },
    /// The number is announced, and the message at the place is its message.
    Ok {
        session: &'r Session,
        group: Group,
        number: u64,
        place: u32,
    },
    /// The number is announced, and no message is listed for it.
    Gap {
        session: &'r Session,
        group: Group,
        number: u64,
        why: Why,
    },
    /// None of the numbers from `first` to `last` is announced, though a greater one is.
    Hole {
        session: &'r Session,
        group: Group,
        first: u64,
        last: u64,
    },
    /// The numbers from `first` to `last` are announced, and lie below the first counter of their group.
    Early {
        session: &'r Session,
        group: Group,
        first: u64,
        last: u64,
    },
    /// The numbers from `first` to `last` are announced, and the first lies at the second counter of their group or
    /// above it.
    Beyond {
        session: &'r Session,
        group: Group,
        first: u64,
        last: u64,
    },
    /// None of these numbers of a group is announced. They come after all announced ones, and were sent before the
    /// counter was noted.
    Tail {
        session: &'r Session,
        tail: GroupTail,
    },
    /// No verified signature block of the session has a GBC (RFC 5848, section 4.2.4) of this run, though one has a
    /// greater GBC, or the counter is greater. GBC values count from 0.
    Blocks {
        session: &'r Session,
        run: MissingRun,
    },
    /// A session that has a counter, and no block in the log.
    Absent {
        session: &'r Session,
    },
    /// The counts of the numbers of a group.
    Tally {
        session: &'r Session,
        group: Group,
        tally: Tally,
    },
    /// The listed messages of a group don't stand in the order of their numbers.
    Disorder {
        session: &'r Session,
        group: Group,
        order: Order,
    },
    /// A message without a block that is listed nowhere.
    Unlisted {
        place: u32,
    },
    /// A block that isn't verified.
    Refused {
        place: u32,
    },
    /// A message whose block element holds no block, and the first cause.
    Spoilt {
        place: u32,
        cause: Spoil,
    },
    /// How many messages without a block are listed nowhere.
    UnlistedCount {
        count: u64,
    },
    /// How many blocks aren't verified.
    RefusedCount {
        count: u64,
    },
    /// How many messages have a block element that holds no block.
    SpoiltCount {
        count: u64,
    },
    /// Octets of the log of which no message is read: from this offset on, so many, after so many messages.
    Damaged {
        place: u32,
        offset: u64,
        length: u64,
    },
    /// How many damaged stretches the log has, and how many octets they have together.
    DamagedCount {
        count: u64,
        octets: u128,
    },
    /// The log breaks off in a frame or line, which begins at this octet.
    Torn {
        offset: u64,
    },
    /// A block of the log, verified or not.
    Block {
        block: &'r LogBlock,
        is_verified: bool,
    },
    /// The place of the first verified signature block whose hashes are by SHA-1.
    Sha1 {
        place: u32,
    },
    /// A refused block that isn't to be ignored.
    NotIgnored {
        suspect: Suspect,
    },
    /// No message is listed.
    NoneListed,
    /// The log has no message.
    Empty,
    /// How many messages the log has.
    End {
        count: u32,
    },
}
