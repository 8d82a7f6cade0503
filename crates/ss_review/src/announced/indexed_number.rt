//! Announced message numbers whose sessions are named by index.
use ss_block::Group;

/// A message number (1 to 9,999,999,999) in its group and session (RFC 5848, section 4.2). Its session is named by its
/// index among those of the log. These stand in their order, so numbers are in the order of their sessions, then of
/// their groups, and no name of a session is read to compare them.
#[derive(Clone, Copy, PartialEq, Eq, PartialOrd, Ord)]
pub(crate) struct IndexedNumber {
    pub(crate) session: u32,
    pub(crate) group: Group,
    pub(crate) number: u64,
}
