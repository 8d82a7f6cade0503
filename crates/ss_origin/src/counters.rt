//! Where an originator goes on after another one.
use ss_octets::List;

/// The next number of a group.
#[derive(Clone, Copy, Debug, PartialEq, Eq)]
pub struct NextNumber {
    /// SPRI of the group, 0 to 191.
    pub spri: u8,
    /// The number of its next message, from 1; 10,000,000,000 where its numbers are spent.
    pub number: u64,
}

/// The next numbers of groups, by rising SPRI.
pub type NextNumbers = List<NextNumber>;

/// Where an originator goes on: what the next block and the next messages get.
#[derive(Debug, Drop)]
pub struct Counters {
    /// The next GBC, from 0; 10,000,000,000 where they are spent.
    pub gbc: u64,
    /// The next number of each group that was named at the start or given a message, by rising SPRI. That of any other
    /// group is 1.
    pub groups: NextNumbers,
}
