//! What a review reports beside its report.
use ss_review::Counter;

/// What a review reports beside its report. All of it is a finding.
#[derive(Clone, Copy)]
pub enum Beside<'c> {
    /// Nothing.
    Nothing,
    /// What is missing of each session, up to these counters.
    ///
    /// After the groups of each session stands a line for each group that has a counter. It has the numbers below the
    /// counter that come after the last announced one. Then come the missing blocks (RFC 5848, section 4.2.4): a line
    /// for each greatest run of GBC values that no verified signature block has, though one or the counter is greater.
    /// After all sessions stand those that have a counter and no block in the log. Without counters, only GBC values
    /// below the greatest of the verified blocks are looked at. What is announced at a counter or above it stands in
    /// the report alone.
    Missing {
        /// The counters, if they are given.
        up_to: Option<&'c [Counter]>,
    },
    /// The same up to the second counters, for one night of sessions that go on. The night of a group begins at its
    /// first counter, or at 1 where it has none, and ends before its second one.
    ///
    /// Holes, tails and missing blocks begin no lower than the first counters; what lies below them is left out.
    /// Announced numbers stand wherever they are. After the lines of the groups of a session stand those of its
    /// announced numbers below the first counter of their group, and then, where second counters are given, of those
    /// at the second counter or above it, or of all numbers of a group that has no second one: a line for each greatest
    /// run. A session that has a second counter and no block in the log is absent, unless it has a first counter, and
    /// nothing is missing from there on.
    Night {
        /// The counters at which the night begins.
        first: &'c [Counter],
        /// Those before which it ends, if they are given.
        second: Option<&'c [Counter]>,
    },
}
