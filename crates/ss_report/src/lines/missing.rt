//! What is reported beside a report.
use ss_between::Bounds;
use ss_review::LogShortfalls;

/// What is missing beside a report, and the counters of the night that it is about, if it is about one.
#[derive(Drop)]
pub(crate) struct Missing<'c> {
    pub(crate) short: LogShortfalls,
    /// The counters at which the night begins.
    pub(crate) first: Option<Bounds<'c>>,
    /// The counters from which on announced numbers are reported.
    pub(crate) second: Option<Bounds<'c>>,
}
