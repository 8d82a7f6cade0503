//! Which signature blocks of each session a log has, and which are missing, by their GBC (RFC 5848, section 4.2.4).
pub(crate) mod counted_report;
pub(crate) mod counted_session;
pub(crate) mod counter;
pub(crate) mod counting;
pub(crate) mod group_tails;
pub(crate) mod kept;
pub(crate) mod log_shortfalls;
pub(crate) mod missing;
pub(crate) mod reviewing;
pub(crate) mod shortfall;
