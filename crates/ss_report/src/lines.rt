//! The lines of a report: what one is, the one walk that hands them on, and their visitors.
pub(crate) mod brief;
pub(crate) mod detail;
pub(crate) mod front;
pub(crate) mod idle;
pub(crate) mod left;
pub(crate) mod line;
pub(crate) mod listed;
pub(crate) mod missing;
pub(crate) mod order;
pub(crate) mod others;
pub(crate) mod outside;
pub(crate) mod record;
pub(crate) mod settled;
pub(crate) mod tally;
pub(crate) mod visitor;
pub(crate) mod walk;
pub(crate) mod writing;
