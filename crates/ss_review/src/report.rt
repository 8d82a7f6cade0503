//! What a report says about sessions, groups, numbers and places.
pub(crate) mod entries;
pub(crate) mod entry;
pub(crate) mod group_report;
pub(crate) mod grouping;
mod next_number;
pub(crate) mod number_entry;
pub(crate) mod places;
pub(crate) mod report;
pub(crate) mod reporting;
pub(crate) mod session_report;
pub(crate) mod unlisted;
