//! Whether a run over a log found anything.
pub(crate) mod joined;
pub(crate) mod verdict;
