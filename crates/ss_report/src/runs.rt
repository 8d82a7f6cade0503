//! The runs over a stored log: each reads it to its end, and writes a text about it, or messages of it.
pub(crate) mod beside;
pub(crate) mod carrying;
pub(crate) mod concluding;
pub(crate) mod counters;
pub(crate) mod extract;
pub(crate) mod extraction;
pub(crate) mod inspect;
pub(crate) mod lookups;
pub(crate) mod open_review;
pub(crate) mod outcome;
pub(crate) mod places;
pub(crate) mod questions;
pub(crate) mod review;
pub(crate) mod review_as;
pub(crate) mod run;
pub(crate) mod selecting;
pub(crate) mod unwrapping;
