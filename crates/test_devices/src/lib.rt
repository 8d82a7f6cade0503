//! Readers, writers and rows for the tests of other crates: their octets are known, and they fail where a test wants
//! it.
#![tactic(auto)]

mod cells;
mod paper;
mod pieces;

pub use cells::Cells;
pub use paper::{Paper, Refusal};
pub use pieces::Pieces;
