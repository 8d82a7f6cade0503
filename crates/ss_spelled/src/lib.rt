//! The payloads that fragments of certificate blocks spell (RFC 5848, section 5.3.2), where they contradict one another.
#![tactic(auto)]

mod answer;
mod fault;
mod fragment;
mod front;
mod longer;
mod paying;
mod request;
mod run;
mod search;

pub use fault::SpellFault;
pub use fragment::Fragment;
pub use run::run_spell;
pub use search::{Bounds, Spelled, spell};
