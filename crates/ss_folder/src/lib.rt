//! A real folder of files, which a journal of `ss_journal` writes: `Folder` is a `Disk`.
#![tactic(auto)]

mod folder;
mod names;
mod opened;
mod record;
mod start;
mod system;

pub use folder::Folder;
pub use start::{Start, Unknown};
