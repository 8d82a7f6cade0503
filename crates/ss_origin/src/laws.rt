//! Laws of the definitions that contracts cite. Each is the contract of a function that does nothing.

pub mod ahead;
pub mod asked;
pub mod chains;
pub mod groups;
pub mod runs;
pub mod scripts;
pub mod steps;
