//! Laws of the definitions that contracts cite. Each is the contract of a function that does nothing.

pub mod fragments;
pub mod orders;
pub mod readings;
pub mod writing;

pub use ss_payload::laws::{cutting, joining, payloads};
