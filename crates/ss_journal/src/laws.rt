//! What holds of every file and of every life. Each law is the contract of a function that does nothing.

pub mod disks;
pub mod lives;
pub mod records;
