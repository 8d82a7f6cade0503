//! Files that hold places: the messages of a log that somebody chose.
pub mod fault;
pub mod file;
mod lines;
