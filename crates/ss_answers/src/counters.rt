//! Files that hold counters, which were kept apart from the log, and where an originator goes on by them.
pub mod fault;
pub mod file;
mod line;
mod lines;
pub mod start;
pub mod start_fault;
mod words;
