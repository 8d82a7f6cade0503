//! Streams read and written, as frames (RFC 6587, section 3.4.1) and as lines.
mod asking;
mod buffered;
mod failing;
mod limits;
mod output;
mod streams;
