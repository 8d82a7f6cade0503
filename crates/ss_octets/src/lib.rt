//! What several crates share: octets and lists that their holder owns, the fault "out of memory", codes of faults,
//! numbers in decimal, strict base64 (RFC 4648, section 4), and a text cut at an octet.
#![tactic(auto)]

mod code;
mod cut;
mod list;
mod no_memory;
mod number;
pub mod strict_base64;

pub use code::Code;
pub use cut::cut_first;
pub use list::{Bytes, List};
pub use no_memory::NoMemory;
pub use number::{number_of, put_number};
