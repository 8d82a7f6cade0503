//! What the octets that the signature of a block covers say of the block (RFC 5848, sections 4.2 and 5.3.2): for whoever
//! has these octets and not the message.
#![tactic(auto)]

mod completing;
mod describing;
mod fault;
pub mod laws;
mod line;
mod object;
mod place;
mod run;
mod signed_block;
mod sound;

pub use describing::read_signed;
pub use fault::DescribeFault;
pub use line::answer_to;
pub use object::object_of;
pub use run::run_describe;
pub use signed_block::{SignedBlock, SignedContent};
