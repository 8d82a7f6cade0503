//! Signature blocks and certificate blocks (RFC 5848, sections 4 and 5): read from messages and written, what is signed
//! of them, their sessions, and payloads with their fragments.
#![tactic(auto)]

mod block;
mod block_parameter;
mod certificate_reading;
mod copies;
mod elements;
mod full_reading;
mod hash;
mod hash_array;
mod hash_text;
mod hashes;
mod head;
pub mod laws;
mod mark;
mod order;
mod parameters;
mod placed_reading;
mod ranges;
mod reading;
mod refusal;
mod scheme;
mod session;
mod session_places;
mod signature_reading;
mod signed;
mod sound;
mod spelling;
mod spoil;
mod texts;
mod version;
mod writing;

pub use block::{BlockHeader, CertBlock, Group, SigBlock};
pub use full_reading::{FullReading, read_fully};
pub use hash::{Alg, Hash, HashPair, hash_of, pair_of};
pub use hash_array::{array_hashes, put_array_text, put_hash_array};
pub use hashes::Hashes;
pub use head::Head;
pub use mark::may_hold_block;
pub use placed_reading::{PlacedReading, read_placed};
pub use ranges::{LAST_NUMBER, PAST_LAST_NUMBER};
pub use reading::{Reading, classify};
pub use scheme::Scheme;
pub use session::{Session, classify_with_session, session_of};
pub use session_places::SessionPlaces;
pub use signed::signed_bytes;
pub use spoil::Spoil;
pub use ss_payload::{Cut, Cuts, JoinState, Joined, Joiner, Kind, LONGEST_PAYLOAD, Payload, cut};
pub use texts::{Meant, meaning};
pub use version::versions;
pub use writing::{unsigned_cert, unsigned_sig, write_cert, write_sig};
