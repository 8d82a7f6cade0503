//! What a review asks of a signature scheme.
pub(crate) mod asked;
pub(crate) mod asking;
pub(crate) mod parameters;
pub(crate) mod question;
pub(crate) mod questioner;
