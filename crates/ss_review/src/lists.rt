//! Lists that several subjects share.
pub(crate) mod ordered;
