//! Which refused blocks aren't to be ignored, where those of strangers are.
pub(crate) mod fellows;
pub(crate) mod names;
pub(crate) mod reach;
pub(crate) mod suspects;
