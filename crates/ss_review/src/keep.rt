//! What is kept of the messages of a log as they are fed.
pub(crate) mod block_message;
pub(crate) mod kept_block;
pub(crate) mod kept_content;
pub(crate) mod kept_sender;
pub(crate) mod log_blocks;
pub(crate) mod message;
pub(crate) mod noted;
pub(crate) mod packed;
pub(crate) mod review_input;
pub(crate) mod reviewer;
pub(crate) mod spoilt;
pub(crate) mod stored;
pub(crate) mod stored_message;
