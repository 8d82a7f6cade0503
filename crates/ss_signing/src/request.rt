//! How the messages of a log are sent.
use ss_frame::{Form, Limits};
use ss_message::Stamp;
use ss_origin::{Config, Counters};

/// How the messages of a log are sent.
#[derive(Debug, Drop)]
pub struct SendRequest {
    /// What the originator is to do.
    pub config: Config,
    /// The counters at which it goes on. Without them it is new, and begins with the certificate blocks.
    pub start: Option<Counters>,
    /// The stamp of each block message.
    pub stamp: Option<Stamp>,
    /// In which form a signed log is written, whatever the form of the log. Plans and counters are no messages, and don't
    /// depend on it.
    pub out: Form,
    /// Whether a message that can't be signed is signed in a wrap, and so is one that has the form of a wrap. A wrap has
    /// HOSTNAME, APP-NAME and PROCID of the configuration's head, and the stamp.
    pub wrap: bool,
    /// In which form the log is stored, and how long it and its messages may be.
    pub limits: Limits,
}
