//! Places of messages in a log.
use ss_octets::List;

/// Places of messages, each counted from 0. Contracts see the list alone.
pub type Places = List<u32>;
