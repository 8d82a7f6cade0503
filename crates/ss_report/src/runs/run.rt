//! What a run over a log takes.
use crate::log::read_options::ReadOptions;
use ss_frame::Watched;
use ss_octets::Bytes;
use std::alloc::Global;

/// What a run over a log takes: a log, where its output goes, and what it may use.
///
/// Where a contract has a run's `exit`, `exit.0` is the reader as the run leaves it, and `exit.1.0` the writer.
#[derive(Drop)]
pub struct Run<'r, R, W> {
    /// The log. It hasn't failed.
    pub reader: &'r mut Watched<R>,
    /// Where the output goes. It hasn't failed.
    pub writer: &'r mut Watched<W>,
    /// In which form the log is stored, how long it and its messages may be, and whether reading goes on after damage.
    pub options: ReadOptions,
    /// The payloads by which sessions are joined, if they are known beforehand: each a whole payload block, as its
    /// originator sends it in pieces (RFC 5848, section 5.3). A session that one of them claims is joined by it, and
    /// certificate blocks that don't speak for it are refused (`Reviewer::conclude_by`). An inspection doesn't look at
    /// them.
    pub known: Option<&'r [Bytes]>,
    /// Where memory comes from.
    pub alloc: Global,
}
