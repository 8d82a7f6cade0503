//! Where an originator goes on, by a counters file.
ghost use Rattle.std.specs.Prelude.{option_map};
ghost use Rattle.ssign.specs.SigningOrder.{GivesStart};

use crate::given_files::{GivenFiles, counters_in};
use ss_answers::{CounterFault, StartFault, start_of};
use ss_block::Session;
use ss_origin::{Config, Counters};
use std::alloc::Global;

/// Why a counters file doesn't say where an originator goes on.
#[derive(Clone, Copy, Debug, PartialEq, Eq)]
pub enum StartRefusal {
    /// The file gives no counters.
    File(CounterFault),
    /// No originator of the configuration goes on at its counters.
    Counters(StartFault),
}

/// The counters at which an originator of this configuration goes on, by a counters file. None, if no file is named.
pub fn start_in<F: GivenFiles>(
    alloc: Global,
    files: &F,
    path: Option<&str>,
    config: &Config,
) -> Result<Option<Counters>, StartRefusal>
    ensures { GivesStart (F.contents files.now) (option_map (λ s. s.now) path.entry) config.now result }
{
    let counters = match counters_in(files, path) {
        Ok(Some(counters)) => counters,
        Ok(None) => return Ok(None),
        Err(fault) => return Err(StartRefusal::File(fault)),
    };
    let Ok(session) = Session::of_head(alloc, &config.head, config.rsid) else {
        return Err(StartRefusal::Counters(StartFault::Memory));
    };
    match start_of(alloc, &session, &config.grouping, counters.as_slice()) {
        Ok(start) => Ok(Some(start)),
        Err(fault) => Err(StartRefusal::Counters(fault)),
    }
}
