//! The blocks of a log: where each stands, and what it says about itself.
ghost use Rattle.std.specs.Prelude.{◌≡◌, IfOk};
ghost use Rattle.ss_review.specs.keep.LogBlocks.{log_block, log_blocks};

use crate::keep::kept_block::KeptBlock;
use crate::questions::parameters::AskedParameters;
use ss_block::Session;
use ss_octets::{List, NoMemory};
use std::alloc::Global;

/// A block of a log, verified or not.
#[derive(Debug, Drop)]
pub struct LogBlock {
    /// Its place in the log, from 0.
    pub place: u32,
    /// The session that it claims.
    pub session: Session,
    /// What it says about itself.
    pub parameters: AskedParameters,
}

/// The blocks of a log, by rising place. Contracts see the list alone.
pub type LogBlocks = List<LogBlock>;

/// Where a kept block stands, and what it says about itself.
fn log_block(alloc: Global, kept: &KeptBlock) -> Result<LogBlock, NoMemory>
    ensures { IfOk result (λ b. b ≡ log_block kept.now) }
{
    Ok(LogBlock {
        place: kept.place(),
        session: kept.session(alloc)?,
        parameters: kept.parameters(),
    })
}

/// The same of all of them.
pub(crate) fn log_blocks(alloc: Global, kept: &[KeptBlock]) -> Result<LogBlocks, NoMemory>
    ensures { IfOk result (λ bs. bs ≡ log_blocks kept.now) }
{
    let mut blocks = Vec::with_capacity(alloc, kept.len())?;
    for block in kept {
        blocks.push(log_block(alloc, block)?)?;
    }
    Ok(LogBlocks::from_vec(blocks))
}
