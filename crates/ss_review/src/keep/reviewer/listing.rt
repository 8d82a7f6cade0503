//! The blocks among the messages that a reviewer was fed.
ghost use Rattle.std.specs.Prelude.{◌≡◌, List, IfOk, IfErr};
ghost use Rattle.ss_review.specs.declared.fault.ReviewFault.TheVariants.{Memory};
ghost use Rattle.ss_review.specs.keep.Notes.{Note};
ghost use Rattle.ss_review.specs.keep.Contents.{blocks};
ghost use Rattle.ss_review.specs.keep.Keeping.{Keeps};
ghost use Rattle.ss_review.specs.keep.LogBlocks.{log_blocks};

use crate::fault::ReviewFault;
use crate::keep::log_blocks::{LogBlocks, log_blocks};
use crate::keep::reviewer::Reviewer;

impl Reviewer {
    /// The blocks among the messages that it was fed, verified or not, by rising place. `Memory` if it runs out of
    /// memory. It can be called again, and messages can be fed after it.
    pub fn log_blocks(&self) -> Result<LogBlocks, ReviewFault>
        ensures blocks { (ns : List Note) → Keeps self.now ns → IfOk result (λ bs. bs ≡ log_blocks (blocks ns)) }
        ensures fault { IfErr result (λ f. f ≡ Memory) }
    {
        Ok(log_blocks(self.alloc, self.blocks.as_slice())?)
    }
}
