//! What a sealer is asked.
ghost use Rattle.ss_origin.specs.AskedLaws.{ListsWhatIsDue, ListsTheFirstDue};

use crate::sealer::Seals;

/// A sealer that lists what it is asked has listed, after an accepted call, the signed octets of the blocks that are
/// due, in order, each once. After a call that stopped at a block it has listed those of the first of them.
pub fn questions_are_blocks<J: Seals>()
    ensures due { ListsWhatIsDue J.asked }
    ensures first { ListsTheFirstDue J.asked }
{}
