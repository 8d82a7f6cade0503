//! What was found of blocks, so that one that stands in a log many times is asked about once.
ghost use Rattle.std.specs.Prelude.{◌≡◌, Bool, Some, IfSome, OnOk};
ghost use Rattle.std.specs.BTreeMap.{get, Updates};
ghost use Rattle.ss_review.specs.keep.BlockMessage.{BlockMessage};
ghost use Rattle.ss_review.specs.sessions.Claims.{claim_cmp, IsClaimOf};
ghost use Rattle.ss_review.specs.sessions.FoundBlocks.{TellsEqualsAlike, KeepsWhatHolds};

use crate::sessions::claim::Claim;
use ss_octets::NoMemory;
use std::alloc::Global;
use std::collections::BTreeMap;

/// What was found of some blocks, and so of each that equals one of them.
#[derive(Drop)]
pub(crate) struct FoundBlocks<'a> {
    found: BTreeMap<Claim<'a>, bool>,
}

impl<'a> FoundBlocks<'a> {
    /// Nothing was found yet. It takes no memory.
    pub(crate) fn new(alloc: Global) -> FoundBlocks<'a>
        ensures { (f : BlockMessage → Bool) → KeepsWhatHolds f result }
    {
        FoundBlocks {
            found: BTreeMap::new(alloc),
        }
    }

    /// What was found of the block of this claim, if it was.
    pub(crate) fn get(&self, claim: &Claim<'a>) -> Option<bool>
        ensures value { result ≡ get claim_cmp self.now.found claim.now }
        ensures holds { (f : BlockMessage → Bool) (b : BlockMessage)
            → KeepsWhatHolds f self.now
            → IsClaimOf claim.now b
            → IfSome result (λ v. v ≡ f b) }
    {
        self.found.get(claim).copied()
    }

    /// Keeps what was found of the block of this claim.
    pub(crate) fn add(&mut self, claim: Claim<'a>, found: bool) -> Result<(), NoMemory>
        ensures added { OnOk result (Updates claim_cmp self.old.found self.new.found claim.entry (Some found)) }
        ensures holds { (f : BlockMessage → Bool) (b : BlockMessage)
            → TellsEqualsAlike f
            → KeepsWhatHolds f self.old
            → IsClaimOf claim.entry b
            → found ≡ f b
            → OnOk result (KeepsWhatHolds f self.new) }
    {
        self.found.insert(claim, found)?;
        Ok(())
    }
}
