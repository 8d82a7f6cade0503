//! What finds a message without a block by its hashes.
ghost use Rattle.std.specs.Prelude.{◌≡◌, List, map, IfOk};
ghost use Rattle.ss_review.specs.declared.keep.message.NormalMessage.{NormalMessage};
ghost use Rattle.ss_review.specs.assign.Assigning.{assigned_all};

use crate::announced::only_hash::OnlyHash;
use ss_octets::NoMemory;
use std::alloc::Global;

/// The messages of a log without a block, by their hashes.
pub(crate) trait Index {
    /// It has these messages, by rising place, and no others.
    ghost has: { Self → List NormalMessage → Type 0 };

    /// The places of the messages, which rise.
    fn places(&self, alloc: Global) -> Result<Vec<u32>, NoMemory>
        ensures { (ms : List NormalMessage)
            → has self.now ms
            → IfOk result (λ v. v.items ≡ map (λ m. m.place) ms) };

    /// The places that the announced keys are assigned, in their order, from the hash that each is announced with, or
    /// none where none counts.
    fn assign(&self, alloc: Global, hashes: &[OnlyHash<'_>]) -> Result<Vec<Option<u32>>, NoMemory>
        ensures { (ms : List NormalMessage)
            → has self.now ms
            → IfOk result (λ places. places.items ≡ assigned_all ms hashes.now) };
}

/// An index that is lent answers as itself.
impl<'i, I: Index> Index for &'i I {
    ghost has = { λ index messages. I.has index.now messages };

    fn places(&self, alloc: Global) -> Result<Vec<u32>, NoMemory> {
        (**self).places(alloc)
    }

    fn assign(&self, alloc: Global, hashes: &[OnlyHash<'_>]) -> Result<Vec<Option<u32>>, NoMemory> {
        (**self).assign(alloc, hashes)
    }
}
