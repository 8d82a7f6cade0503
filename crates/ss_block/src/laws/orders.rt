//! What holds for the orders.
ghost use Rattle.std.specs.Prelude.{◌≡◌};
ghost use Rattle.ss_block.specs.Order.{group_cmp, hash_cmp, pair_cmp, spoil_cmp};
ghost use Rattle.ss_block.specs.OrderLaws.{OrdersAreExact};

use crate::block::Group;
use crate::hash::{Hash, HashPair};
use crate::spoil::Spoil;

/// Each order is total, and only equal values tie.
pub fn orders_are_exact()
    ensures { OrdersAreExact }
{}

/// Groups rise by SG and then by SPRI, in whatever order their fields stand.
pub fn groups_rise_by_sg()
    ensures { (a b : _) → ⟦<Group as Ord>⟧.cmp a b ≡ group_cmp a b }
{}

/// A hash of SHA-1 stands before one of SHA-256, and hashes of one algorithm rise by their octets.
pub fn hashes_rise_by_algorithm()
    ensures { (a b : _) → ⟦<Hash as Ord>⟧.cmp a b ≡ hash_cmp a b }
{}

/// Pairs rise by the octets of SHA-1 and then by those of SHA-256.
pub fn pairs_rise_by_sha1()
    ensures { (a b : _) → ⟦<HashPair as Ord>⟧.cmp a b ≡ pair_cmp a b }
{}

/// Causes rise by their numbers, in whatever order their variants stand.
pub fn causes_rise_by_number()
    ensures { (a b : _) → ⟦<Spoil as Ord>⟧.cmp a b ≡ spoil_cmp a b }
{}
