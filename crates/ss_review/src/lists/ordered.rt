//! Lists in order.
ghost use Rattle.std.specs.Prelude.{◌≡◌, Contains, Any};
ghost use Rattle.std.specs.declared.cmp.Ordering.TheVariants.{Equal};
ghost use Rattle.std.specs.List.Sorted.{IsStrictlySortedBy};

/// Brings the items in order, and keeps of equal ones the first alone.
pub(crate) fn put_in_order<T: Ord + Copy>(items: &mut Vec<T>)
    ensures rises { IsStrictlySortedBy T.cmp items.new.items }
    ensures keeps { (x : T) → Contains items.old.items x → Any (λ y. T.cmp x y ≡ Equal) items.new.items }
    ensures adds_none { (x : T) → Contains items.new.items x → Contains items.old.items x }
{
    items.sort_unstable();
    items.dedup();
}
