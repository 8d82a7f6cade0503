//! What comes after the last announced messages of a session, up to its counters.
ghost use Rattle.std.specs.Prelude.{◌≡◌, ◌++◌, ◌∷◌, [], List, unwrap_or, IfOk, OnOk};
ghost use Rattle.std.specs.BTreeMap.{get};
ghost use Rattle.ss_block.specs.Order.{group_cmp};
ghost use Rattle.ss_review.specs.declared.counted.counter.Counter.{Counter};
ghost use Rattle.ss_review.specs.counted.Kept.{blocks_said, group_said, gbc_in, groups_in};
ghost use Rattle.ss_review.specs.counted.Kept.{number_behind, tail_between, tails_in, AreGroups};
ghost use Rattle.ss_review.specs.counted.KeptSoFar.{led_to, KeepsNumbers};

use crate::counted::counter::{Counter, Counts};
use crate::counted::shortfall::{GroupTail, GroupTails};
use crate::lists::ordered::put_in_order;
use crate::report::group_report::GroupReport;
use ss_block::Group;
use ss_octets::NoMemory;
use std::alloc::Global;
use std::collections::BTreeMap;

/// How many signature blocks the session had sent, where the counter says it, and else 0.
fn blocks_said(counter: &Counter) -> u64
    ensures { result ≡ blocks_said counter.now.counts counter.now.next }
{
    match counter.counts {
        Counts::Blocks => counter.next,
        Counts::Messages(_) => 0,
    }
}

/// The greatest GBC that the counters of a session say of its next signature block, or 0 where none does.
pub(crate) fn kept_gbc(own: &[&Counter]) -> u64
    ensures { result ≡ gbc_in (led_to own.now) }
{
    let mut greatest: u64 = 0;
    for counter in own {
        greatest = greatest.max(blocks_said(counter));
    }
    greatest
}

/// Adds the group that the counter speaks of, if it speaks of one.
fn add_group(groups: &mut Vec<Group>, counter: &Counter) -> Result<(), NoMemory>
    ensures { OnOk result (groups.new.items ≡ groups.old.items ++ group_said counter.now.counts) }
{
    match counter.counts {
        Counts::Blocks => Ok(()),
        Counts::Messages(group) => {
            groups.push(group)?;
            Ok(())
        }
    }
}

/// The groups that the counters of a session speak of, each once and in their order.
fn kept_groups(alloc: Global, own: &[&Counter]) -> Result<Vec<Group>, NoMemory>
    ensures { IfOk result (λ v. v.items ≡ groups_in (led_to own.now)) }
{
    let mut groups = Vec::new(alloc);
    for counter in own {
        add_group(&mut groups, counter)?;
    }
    put_in_order(&mut groups);
    Ok(groups)
}

/// The number that is kept of the group, or 0.
fn number_of(numbers: &BTreeMap<Group, u64>, group: Group) -> u64
    ensures { result ≡ unwrap_or (get group_cmp numbers.now group) 0 }
{
    numbers.get(&group).copied().unwrap_or(0)
}

/// Keeps the number that the counter says, unless a greater one is kept of its group.
fn add_number(numbers: &mut BTreeMap<Group, u64>, counter: &Counter) -> Result<(), NoMemory>
    ensures { (own : List Counter)
        → KeepsNumbers numbers.old own
        → OnOk result (KeepsNumbers numbers.new (own ++ counter.now ∷ [])) }
{
    match counter.counts {
        Counts::Blocks => Ok(()),
        Counts::Messages(group) => {
            let greatest = number_of(numbers, group).max(counter.next);
            numbers.insert(group, greatest)?;
            Ok(())
        }
    }
}

/// For each group the greatest number that the counters of a session say of its next message.
fn kept_numbers(alloc: Global, own: &[&Counter]) -> Result<BTreeMap<Group, u64>, NoMemory>
    ensures { IfOk result (λ m. KeepsNumbers m (led_to own.now)) }
{
    let mut numbers = BTreeMap::new(alloc);
    for counter in own {
        add_number(&mut numbers, counter)?;
    }
    Ok(numbers)
}

/// The number after the last announced one of a group, and 1 where none is announced.
fn number_behind(groups: &[GroupReport], group: Group) -> u64
    ensures { AreGroups groups.now → result ≡ number_behind groups.now group }
{
    match groups.binary_search_by(|known| known.group.cmp(&group)) {
        Ok(index) => groups[index].next_number().max(1),
        Err(_) => 1,
    }
}

/// Adds the numbers of a group from the first up to the end, which isn't one, if there are any.
fn add_tail(tails: &mut Vec<GroupTail>, group: Group, first: u64, end: u64) -> Result<(), NoMemory>
    ensures { OnOk result (tails.new.items ≡ tails.old.items ++ tail_between group first end) }
{
    if first < end {
        tails.push(GroupTail {
            group,
            first,
            last: end - 1,
        })?;
    }
    Ok(())
}

/// What comes after the last announced message of each group of a session, up to its counter.
pub(crate) fn tails(
    alloc: Global,
    own: &[&Counter],
    groups: &[GroupReport],
) -> Result<GroupTails, NoMemory>
    ensures { AreGroups groups.now → IfOk result (λ t. t ≡ tails_in (led_to own.now) groups.now) }
{
    let kept = kept_groups(alloc, own)?;
    let numbers = kept_numbers(alloc, own)?;
    let mut tails = Vec::new(alloc);
    for group in kept.as_slice() {
        let first = number_behind(groups, *group);
        add_tail(&mut tails, *group, first, number_of(&numbers, *group))?;
    }
    Ok(GroupTails::from_vec(tails))
}
