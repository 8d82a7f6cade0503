//! The ranges of a configuration and of counters.
ghost use Rattle.std.specs.Prelude.{◌≡◌, ◌↔◌, ◌&&◌, false, IfOk, IsTrue};
ghost use Rattle.std.specs.List.{list_all};
ghost use Rattle.ss_origin.specs.Groups.{are_bounds, is_grouping, has_group};
ghost use Rattle.ss_origin.specs.Configs.{is_between, is_config, IsFit};
ghost use Rattle.ss_origin.specs.Counting.{rises, are_counters};
ghost use Rattle.ss_block.specs.Ranges.{past_last_number};

use crate::config::Config;
use crate::counters::{Counters, NextNumber};
use crate::grouping::Grouping;
use ss_block::{LAST_NUMBER, LONGEST_PAYLOAD, PAST_LAST_NUMBER, Payload};
use ss_octets::NoMemory;
use std::alloc::Global;

/// Whether the bounds of ranges of PRI rise strictly, and the last is 191.
pub fn are_bounds(bounds: &[u8]) -> bool
    ensures { result ≡ are_bounds bounds.now }
{
    match bounds {
        [] => false,
        [bound] => *bound == 191,
        [bound, rest @ ..] => *bound < rest[0] && are_bounds(rest),
    }
}

/// Whether the SPRI of one group is at most 191, or the bounds of ranges are as they have to be.
fn is_grouping(grouping: &Grouping) -> bool
    ensures { result ≡ is_grouping grouping.now }
{
    match grouping {
        Grouping::One { spri } => *spri <= 191,
        Grouping::ByPri => true,
        Grouping::Ranges(bounds) => are_bounds(bounds.as_slice()),
    }
}

/// Whether a configuration is in its ranges.
#[tactic(auto, unfolding(crate::specs::Configs::is_config))]
fn is_config(config: &Config) -> bool
    ensures { result ≡ is_config config.now }
{
    config.rsid <= LAST_NUMBER
        && (1 <= config.per_block && config.per_block <= 99)
        && (1 <= config.copies && config.copies <= 9)
        && (1 <= config.frag && config.frag <= 9_999)
        && is_grouping(&config.grouping)
}

/// Whether a configuration is in its ranges, and the payload's text has at most 99,999,999 octets. Memory is taken for
/// the text, and given back.
pub fn is_fit(alloc: Global, config: &Config, payload: &Payload) -> Result<bool, NoMemory>
    ensures fit { IfOk result (λ b. IsTrue b ↔ IsFit config.now payload.now) }
    ensures ranges_first { is_config config.now ≡ false → result ≡ Ok false }
{
    if !is_config(config) {
        return Ok(false);
    }
    let text = payload.write(alloc)?;
    Ok(text.as_slice().len() <= LONGEST_PAYLOAD as usize)
}

/// Whether the grouping has a group of this SPRI.
pub fn has_group(grouping: &Grouping, spri: u8) -> bool
    ensures { result ≡ has_group grouping.now spri }
{
    match grouping {
        Grouping::One { spri: only } => spri == *only,
        Grouping::ByPri => spri <= 191,
        Grouping::Ranges(bounds) => bounds.as_slice().contains(&spri),
    }
}

/// Whether the groups are strictly rising by SPRI.
fn rises(numbers: &[NextNumber]) -> bool
    ensures { result ≡ rises numbers.now }
{
    match numbers {
        [] => true,
        [_] => true,
        [first, rest @ ..] => first.spri < rest[0].spri && rises(rest),
    }
}

/// Whether the groups are all of the grouping, and their numbers 1 to 10,000,000,000.
fn are_in_range(grouping: &Grouping, numbers: &[NextNumber]) -> bool
    ensures { result ≡ list_all (λ n.
        has_group grouping.now n.spri && is_between 1 past_last_number n.number) numbers.now }
{
    for next in numbers {
        if !has_group(grouping, next.spri) || next.number < 1 || next.number > PAST_LAST_NUMBER {
            return false;
        }
    }
    true
}

/// Whether counters are in their ranges, and their groups are strictly rising ones of the grouping.
#[tactic(auto, unfolding(crate::specs::Counting::are_counters))]
pub fn are_counters(grouping: &Grouping, counters: &Counters) -> bool
    ensures { result ≡ are_counters grouping.now counters.now }
{
    let numbers = counters.groups.as_slice();
    counters.gbc <= PAST_LAST_NUMBER && rises(numbers) && are_in_range(grouping, numbers)
}
