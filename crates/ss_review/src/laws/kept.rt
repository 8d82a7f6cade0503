//! What holds of every log up to counters that somebody kept.
ghost use Rattle.ss_review.specs.counted.KeptLaws.{
  CleanUpToCounters,
  CountersGivenBack,
  EveryBlockIsTold,
  EveryNumberIsTold,
  LogCountersAddNothing,
  LogCountersAreInRange,
  LogsAreReviewed,
  LostAreTold,
  OwnCountersReachTheEnd,
};
ghost use Rattle.ss_review.specs.counted.KeptRows.{ShortfallsAreThese};

use crate::laws::counted::{
    counted_are_in_range, counted_are_verified, counted_or_missing, next_numbers_are_in_range,
    next_numbers_follow,
};
use crate::laws::deliveries::listed_have_their_hash;
use crate::laws::reports::{
    announced_are_told, gaps_are_unassigned, keys_are_announced, listed_are_assigned, one_report,
    reports_are_in_order,
};
use ss_block::laws::readings::blocks_are_in_range;
use ss_message::laws::faults_are_of_no_message;
use ss_origin::laws::chains::numbers_go_on;

/// Of every log, what a review says and the GBC of the verified signature blocks rise and are in range. That is all
/// that `log_shortfalls` asks for.
pub fn logs_are_reviewed()
    ensures { LogsAreReviewed }
{
    reports_are_in_order();
    next_numbers_are_in_range();
    counted_are_in_range();
}

/// Each number below its group's counter is exactly one of listed, a gap, in a hole and in a tail. No number at its
/// group's counter or above, and no announced one, is in a tail.
pub fn every_number_is_told()
    ensures { EveryNumberIsTold }
{
    announced_are_told();
    reports_are_in_order();
    one_report();
    counted_are_verified();
    next_numbers_follow();
    keys_are_announced();
    listed_are_assigned();
    gaps_are_unassigned();
}

/// Each value below its session's counter is the GBC of a verified signature block, or in a run of missing ones. None
/// is both.
pub fn every_block_is_told()
    ensures { EveryBlockIsTold }
{
    counted_are_verified();
    counted_or_missing();
}

/// If a report is clean, and no tail, no missing block and no absent session is reported, each message below its
/// group's counter is listed. The log then has each signature block below its session's counter.
pub fn clean_up_to_counters()
    ensures { CleanUpToCounters }
{
    every_number_is_told();
    every_block_is_told();
}

/// Up to the counters that a log itself gives, there is no tail and no absent session, and the missing blocks are those
/// that the log shows without them.
pub fn counters_given_back()
    ensures { CountersGivenBack }
{}

/// What is missing of a log up to the counters that it itself gives is what is missing of it without counters.
pub fn log_counters_add_nothing()
    ensures { LogCountersAddNothing }
{}

/// The counters that a log itself gives have sessions, groups and numbers in their ranges. So each has a line.
pub fn log_counters_are_in_range()
    ensures { LogCountersAreInRange }
{
    faults_are_of_no_message();
    blocks_are_in_range();
    keys_are_announced();
    counted_are_in_range();
    next_numbers_are_in_range();
    next_numbers_follow();
}

/// The counters that the newest of the originators ended with go past the last message of each group.
pub fn own_counters_reach_the_end()
    ensures { OwnCountersReachTheEnd }
{
    numbers_go_on();
}

/// If the counters reach the end of each group, the number of each lost message is a gap, in a hole or in a tail. A
/// message is lost where the log has no message without a block that has its hash. The premises are those of
/// `listed_have_their_hash`: the log delivers from originators of one session, however often they were resumed, their
/// payload is trusted, and what they signed is accepted.
pub fn lost_are_told()
    ensures { LostAreTold }
{
    every_number_is_told();
    listed_have_their_hash();
}

/// What is missing of small logs up to some counters, computed.
pub fn shortfalls_are_these()
    ensures { ShortfallsAreThese }
{}
