//! Laws on nights between counters: from the first counter of each group on and below the second one, and by any payloads
//! that are known beforehand.
//!
//! Each night's log is reviewed alone. Neither proved nor tested is that counters are true, and that two nights join a
//! session under one payload: a report has no payloads.
ghost use Rattle.ss_laws.specs.nights.CompleteLaws.{CleanNightsAreComplete, CompleteNightsAddUp, CompleteNightsHaveAll};
ghost use Rattle.ss_laws.specs.nights.CompleteLaws.{NumbersHaveOneHash};
ghost use Rattle.ss_laws.specs.nights.MissingLaws.{MissingIsReportedOnce};
ghost use Rattle.ss_laws.specs.nights.NightLaws.{BlocksOfNightsAreTold, NightsLeaveOutTheRest, NumbersOfNightsAreTold};
ghost use Rattle.ss_laws.specs.nights.NightLaws.{NumbersOutsideAreThese};
ghost use Rattle.ss_laws.specs.nights.SmallNights.{AnnouncedAreBelowOwnCounters, CleanLogsAreCleanNights};
ghost use Rattle.ss_laws.specs.nights.SmallNights.{IdleNightsAreClean};
ghost use Rattle.ss_laws.specs.nights.VerdictLaws.{VerdictsAreOfNights};
ghost use Rattle.ss_laws.specs.nights.WholeNights.{WholeNightsAreClean};
ghost use Rattle.ss_laws.specs.nights.WholeRows.{LogsArePutTogether};

pub mod cases;

use ss_block::laws::readings::blocks_are_in_range;
use ss_review::laws::counted::{
    counted_are_verified, counted_or_missing, next_gbc_follows, next_numbers_follow,
};
use ss_review::laws::kept::{every_block_is_told, every_number_is_told};
use ss_review::laws::pinned::pinned_reports_are_of_logs;
use ss_review::laws::reports::{
    announced_are_told, listed_are_assigned, one_report, reports_are_in_order,
};

/// A night leaves out what lies below the first counters, and nothing else: each session stays with its state and its
/// groups, each announced number stays, and so does each number of a hole or a tail and each GBC that is missing, from
/// the first counter on. A session that the log has no block of is left out only if it has a first counter and nothing
/// of it is missing.
pub fn nights_leave_out_the_rest()
    ensures { NightsLeaveOutTheRest }
{
    pinned_reports_are_of_logs();
}

/// Each number from its group's first counter on and below the second one is exactly one of listed, a gap, in a hole
/// and in a tail.
pub fn numbers_of_nights_are_told()
    ensures { NumbersOfNightsAreTold }
{
    every_number_is_told();
    pinned_reports_are_of_logs();
    nights_leave_out_the_rest();
}

/// Each GBC from its session's first counter on and below the second one is that of a verified signature block, or it
/// is missing, and never both.
pub fn blocks_of_nights_are_told()
    ensures { BlocksOfNightsAreTold }
{
    every_block_is_told();
    pinned_reports_are_of_logs();
    nights_leave_out_the_rest();
}

/// The early numbers are exactly the announced ones below the first counter of their group, and those beyond the night
/// exactly those from the second counter on. Both stand in greatest runs.
pub fn numbers_outside_are_these()
    ensures { NumbersOutsideAreThese }
{
    reports_are_in_order();
    pinned_reports_are_of_logs();
}

/// A clean night is complete.
pub fn clean_nights_are_complete()
    ensures { CleanNightsAreComplete }
{}

/// If a night is complete, the log lists each number from its group's first counter on and below the second one, and
/// announces no other number. It has a verified signature block with each GBC of that kind. It holds whatever else is in
/// the log.
pub fn complete_nights_have_all()
    ensures { CompleteNightsHaveAll }
{
    announced_are_told();
    nights_leave_out_the_rest();
    numbers_of_nights_are_told();
    blocks_of_nights_are_told();
    numbers_outside_are_these();
    pinned_reports_are_of_logs();
}

/// If nights follow one another, no counter of a group falls and each night is complete, each number from the counters
/// at which the first one begins and below those at which the last one ends is listed in exactly one of their logs. Each
/// GBC of that kind has a verified signature block in one.
pub fn complete_nights_add_up()
    ensures { CompleteNightsAddUp }
{
    announced_are_told();
    pinned_reports_are_of_logs();
    complete_nights_have_all();
}

/// If nights follow one another, no counter of a group falls and each night is complete, a number that is announced is
/// announced in one of their logs alone, and with one hash.
pub fn numbers_have_one_hash()
    ensures { NumbersHaveOneHash }
{
    listed_are_assigned();
    pinned_reports_are_of_logs();
    complete_nights_have_all();
}

/// What is missing up to counters is reported once. A group has one tail at most, from the number after the last
/// announced one to the counter, by rising group. The runs of a session's signature blocks are the greatest ones below
/// its counter, or below the greatest GBC that is there.
pub fn missing_is_reported_once()
    ensures { MissingIsReportedOnce }
{
    announced_are_told();
    reports_are_in_order();
    next_numbers_follow();
    counted_are_verified();
    counted_or_missing();
    next_gbc_follows();
    pinned_reports_are_of_logs();
}

/// Each announced number of a log is at least 1, and below the counter that the log itself gives.
pub fn announced_are_below_own_counters()
    ensures { AnnouncedAreBelowOwnCounters }
{
    announced_are_told();
    next_numbers_follow();
    blocks_are_in_range();
    pinned_reports_are_of_logs();
}

/// A clean log of which nothing is missing up to its own counters is a clean night, from no counter up to these.
pub fn clean_logs_are_clean_nights()
    ensures { CleanLogsAreCleanNights }
{
    announced_are_told();
    numbers_outside_are_these();
    pinned_reports_are_of_logs();
    announced_are_below_own_counters();
}

/// A night in which nothing was sent is clean: its log is empty, and it ends at the counters at which it begins.
pub fn idle_nights_are_clean()
    ensures { IdleNightsAreClean }
{}

/// The verdict of a review between counters is clean exactly if its night is, and the log has a clean end.
pub fn verdicts_are_of_nights()
    ensures { VerdictsAreOfNights }
{}

/// If nights follow one another from no counter on, no counter of a group falls and each night is clean, the log of all
/// nights, one after another, is clean, and nothing is missing of it up to the counters at which the last night ends. It
/// is a clean night, from no counter up to these. The premises are that no two nights join a session under different
/// payloads, and that no two messages without a block have one hash and differ in the other.
pub fn whole_nights_are_clean()
    ensures { WholeNightsAreClean }
{
    announced_are_told();
    listed_are_assigned();
    one_report();
    blocks_are_in_range();
    nights_leave_out_the_rest();
    missing_is_reported_once();
    complete_nights_have_all();
    numbers_outside_are_these();
}

/// What two logs hold, one after the other: what each of them holds, and the places of the second one come after those
/// of the first.
pub fn logs_are_put_together()
    ensures { LogsArePutTogether }
{}
