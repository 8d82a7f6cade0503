//! Small logs of nights between counters, computed.
ghost use Rattle.ss_laws.specs.nights.SmallNights.{SmallNightIsClean};
ghost use Rattle.ss_laws.specs.nights.WholeRows.{WholeNightsAreThese};
ghost use Rattle.ss_laws.specs.nights.cases.NightRows.{NightsLeaveThese};
ghost use Rattle.ss_laws.specs.nights.cases.SmallWholeNights.{PremisesAreMet};

use crate::nights::{
    announced_are_below_own_counters, clean_logs_are_clean_nights, idle_nights_are_clean,
};
use ss_block::laws::readings::readings_are_of_values;
use ss_block::laws::writing::{certificates_are_read, signatures_are_read};
use ss_review::laws::cases::whole_is_reported;
use ss_review::laws::reports::announced_are_told;

/// Small reports between counters, computed: what is left of holes, tails and runs, which sessions are left out, and
/// the runs of numbers outside of the night.
pub fn nights_leave_these()
    ensures { NightsLeaveThese }
{}

/// A small log meets the premises of the laws on clean nights, and so does a night after it in which nothing was sent.
pub fn small_night_is_clean()
    ensures { SmallNightIsClean }
{
    whole_is_reported();
    announced_are_told();
    announced_are_below_own_counters();
    clean_logs_are_clean_nights();
    idle_nights_are_clean();
}

/// Small logs of two nights, each of them clean, and the reports on both together, computed: one that is clean, and for
/// each premise one that isn't.
pub fn whole_nights_are_these()
    ensures { WholeNightsAreThese }
{}

/// A night with one message, and one after it in which nothing was sent, meet the premises of `whole_nights_are_clean`.
pub fn premises_are_met()
    ensures { PremisesAreMet }
{
    readings_are_of_values();
    signatures_are_read();
    certificates_are_read();
    small_night_is_clean();
}
