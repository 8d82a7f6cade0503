//! Laws on counters that a run reads back, and on plans that are sealed.
//!
//! Neither proved nor tested is that both calls of `ssign` get the same log, options and stamp. That a seal is valid isn't
//! asked.
ghost use Rattle.ss_laws.specs.plans.FileStarts.{RunsByFilesGoOn};
ghost use Rattle.ss_laws.specs.plans.ReadBack.{AheadIsReadAmongOthers, AheadIsReadBack, OlderCountersChangeNothing};
ghost use Rattle.ss_laws.specs.plans.ReadBack.{RunsAheadAreReadBack};
ghost use Rattle.ss_laws.specs.plans.SealedPlans.{EachPlanCanBeSealed, PlansWithSealsAreNotRefused};
ghost use Rattle.ss_laws.specs.plans.SealedPlans.{SealedMessagesAreNotRefused, SealedPlansAreNotRefused};

pub mod cases;

use ss_answers::laws::parts_have_their_counters;
use ss_frame::laws::readings::one_reading;
use ss_origin::Seals;
use ss_origin::laws::chains::counters_stay_in_range;
use ss_signing::laws::runs_go_on;

/// The text of counters with other counters before and after is read as all of them. An originator of the session goes on
/// at the greater of what the counters have and what the others say.
pub fn ahead_is_read_among_others()
    ensures { AheadIsReadAmongOthers }
{
    parts_have_their_counters();
}

/// Other counters in the text change nothing, if they are of other sessions, or of this one and no greater.
pub fn older_counters_change_nothing()
    ensures { OlderCountersChangeNothing }
{
    ahead_is_read_among_others();
}

/// The text of counters is read back as them, by an originator of their session and grouping. No line of it is refused,
/// and it is never too long.
pub fn ahead_is_read_back()
    ensures { AheadIsReadBack }
{
    ahead_is_read_among_others();
    older_counters_change_nothing();
}

/// What `run_ahead` writes is read back as the counters of the state in which its calls end.
pub fn runs_ahead_are_read_back()
    ensures { RunsAheadAreReadBack }
{
    counters_stay_in_range();
    ahead_is_read_back();
}

/// Runs of one session that succeeded and follow one another by counters files, in which the lines stand that were told
/// ahead, are the lives of a chain that goes on ahead. So the laws of `ss_origin::laws::ahead` hold of what they write.
pub fn runs_by_files_go_on()
    ensures { RunsByFilesGoOn }
{
    counters_stay_in_range();
    ahead_is_read_among_others();
    runs_go_on();
}

/// If the calls for some messages were accepted where a plan was made, and its lines are sealed, none of these calls is
/// refused for a seal where the messages are signed, whatever the sealer.
pub fn sealed_messages_are_not_refused<J: Seals>()
    ensures { SealedMessagesAreNotRefused J.answers }
{}

/// If a plan was written of a log, and its lines are sealed, a run that signs this log isn't refused for a seal (O6, O7).
pub fn sealed_plans_are_not_refused<J: Seals>()
    ensures { SealedPlansAreNotRefused J.answers }
{
    one_reading();
}

/// The same for the sealer of an answers file that has a seal of at most 1,024 octets for each line of the plan.
pub fn plans_with_seals_are_not_refused()
    ensures { PlansWithSealsAreNotRefused }
{
    one_reading();
}

/// The octets of a plan's lines are those that are signed of its block messages. Each plan has a file that has a seal for
/// each line, so that the premises of the law before can be met.
pub fn each_plan_can_be_sealed()
    ensures { EachPlanCanBeSealed }
{}
