//! Small counters and a small plan, computed.
ghost use Rattle.ss_laws.specs.plans.cases.SavedRows.{SavedRowsAreThese};
ghost use Rattle.ss_laws.specs.plans.cases.SmallPlan.{SmallPlanIsThis};

use crate::plans::{ahead_is_read_among_others, older_counters_change_nothing};
use ss_frame::laws::calls::units_are_read;
use ss_origin::laws::chains::counters_stay_in_range;
use ss_review::laws::cases::premises_are_met;

/// Small counters that are saved, and what is read of them, computed: alone, and among older and newer ones.
pub fn saved_rows_are_these()
    ensures { SavedRowsAreThese }
{}

/// A small log has a plan with two lines, and a run that goes on by the file which another one wrote ahead. So the premises
/// of the laws are met.
pub fn small_plan_is_this()
    ensures { SmallPlanIsThis }
{
    premises_are_met();
    units_are_read();
    counters_stay_in_range();
    ahead_is_read_among_others();
    older_counters_change_nothing();
}
