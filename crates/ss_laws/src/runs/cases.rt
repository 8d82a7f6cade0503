//! Small runs that sign, computed.
ghost use Rattle.ss_laws.specs.runs.cases.SmallRun.{SmallRunIsThis};
ghost use Rattle.ss_laws.specs.runs.cases.SmallRunsAhead.{SmallRunsAheadAreThis};

use ss_block::laws::readings::readings_are_of_values;
use ss_block::laws::writing::signatures_are_read;
use ss_frame::laws::readings::one_reading;
use ss_message::laws::faults_are_of_no_message;
use ss_review::laws::cases::premises_ahead_are_met;

/// A small run that fails after its sealer signed three blocks, computed.
pub fn small_run_is_this()
    ensures { SmallRunIsThis }
{
    faults_are_of_no_message();
    premises_ahead_are_met();
}

/// Two small runs that follow one another, both with blocks that were signed, computed. They meet the premises of
/// `runs_ahead_sign_once`, and counters that are less by one don't.
pub fn small_runs_ahead_are_this()
    ensures { SmallRunsAheadAreThis }
{
    premises_ahead_are_met();
    one_reading();
    readings_are_of_values();
    signatures_are_read();
}
