//! The runs that calls close.
ghost use Rattle.ss_origin.specs.CoverLaws.{MessagesFallIntoRuns, OthersAreInRuns};
ghost use Rattle.ss_origin.specs.RunLaws.{RunsAreLast, RunsFitBlocks, RunsHaveSmallSpris};

use ss_message::laws::faults_are_of_no_message;

/// A run that a call closes is the last messages of its group, after those that weren't pending.
pub fn runs_are_last()
    ensures { RunsAreLast }
{}

/// A run has 1 to `per_block` messages.
pub fn runs_fit_blocks()
    ensures { RunsFitBlocks }
{}

/// The SPRI of a run is below 192.
pub fn runs_have_small_spris()
    ensures { RunsHaveSmallSpris }
{
    faults_are_of_no_message();
}

/// The messages of a group are those of its runs, one after the other, and then those that are pending.
pub fn messages_fall_into_runs()
    ensures { MessagesFallIntoRuns }
{}

/// Each message of a group that isn't pending is in a run that a call closed.
pub fn others_are_in_runs()
    ensures { OthersAreInRuns }
{}
