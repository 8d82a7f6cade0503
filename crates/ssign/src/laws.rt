//! Laws on several commands.
ghost use Rattle.std.specs.Prelude.{◌≡◌, false, List, ℕ};
ghost use Rattle.ssign.specs.declared.refuse_all.RefuseAll.{RefuseAll};
ghost use Rattle.ssign.specs.CommandLine.{AreFoundByName};
ghost use Rattle.ssign.specs.ReadBack.{CountersAreReadBack};

use crate::refuse_all::RefuseAll;
use ss_answers::laws::parts_have_their_counters;
use ss_report::laws::counters_are_the_logs;
use ss_review::Judge;
use ss_review::laws::kept::{
    counters_given_back, log_counters_add_nothing, log_counters_are_in_range,
};

/// Where no answers file is given, no payload is trusted, and no signature is valid: the judge of such a run says no to
/// everything.
pub fn nobody_is_trusted()
    ensures trusted { (judge : RefuseAll) (payload : List ℕ) → ⟦<RefuseAll as Judge>⟧.trusted judge payload ≡ false }
    ensures valid { (judge : RefuseAll) (payload octets signature : List ℕ) →
        ⟦<RefuseAll as Judge>⟧.valid judge payload octets signature ≡ false }
{}

/// Each command is found by its name, and by no other text. So no two have one name.
pub fn commands_are_found_by_name()
    ensures { AreFoundByName }
{}

/// The text that `counters` writes of a log, without `--json`, is read by `review --counters` as the log's own
/// counters. It is read as nothing else, and none of its lines is refused. A review of the same log that is given them
/// writes what one with `--whole` writes, and has its verdict. So it has no tail, no absent session, and no missing
/// blocks but those that the log shows by itself.
pub fn counters_are_read_back()
    ensures { CountersAreReadBack }
{
    parts_have_their_counters();
    counters_are_the_logs();
    log_counters_are_in_range();
    log_counters_add_nothing();
    counters_given_back();
}
