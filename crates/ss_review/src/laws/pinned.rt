//! What holds of the reports of all logs by payloads that are given.
ghost use Rattle.ss_review.specs.pinned.Stands.{PinnedReportsAreInOrder, PinnedReportsAreOfLogs};

use crate::laws::reports::reports_are_in_order;
use ss_block::laws::readings::readings_are_of_values;

/// A report by given payloads is the report of a log without any, in which a spoilt block stands for each block that
/// isn't kept. Only what is refused and what is spoilt differ.
pub fn pinned_reports_are_of_logs()
    ensures { PinnedReportsAreOfLogs }
{
    readings_are_of_values();
}

/// A report by given payloads is in rising order: its sessions, the groups of each, the entries of each group, and its
/// places.
pub fn pinned_reports_are_in_order()
    ensures { PinnedReportsAreInOrder }
{
    pinned_reports_are_of_logs();
    reports_are_in_order();
}
