//! What holds of the reports of all logs by given payloads.
ghost use Rattle.ss_laws.specs.strangers.PinnedAnswers.{AgreeingSchemesGiveOnePinnedReport};
ghost use Rattle.ss_laws.specs.strangers.PinnedListings.{PinnedReportsListWhatIsAnnounced};
ghost use Rattle.ss_laws.specs.strangers.PinnedReports.{EveryBlockIsTold, EveryNumberIsTold};

use crate::strangers::states::logs_are_within;
use ss_block::laws::readings::blocks_are_in_range;
use ss_review::laws::kept;
use ss_review::laws::pinned::{pinned_reports_are_in_order, pinned_reports_are_of_logs};
use ss_review::laws::reports::reports_list_what_is_announced;

/// Each number below its group's counter is exactly one of listed, a gap, in a hole and in a tail. No number at its
/// group's counter or above, and no announced one, is in a tail.
pub fn every_number_is_told()
    ensures { EveryNumberIsTold }
{
    kept::every_number_is_told();
    pinned_reports_are_of_logs();
}

/// Each value below its session's counter is the GBC of a signature block that is kept and verified, or in a run of
/// missing ones. None is both.
pub fn every_block_is_told()
    ensures { EveryBlockIsTold }
{
    kept::every_block_is_told();
    pinned_reports_are_of_logs();
}

/// Two schemes that answer alike all that is asked about a log under given payloads give it one report. So whoever
/// answers these questions has answered all that the report rests on.
pub fn agreeing_schemes_give_one_pinned_report()
    ensures { AgreeingSchemesGiveOnePinnedReport }
{
    logs_are_within();
}

/// The listed messages are those that the kept blocks assign to announced numbers, and those that are due. Each is
/// witnessed by a kept block. No number and no message is listed twice, the report rises, and the gaps are the numbers
/// that are announced and unmatched. The log that stands for this one has a report of which the same holds.
pub fn pinned_reports_list_what_is_announced()
    ensures { PinnedReportsListWhatIsAnnounced }
{
    reports_list_what_is_announced();
    pinned_reports_are_of_logs();
    pinned_reports_are_in_order();
    blocks_are_in_range();
}
