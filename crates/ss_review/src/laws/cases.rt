//! Small chains of originators, and logs that deliver from them: the premises of laws are met.
ghost use Rattle.ss_review.specs.deliveries.SmallChains.{PremisesAheadAreMet, PremisesAreMet, WholeIsReported};

use crate::laws::counted::{counted_or_missing, next_gbc_follows};
use crate::laws::delivered::sent_blocks_are_stored;
use crate::laws::deliveries::{listed_where_stored, whole_deliveries_are_clean};
use crate::laws::kept::counters_given_back;
use crate::laws::{ahead, deliveries};
use ss_block::laws::readings::readings_are_of_values;
use ss_block::laws::writing::{certificates_are_read, signatures_are_read};

/// Small chains and logs meet the premises of the laws of deliveries, and those of what is lost.
pub fn premises_are_met()
    ensures { PremisesAreMet }
{
    readings_are_of_values();
    signatures_are_read();
    certificates_are_read();
    sent_blocks_are_stored();
}

/// A small chain that goes on ahead, and a log, meet the premises of the laws of `ahead`. Two numbers of it are left
/// out, and are in a hole.
pub fn premises_ahead_are_met()
    ensures { PremisesAheadAreMet }
{
    readings_are_of_values();
    signatures_are_read();
    certificates_are_read();
    ahead::joined_by_fragments();
    ahead::announced_by_blocks();
    ahead::skipped_numbers_are_in_holes();
}

/// The report of a small log that has everything lists its message and is clean, and nothing is missing up to the log's
/// own counters. So the premises of laws that rest on reports are met.
pub fn whole_is_reported()
    ensures { WholeIsReported }
{
    readings_are_of_values();
    signatures_are_read();
    certificates_are_read();
    premises_are_met();
    deliveries::joined_by_fragments();
    deliveries::announced_by_blocks();
    listed_where_stored();
    whole_deliveries_are_clean();
    counted_or_missing();
    next_gbc_follows();
    counters_given_back();
    ahead::cases_go_on_ahead();
}
