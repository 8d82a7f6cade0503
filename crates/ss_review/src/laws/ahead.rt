//! What holds between the two ends where counters may have been saved ahead of what was sent: each originator of the
//! session goes on from the last counters of the one before, or from greater ones.
ghost use Rattle.ss_review.specs.deliveries.AheadDelivery.{
  AnnouncedAheadByBlocks,
  CasesGoOnAhead,
  JoinedAheadByFragments,
  ListedAheadHaveTheirHash,
  NothingAheadIsDisputed,
  SkippedNumbersAreInHoles,
  SkippedNumbersAreMissing,
};

use crate::laws::kept::every_number_is_told;
use crate::laws::reports::{
    announced_are_told, keys_are_announced, one_report, reports_list_what_is_announced,
};
use ss_origin::laws::ahead::{
    chains_go_on_ahead, numbers_are_given_once, skipped_numbers_are_in_no_block,
};
use ss_origin::laws::chains::begins_first;
use ss_payload::laws::cutting::{pieces_are_apart, pieces_lie_within};
use ss_payload::laws::joining::{disputes_stay, pieces_are_whole};
use ss_payload::laws::payloads::{texts_are_read, texts_have_octets};

/// A case whose originators go on from exactly the last counters is one whose originators go on ahead.
pub fn cases_go_on_ahead()
    ensures { CasesGoOnAhead }
{
    chains_go_on_ahead();
}

/// No message that was sent is spoilt, and no number of the session is a gap for a dispute.
pub fn nothing_is_disputed()
    ensures { NothingAheadIsDisputed }
{
    one_report();
    announced_by_blocks();
}

/// The session is joined exactly where `begin` was accepted and each fragment of the payload has a copy in the log.
pub fn joined_by_fragments()
    ensures { JoinedAheadByFragments }
{
    begins_first();
    pieces_lie_within();
    pieces_are_apart();
    disputes_stay();
    pieces_are_whole();
    texts_are_read();
    texts_have_octets();
    one_report();
}

/// A number is listed or a gap exactly where the session is joined and a block with a hash for it is in the log. It is
/// then announced with the hash of the message that was given this number, and with no other.
pub fn announced_by_blocks()
    ensures { AnnouncedAheadByBlocks }
{
    begins_first();
    numbers_are_given_once();
    pieces_lie_within();
    pieces_are_apart();
    disputes_stay();
    pieces_are_whole();
    texts_are_read();
    texts_have_octets();
    announced_are_told();
}

/// The stored message that is listed under a number has the hash of the message that was given this number.
pub fn listed_have_their_hash()
    ensures { ListedAheadHaveTheirHash }
{
    announced_by_blocks();
    reports_list_what_is_announced();
}

/// A number that is left out between the last counters of an originator and the first ones of the next is neither
/// listed nor a gap. It is in a hole where a greater number of its group is listed or a gap.
pub fn skipped_numbers_are_in_holes()
    ensures { SkippedNumbersAreInHoles }
{
    skipped_numbers_are_in_no_block();
    announced_are_told();
    keys_are_announced();
    one_report();
}

/// Below kept counters of its group, a number that is left out is in a hole or in a tail.
pub fn skipped_numbers_are_missing()
    ensures { SkippedNumbersAreMissing }
{
    skipped_numbers_are_in_holes();
    every_number_is_told();
}
