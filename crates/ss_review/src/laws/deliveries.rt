//! What holds between the two ends: of the review of a log that delivers from originators of one session, whatever was
//! lost, repeated or reordered on the way, and however often the originators were resumed.
ghost use Rattle.ss_review.specs.deliveries.DeliveryLaws.{
  AnnouncedByBlocks,
  JoinedByFragments,
  ListedByRank,
  ListedHaveTheirHash,
  ListedWhereStored,
  NothingIsDisputed,
  WholeDeliveriesAreClean,
};

use crate::laws::delivered::{
    entries_are_by_rank, joins_own_payload, keys_have_blocks, ranks_are_below_counts,
};
use crate::laws::reports::{
    announced_are_told, keys_are_announced, listed_are_assigned, one_report,
    reports_list_what_is_announced,
};
use crate::laws::whole::{
    blocks_are_verified, groups_have_no_hole, messages_are_listed, nothing_is_spoilt,
    numbers_are_listed, payloads_arrive,
};

/// No message that was sent is spoilt, and no number of the session is a gap for a dispute.
pub fn nothing_is_disputed()
    ensures { NothingIsDisputed }
{
    one_report();
    announced_by_blocks();
}

/// The session is joined exactly where `begin` was accepted and each fragment of the payload has a copy in the log.
pub fn joined_by_fragments()
    ensures { JoinedByFragments }
{
    joins_own_payload();
    one_report();
}

/// A number is listed or a gap exactly where the session is joined and a block with a hash for it is in the log. It is
/// then announced with the hash of the message which the originators gave this number, and with no other.
pub fn announced_by_blocks()
    ensures { AnnouncedByBlocks }
{
    keys_have_blocks();
    announced_are_told();
    keys_are_announced();
}

/// An announced number is listed exactly where its rank, among the announced numbers whose messages have the same
/// hashes, is below the number of stored messages with these hashes. For that, equal hashes have to go with equal pairs
/// of hashes, and no session that stands before this one may want these messages.
pub fn listed_by_rank()
    ensures { ListedByRank }
{
    entries_are_by_rank();
    listed_are_assigned();
    announced_are_told();
    keys_are_announced();
}

/// Where no two submitted messages have equal pairs of hashes, an announced number is listed exactly where a message
/// with its message's pair is stored. The premises are those of `listed_by_rank`.
pub fn listed_where_stored()
    ensures { ListedWhereStored }
{
    listed_by_rank();
    ranks_are_below_counts();
    announced_are_told();
    keys_are_announced();
}

/// The stored message that is listed under a number has the hash of the message which the originators gave this number.
pub fn listed_have_their_hash()
    ensures { ListedHaveTheirHash }
{
    announced_by_blocks();
    reports_list_what_is_announced();
}

/// Where `begin` was accepted, nothing stayed pending, and everything that was sent is stored, each message as often as
/// it was submitted, and nothing else, the session is joined and the report is clean. For that, equal hashes have to go
/// with equal pairs of hashes.
pub fn whole_deliveries_are_clean()
    ensures { WholeDeliveriesAreClean }
{
    one_report();
    joined_by_fragments();
    payloads_arrive();
    blocks_are_verified();
    nothing_is_spoilt();
    groups_have_no_hole();
    numbers_are_listed();
    messages_are_listed();
}
