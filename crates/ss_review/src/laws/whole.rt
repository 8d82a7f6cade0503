//! What holds where everything that originators sent is in the log, and nothing else.
ghost use Rattle.ss_review.specs.deliveries.Whole.{
  BlocksAreVerified,
  GroupsHaveNoHole,
  MessagesAreListed,
  MessagesAreStored,
  NothingIsSpoilt,
  NumbersAreAnnounced,
  NumbersAreListed,
  PayloadsArrive,
};

use crate::laws::delivered::{
    entries_are_by_rank, joins_own_payload, keys_have_blocks, messages_are_in_groups,
    numbers_have_blocks, own_blocks_are_sent, ranks_are_below_counts, sent_blocks_are_stored,
};
use crate::laws::deliveries::joined_by_fragments;
use ss_origin::laws::groups::spris_are_small;

/// Each fragment of the payload is in the log.
pub(crate) fn payloads_arrive()
    ensures { PayloadsArrive }
{}

/// Each block is of the originators' session, and verified.
pub(crate) fn blocks_are_verified()
    ensures { BlocksAreVerified }
{
    payloads_arrive();
    own_blocks_are_sent();
    sent_blocks_are_stored();
    joins_own_payload();
}

/// No message is spoilt.
pub(crate) fn nothing_is_spoilt()
    ensures { NothingIsSpoilt }
{}

/// The messages in the log that have no block are those that the originators were given, each as often.
pub(crate) fn messages_are_stored()
    ensures { MessagesAreStored }
{}

/// Each number of a message is announced.
pub(crate) fn numbers_are_announced()
    ensures { NumbersAreAnnounced }
{
    payloads_arrive();
    joined_by_fragments();
    keys_have_blocks();
    numbers_have_blocks();
}

/// No group has a hole.
pub(crate) fn groups_have_no_hole()
    ensures { GroupsHaveNoHole }
{
    blocks_are_verified();
    keys_have_blocks();
    numbers_are_announced();
    spris_are_small();
}

/// Each announced number has a message.
pub(crate) fn numbers_are_listed()
    ensures { NumbersAreListed }
{
    blocks_are_verified();
    messages_are_stored();
    keys_have_blocks();
    entries_are_by_rank();
    ranks_are_below_counts();
}

/// Each message without a block has a number.
pub(crate) fn messages_are_listed()
    ensures { MessagesAreListed }
{
    messages_are_stored();
    numbers_are_announced();
    numbers_are_listed();
    messages_are_in_groups();
    spris_are_small();
}
