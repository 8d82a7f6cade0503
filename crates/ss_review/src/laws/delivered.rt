//! What stands between what originators sent and what a review reports about it.
ghost use Rattle.ss_review.specs.deliveries.Delivered.{
  EntriesAreByRank,
  JoinsOwnPayload,
  KeysHaveBlocks,
  MessagesAreInGroups,
  NumbersHaveBlocks,
  OwnBlocksAreSent,
  RanksAreBelowCounts,
  SentBlocksAreStored,
};

use ss_origin::laws::chains::{begins_first, others_are_sent, sent_blocks_are_numbered};
use ss_origin::laws::groups::spris_are_small;
use ss_payload::laws::cutting::{pieces_are_apart, pieces_lie_within};
use ss_payload::laws::joining::{disputes_stay, pieces_are_whole};
use ss_payload::laws::payloads::{texts_are_read, texts_have_octets};

/// Each stored block of the session is one that the originators sent, and its signature is valid.
pub(crate) fn own_blocks_are_sent()
    ensures { OwnBlocksAreSent }
{}

/// Each block that the originators sent and that is in the log is stored as one of the session.
pub(crate) fn sent_blocks_are_stored()
    ensures { SentBlocksAreStored }
{}

/// The session is joined under the originators' payload where all of it arrived, and else incomplete.
pub(crate) fn joins_own_payload()
    ensures { JoinsOwnPayload }
{
    own_blocks_are_sent();
    sent_blocks_are_stored();
    begins_first();
    pieces_lie_within();
    pieces_are_apart();
    disputes_stay();
    pieces_are_whole();
    texts_are_read();
    texts_have_octets();
}

/// A number has a row exactly where the session is joined and a block with a hash for it is in the log, and then one.
pub(crate) fn keys_have_blocks()
    ensures { KeysHaveBlocks }
{
    own_blocks_are_sent();
    sent_blocks_are_stored();
    joins_own_payload();
    sent_blocks_are_numbered();
}

/// The entry of a number is a listed message exactly where its rank is below the number of places with its message's
/// hashes.
pub(crate) fn entries_are_by_rank()
    ensures { EntriesAreByRank }
{
    keys_have_blocks();
}

/// Each submitted message was given to one group.
pub(crate) fn messages_are_in_groups()
    ensures { MessagesAreInGroups }
{}

/// Fewer smaller numbers have a message with the same hashes than such messages were submitted.
pub(crate) fn ranks_are_below_counts()
    ensures { RanksAreBelowCounts }
{
    keys_have_blocks();
    messages_are_in_groups();
    spris_are_small();
}

/// Where no message is pending at an originator's end and each block arrived, each number that the originators gave a
/// message has a block in the log.
pub(crate) fn numbers_have_blocks()
    ensures { NumbersHaveBlocks }
{
    others_are_sent();
}
