//! Laws on originators of one session that go on ahead: each goes on from the last counters of the one before, or from
//! greater ones. Of a chain each goes on from exactly the last counters.
//!
//! What a log of theirs has and a review reports is stated whether their payload is trusted or not, and whatever is
//! accepted. Neither proved nor tested is that an originator saves its counters before it sends, that one at a time is
//! at work, and that a log is whole. No log shows by itself that its end is there.
ghost use Rattle.ss_laws.specs.ahead.LastCounters.{WholeLogsGiveTheLastCounters};
ghost use Rattle.ss_laws.specs.ahead.PendingAhead.{OnlyPendingAheadAreInNoBlock, PendingAheadAreInNoBlock};
ghost use Rattle.ss_laws.specs.ahead.PendingAhead.{PendingAheadAreMissing};
ghost use Rattle.ss_laws.specs.ahead.Places.{NumbersOfChainsArePlaces};
ghost use Rattle.ss_laws.specs.ahead.Reported.{ListedHaveTheirHash, LostAreReported, LostAreReportedByTheNewestCounters};
ghost use Rattle.ss_laws.specs.ahead.Reported.{NothingIsDisputed};
ghost use Rattle.ss_laws.specs.ahead.Restarts.{RestartsHideNothing};
ghost use Rattle.ss_laws.specs.ahead.RisingGbc.{BlocksAheadAreCounted, GbcRises};
ghost use Rattle.ss_review.specs.deliveries.Whole.{BlocksAreVerified};

pub mod cases;

use ss_message::laws::faults_are_of_no_message;
use ss_origin::laws::ahead::{counters_go_past, messages_are_signed, numbers_are_given_once};
use ss_origin::laws::chains::{
    begins_first, numbers_go_on, others_are_sent, sent_blocks_are_counted,
};
use ss_origin::laws::groups::spris_are_small;
use ss_payload::laws::cutting::{pieces_are_apart, pieces_lie_within};
use ss_payload::laws::joining::{disputes_stay, pieces_are_whole};
use ss_payload::laws::payloads::{texts_are_read, texts_have_octets};
use ss_review::laws::ahead::announced_by_blocks as announced_ahead_by_blocks;
use ss_review::laws::counted::{next_gbc_follows, next_numbers_follow};
use ss_review::laws::deliveries::{announced_by_blocks, joined_by_fragments};
use ss_review::laws::kept::every_number_is_told;
use ss_review::laws::reports::{announced_are_told, keys_are_announced, reports_are_in_order};

/// No number of the session is a gap for a dispute.
pub fn nothing_is_disputed()
    ensures { NothingIsDisputed }
{
    numbers_are_given_once();
}

/// What is listed under a number of the session has the hash of the message that got this number.
pub fn listed_have_their_hash()
    ensures { ListedHaveTheirHash }
{
    numbers_are_given_once();
}

/// The number that a lost message got is a gap that is lost, in a hole or in a tail, up to counters that go past it. A
/// message is lost where the log has no message without a block that has its hash.
pub fn lost_are_reported()
    ensures { LostAreReported }
{
    numbers_are_given_once();
    every_number_is_told();
}

/// The counters with which the newest originator ended go past each number that one of them gave, and so do greater
/// ones. So a review with them reports each message that they were given and that is lost.
pub fn lost_are_reported_by_the_newest_counters()
    ensures { LostAreReportedByTheNewestCounters }
{
    faults_are_of_no_message();
    counters_go_past();
    lost_are_reported();
}

/// However often an originator was stopped, three things hold. No number is given twice, and no number of the session is
/// disputed. A review with the newest counters reports each lost message.
pub fn restarts_hide_nothing()
    ensures { RestartsHideNothing }
{
    numbers_are_given_once();
    nothing_is_disputed();
    lost_are_reported_by_the_newest_counters();
}

/// A message that a chain was given has the number of its place among those of its group, and no other. So the laws on
/// originators that go on ahead speak of chains too.
pub fn numbers_of_chains_are_places()
    ensures { NumbersOfChainsArePlaces }
{
    faults_are_of_no_message();
    numbers_go_on();
}

/// Where everything that was sent is in the log, and nothing else, each block is of the originators' session, and
/// verified.
fn blocks_are_verified()
    ensures { BlocksAreVerified }
{
    begins_first();
    pieces_lie_within();
    pieces_are_apart();
    disputes_stay();
    pieces_are_whole();
    texts_are_read();
    texts_have_octets();
}

/// If everything that the originators sent is in the log, and nothing else, the counters that a review of it gives are
/// those with which the newest originator ended. They are the same counters in the same order.
pub fn whole_logs_give_the_last_counters()
    ensures { WholeLogsGiveTheLastCounters }
{
    blocks_are_verified();
    joined_by_fragments();
    announced_by_blocks();
    announced_are_told();
    keys_are_announced();
    reports_are_in_order();
    next_gbc_follows();
    next_numbers_follow();
    numbers_go_on();
    others_are_sent();
    sent_blocks_are_counted();
    spris_are_small();
}

/// If a message is pending at the end of its originator, its number is in no block that the originators sent.
pub fn pending_messages_are_in_no_block()
    ensures { PendingAheadAreInNoBlock }
{
    faults_are_of_no_message();
}

/// If the number of a message is in no block that the originators sent, the message is pending at the end of its
/// originator.
pub fn only_pending_messages_are_in_no_block()
    ensures { OnlyPendingAheadAreInNoBlock }
{
    messages_are_signed();
}

/// The number of a message that is pending at the end of its originator is neither listed nor a gap. Up to counters
/// that go past it, it is in a hole or in a tail.
pub fn pending_messages_are_missing()
    ensures { PendingAheadAreMissing }
{
    faults_are_of_no_message();
    pending_messages_are_in_no_block();
    announced_ahead_by_blocks();
    every_number_is_told();
}

/// The signature blocks of each originator, in order and each counted once, have the GBC with which it began, and each
/// next one a GBC that is one greater.
pub fn blocks_are_counted()
    ensures { BlocksAheadAreCounted }
{}

/// Of two signature blocks that the originators sent, the later one has the greater GBC, or it is a copy of the earlier
/// one.
pub fn gbc_rises()
    ensures { GbcRises }
{
    blocks_are_counted();
}
