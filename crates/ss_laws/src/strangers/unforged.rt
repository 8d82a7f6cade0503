//! What a review by given payloads reports of the session of originators, whatever strangers put into the log. The
//! premise is that nobody forged a block: each signature block that is valid under their payload says what one says
//! that they sent.
ghost use Rattle.ss_laws.specs.strangers.NewestCounters.{LostAreReportedByTheNewestCounters};
ghost use Rattle.ss_laws.specs.strangers.UnforgedLaws.{AnnouncedAreGiven, ArrivedAreAnnounced, ArrivedPayloadsClaim};
ghost use Rattle.ss_laws.specs.strangers.UnforgedLaws.{ListedHaveTheirHash, LostAreReported, NothingIsDisputed};
ghost use Rattle.ss_laws.specs.strangers.UnforgedLaws.{OnlyClaimantsJoin};

use crate::strangers::states::{logs_are_within, sessions_are_joined_by_given};
use ss_block::laws::readings::readings_are_of_values;
use ss_message::laws::faults_are_of_no_message;
use ss_origin::laws::ahead::{counters_go_past, numbers_are_given_once};
use ss_review::laws::ahead::joined_by_fragments;
use ss_review::laws::kept::every_number_is_told;
use ss_review::laws::reports::one_report;

/// If the originators' payload claims the session, and no other given one does, it is joined under no other.
pub fn only_claimants_join()
    ensures { OnlyClaimantsJoin }
{
    logs_are_within();
    sessions_are_joined_by_given();
}

/// The originators' payload claims the session if it is given and trusted, each fragment of it arrived, and what they
/// sent and the log has is accepted.
pub fn arrived_payloads_claim()
    ensures { ArrivedPayloadsClaim }
{
    joined_by_fragments();
    one_report();
    logs_are_within();
}

/// A number is listed or a gap if the originators' payload is the only one that claims the session, what they sent and
/// the log has is accepted, and a block among this covers the number.
pub fn arrived_are_announced()
    ensures { ArrivedAreAnnounced }
{
    logs_are_within();
    sessions_are_joined_by_given();
}

/// A number that is listed or a gap is one that the originators gave a message. It is announced with the hash of this
/// message, and with no other.
pub fn announced_are_given()
    ensures { AnnouncedAreGiven }
{
    numbers_are_given_once();
}

/// No number of the session is a gap for a dispute.
pub fn nothing_is_disputed()
    ensures { NothingIsDisputed }
{
    numbers_are_given_once();
}

/// What is listed under a number of the session has the hash of the message that got this number.
pub fn listed_have_their_hash()
    ensures { ListedHaveTheirHash }
{
    numbers_are_given_once();
}

/// If counters go past the number that a lost message got, it is a gap that is lost, in a hole or in a tail. A message is
/// lost where the log has no message without a block that has its hash.
pub fn lost_are_reported()
    ensures { LostAreReported }
{
    numbers_are_given_once();
    every_number_is_told();
    readings_are_of_values();
}

/// The counters with which the newest originator ended go past each number that one of them gave, and so do greater
/// ones. So a review with them reports each message that they were given and that is lost.
pub fn lost_are_reported_by_the_newest_counters()
    ensures { LostAreReportedByTheNewestCounters }
{
    faults_are_of_no_message();
    counters_go_past();
    lost_are_reported();
}
