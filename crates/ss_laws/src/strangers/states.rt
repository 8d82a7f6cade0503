//! Which state a session has if payloads are given, and what else they change.
ghost use Rattle.ss_laws.specs.strangers.StateLaws.{LogsAreWithin, OnlyDisputesEnd, ReportsAgree};
ghost use Rattle.ss_laws.specs.strangers.StateLaws.{SessionsAreJoinedByGiven, StatesAgree};

use ss_block::laws::readings::blocks_are_in_range;

/// The fragments of a log's blocks lie within their payloads, and their indexes count from 1.
pub fn logs_are_within()
    ensures { LogsAreWithin }
{
    blocks_are_in_range();
}

/// A session is joined under a given payload if that one claims it, and no other given one does. It is disputed if two
/// do. If none does, it has the state and the payload that it has without given payloads.
pub fn sessions_are_joined_by_given()
    ensures { SessionsAreJoinedByGiven }
{}

/// If no two certificate blocks of a session contradict each other, it has one state, whether payloads are given or not.
pub fn states_agree()
    ensures { StatesAgree }
{}

/// If given payloads change the state of a session, it is disputed without them.
pub fn only_disputes_end()
    ensures { OnlyDisputesEnd }
{}

/// If no session is both disputed and claimed, a log has one report, whether payloads are given or not.
pub fn reports_agree()
    ensures { ReportsAgree }
{}
