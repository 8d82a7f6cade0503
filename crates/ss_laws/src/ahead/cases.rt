//! Small originators that go on, and logs of what they sent, computed.
ghost use Rattle.ss_laws.specs.ahead.LastCounters.{SmallCountersAreThese};
ghost use Rattle.ss_laws.specs.ahead.cases.LostLog.{LostLogIsThis};
ghost use Rattle.ss_laws.specs.ahead.cases.SmallPending.{SmallChainIsThis};

use crate::ahead::{
    lost_are_reported_by_the_newest_counters, pending_messages_are_in_no_block,
    pending_messages_are_missing, whole_logs_give_the_last_counters,
};
use ss_block::laws::writing::signatures_are_read;
use ss_review::laws::cases::{premises_ahead_are_met, premises_are_met};
use ss_review::laws::kept::every_number_is_told;
use ss_review::laws::reports::{announced_are_told, one_report};

/// A small log from which everything is lost, computed. With the newest counters the number of the last message is in a
/// tail. With those of the originator before, nothing reports it.
pub fn lost_log_is_this()
    ensures { LostLogIsThis }
{
    premises_ahead_are_met();
    announced_are_told();
    one_report();
    every_number_is_told();
    lost_are_reported_by_the_newest_counters();
}

/// A small log that has everything of two originators, and its counters.
pub fn small_counters_are_these()
    ensures { SmallCountersAreThese }
{
    premises_are_met();
    whole_logs_give_the_last_counters();
}

/// A small chain that meets the premises: a message is pending at the end of its first originator, and two GBC are left
/// out.
pub fn small_chain_is_this()
    ensures { SmallChainIsThis }
{
    signatures_are_read();
    premises_ahead_are_met();
    pending_messages_are_in_no_block();
    pending_messages_are_missing();
}
