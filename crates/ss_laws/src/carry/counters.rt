//! Laws on the counters of nights.
ghost use Rattle.ss_laws.specs.carry.NightCounters.{CountersOfCarriedNights, CountersOfNights, CountersSay};
ghost use Rattle.ss_laws.specs.carry.NightCounters.{EnoughOfSessions};

use crate::carry::{files_are_the_whole, nights_of_texts};
use ss_block::laws::readings::blocks_are_in_range;

/// The counters of a log say of each session one more than the greatest GBC of its verified signature blocks, and of each
/// group one more than the greatest number that is announced in it. They say 0 where there is none.
pub fn counters_say()
    ensures { CountersSay }
{}

/// The counters that one review of all files so far gives for a joined session are the greatest of those that the reviews
/// of the nights give, for its signature blocks and for each group. The premise is that each night leaves enough of this
/// session over.
pub fn counters_of_nights()
    ensures { CountersOfNights }
{
    blocks_are_in_range();
}

/// What is enough to leave over (`LeavesEnough`) is enough of each session.
pub fn enough_of_sessions()
    ensures { EnoughOfSessions }
{}

/// The counters of a whole log are, of a joined session, the greatest of those of the logs that a keeper makes of it night
/// by night. The premises are that each place belongs to the file of a night, and that each file stands after those
/// before.
pub fn counters_of_carried_nights()
    ensures { CountersOfCarriedNights }
{
    nights_of_texts();
    files_are_the_whole();
    enough_of_sessions();
    counters_of_nights();
}
