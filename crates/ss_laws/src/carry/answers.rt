//! Laws on nights of which each has an answers file of its own.
ghost use Rattle.ss_laws.specs.carry.OwnAnswers.{CountersByOwnAnswers, NightsByOwnAnswers, OwnLogsAreAlike};
ghost use Rattle.ss_laws.specs.carry.OwnAnswers.{OwnLogsAreTheWhole, OwnNightsAreTheWhole};

use crate::carry::counters::counters_of_carried_nights;
use crate::carry::{nights_are_the_whole, nights_of_texts};

/// A night has the report, the counters and the joined sessions by its own scheme that it has by another one, which
/// answers alike all that the review of the night asks. What is enough to leave over, and what is settled, is the same.
pub fn nights_by_own_answers()
    ensures { NightsByOwnAnswers }
{}

/// The report of a whole log by one scheme is put together from the reports of its nights, each by a scheme of its own.
/// The premises are that each of these answers as the one scheme does what the review of its night asks, that each night
/// leaves enough over, and those of `carry::nights_are_the_whole`.
pub fn own_nights_are_the_whole()
    ensures { OwnNightsAreTheWhole }
{
    nights_by_own_answers();
    nights_are_the_whole();
}

/// The logs that a keeper makes with an answers file for each night, their reports and their counters are those by one
/// scheme, which answers alike all that the reviews of these logs ask.
pub fn own_logs_are_alike()
    ensures { OwnLogsAreAlike }
{}

/// The report of a whole log by one scheme is put together from the reports on the logs that a keeper makes with an
/// answers file for each night.
pub fn own_logs_are_the_whole()
    ensures { OwnLogsAreTheWhole }
{
    nights_of_texts();
    own_logs_are_alike();
    nights_by_own_answers();
    own_nights_are_the_whole();
}

/// The counters of a whole log by one scheme are, of a joined session, the greatest of those of the logs that a keeper
/// makes with an answers file for each night.
pub fn counters_by_own_answers()
    ensures { CountersByOwnAnswers }
{
    own_logs_are_alike();
    counters_of_carried_nights();
}
