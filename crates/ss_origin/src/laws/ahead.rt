//! The originators of a session, where counters may have been saved ahead of what was sent.
ghost use Rattle.ss_origin.specs.AheadLaws.{ChainsGoOnAhead, CountersGoPast, MessagesAheadAreSigned};
ghost use Rattle.ss_origin.specs.AheadLaws.{NumbersAreGivenOnce};
ghost use Rattle.ss_origin.specs.AheadLaws.{SkippedNumbersAreInNoBlock};
ghost use Rattle.ss_origin.specs.OneBlockLaws.{NumbersAheadAreInOneBlock};

use ss_message::laws::faults_are_of_no_message;

/// A chain whose originators go on from exactly the last counters is one that goes on ahead.
pub fn chains_go_on_ahead()
    ensures { ChainsGoOnAhead }
{}

/// Two signature blocks that such a chain sent, and that have a hash for one number of a group or one GBC, are copies
/// of one.
pub fn numbers_are_in_one_block()
    ensures { NumbersAheadAreInOneBlock }
{
    faults_are_of_no_message();
}

/// Two messages that got one number of a group in such a chain are one, accepted in one call.
pub fn numbers_are_given_once()
    ensures { NumbersAreGivenOnce }
{
    faults_are_of_no_message();
}

/// The numbers that are left out between the last counters of an originator and the first ones of the next are in no
/// block.
pub fn skipped_numbers_are_in_no_block()
    ensures { SkippedNumbersAreInNoBlock }
{
    faults_are_of_no_message();
}

/// Each message that an originator of such a chain was given, and that isn't pending at its end, is signed under the
/// number that it got.
pub fn messages_are_signed()
    ensures { MessagesAheadAreSigned }
{
    faults_are_of_no_message();
}

/// Each number that an originator of such a chain gave is below the counters with which the newest one ended.
pub fn counters_go_past()
    ensures { CountersGoPast }
{
    faults_are_of_no_message();
}
