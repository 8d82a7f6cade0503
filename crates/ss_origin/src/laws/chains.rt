//! The originators of a session that follow one another.
ghost use Rattle.ss_origin.specs.BlockLaws.{RunsAreNumbered};
ghost use Rattle.ss_origin.specs.ChainLaws.{NumbersGoOn, CountersStayInRange, ChainsCanBeResumed, BeginsFirst};
ghost use Rattle.ss_origin.specs.CountedLaws.{SentBlocksAreCounted};
ghost use Rattle.ss_origin.specs.NoBlockLaws.{PendingMessagesAreInNoBlock};
ghost use Rattle.ss_origin.specs.OneBlockLaws.{NumbersAreInOneBlock};
ghost use Rattle.ss_origin.specs.SentLaws.{SentBlocksAreNumbered, OthersAreSent};
ghost use Rattle.ss_origin.specs.SignedLaws.{FlushedMessagesAreNotPending, MessagesAreSigned};

use ss_message::laws::faults_are_of_no_message;

/// After the originators of a chain, the next number of a group is one more than how many messages they were given for
/// it.
pub fn numbers_go_on()
    ensures { NumbersGoOn }
{}

/// An originator that begins at counters in their ranges ends at such.
pub fn counters_stay_in_range()
    ensures { CountersStayInRange }
{
    faults_are_of_no_message();
}

/// The counters after a chain are such as `resume` takes.
pub fn chains_can_be_resumed()
    ensures { ChainsCanBeResumed }
{
    faults_are_of_no_message();
}

/// A run that a call closes holds the hashes of the messages that the chain was given for its group, from its block's
/// FMN on.
pub fn runs_are_numbered()
    ensures { RunsAreNumbered }
{}

/// A message that a chain sent, and that is read as a signature block, is of the chain's configuration. It has the
/// hashes of the messages that the chain was given for the block's group, from the block's FMN on.
pub fn sent_blocks_are_numbered()
    ensures { SentBlocksAreNumbered }
{
    faults_are_of_no_message();
}

/// Each message that an originator of a chain was given, and that isn't pending at its end, has a hash in a block that
/// was sent, at its number.
pub fn others_are_sent()
    ensures { OthersAreSent }
{}

/// Each message that an originator of a chain was given, and that isn't pending at its end, is signed: a block that was
/// sent has its hash under its number, in the chain's session and with a valid signature.
pub fn messages_are_signed()
    ensures { MessagesAreSigned }
{
    faults_are_of_no_message();
}

/// A message after which a flush was accepted isn't pending.
pub fn flushed_messages_are_not_pending()
    ensures { FlushedMessagesAreNotPending }
{}

/// The number of a message that is pending at the end of its originator is in no block that the chain sent.
pub fn pending_messages_are_in_no_block()
    ensures { PendingMessagesAreInNoBlock }
{
    faults_are_of_no_message();
}

/// Two signature blocks that a chain sent, and that have a hash for one number of a group or one GBC, are copies of
/// one.
pub fn numbers_are_in_one_block()
    ensures { NumbersAreInOneBlock }
{
    faults_are_of_no_message();
}

/// The signature blocks of a chain, in order and each counted once, have the GBC 0, 1, 2 and so on.
pub fn sent_blocks_are_counted()
    ensures { SentBlocksAreCounted }
{}

/// `begin` is accepted only as the first call of the first originator.
pub fn begins_first()
    ensures { BeginsFirst }
{}
