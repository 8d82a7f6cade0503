//! The groups of messages.
ghost use Rattle.ss_origin.specs.GroupLaws.{MessagesHaveGroups, SprisAreSmall};

use ss_message::laws::faults_are_of_no_message;

/// A message's group is one of the grouping's.
pub fn messages_have_groups()
    ensures { MessagesHaveGroups }
{
    faults_are_of_no_message();
}

/// The SPRI of a message's group is below 192.
pub fn spris_are_small()
    ensures { SprisAreSmall }
{
    faults_are_of_no_message();
}
