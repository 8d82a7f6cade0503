//! What holds for every text: each law is a call that does nothing, and its clause is the law.
ghost use Rattle.ss_block.specs.Mark.{BlocksAreMarked};
ghost use Rattle.ss_block.specs.ReadingLaws.{ReadingsAreOfValues, UnparsedTextsFail, BlocksAreInRange, BlocksAreSigned};
ghost use Rattle.ss_block.specs.Stands.{ValuesStand};

use ss_message::laws::{faults_are_of_no_message, faults_are_rows, one_text};

/// A text that is a message's is read as the one value says whose text it is. A text that is read as no message is the
/// text of no value.
pub fn readings_are_of_values()
    ensures { ReadingsAreOfValues }
{
    faults_are_of_no_message();
    one_text();
}

/// A text is read as no message exactly where it fails by a row of the table of faults, with that row's part and
/// position.
pub fn unparsed_texts_fail()
    ensures { UnparsedTextsFail }
{
    faults_are_rows();
}

/// A block that is read of a text is in the ranges that `SigBlock::new` and `CertBlock::new` ask for.
pub fn blocks_are_in_range()
    ensures { BlocksAreInRange }
{
    faults_are_of_no_message();
}

/// A text has signed octets and a session exactly where it is that of a block.
pub fn blocks_are_signed()
    ensures { BlocksAreSigned }
{}

/// The text of each message that has the element of a block, spoilt or not, holds `[ssign`.
pub fn blocks_are_marked()
    ensures { BlocksAreMarked }
{
    faults_are_of_no_message();
}

/// The value of a parameter stands for one text, which is the one that is read.
pub fn values_stand()
    ensures { ValuesStand }
{}
