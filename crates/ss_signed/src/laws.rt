//! Laws on signed octets. Each is the contract of a function that does nothing.
ghost use Rattle.ss_signed.specs.Laws.{WrittenBlocksAreExact, SignedOctetsAreOfTheBlock};

/// What is written without SIGN for a block in its ranges is described as that block, and as exact.
pub fn written_blocks_are_exact()
    ensures { WrittenBlocksAreExact }
{}

/// The signed octets of each message that is read as a block are described with the VER, the session, the group, and
/// the numbers or the fragment that were read. So whoever answers a question reads what the reviewer read.
pub fn signed_octets_are_of_the_block()
    ensures { SignedOctetsAreOfTheBlock }
{}
