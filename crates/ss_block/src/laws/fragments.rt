//! What holds for the pieces in which a payload is sent.
ghost use Rattle.ss_block.specs.FragmentLaws.{PiecesAreFragments};

/// Each piece of an ASCII text is the fragment of a certificate block, whose other numbers are in their ranges:
/// `CertBlock::new` makes one of it.
pub fn pieces_are_fragments()
    ensures { PiecesAreFragments }
{}
