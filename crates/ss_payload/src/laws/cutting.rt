//! What holds of the pieces of a text.
ghost use Rattle.ss_payload.specs.CuttingLaws.{PiecesAreApart, PiecesCover, PiecesLieWithin};

/// Each piece lies within the octets that are cut, and has an octet at least and no more than was asked for.
pub fn pieces_lie_within()
    ensures { PiecesLieWithin }
{}

/// Each index has its piece.
pub fn pieces_cover()
    ensures { PiecesCover }
{}

/// No index has two pieces.
pub fn pieces_are_apart()
    ensures { PiecesAreApart }
{}
