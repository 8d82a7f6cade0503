//! What holds of all that the fragments of a payload can state.
ghost use Rattle.ss_payload.specs.JoiningLaws.{DisputesStay, OctetsAreOfFragments, OnePayload, OneState, OrderIsFree};
ghost use Rattle.ss_payload.specs.JoiningLaws.{PiecesAreWhole, RepeatsAreFree, TotalsAreOfFragments};

/// What is disputed stays so, whatever fragment comes.
pub fn disputes_stay()
    ensures { DisputesStay }
{}

/// Two fragments state the same in either order.
pub fn order_is_free()
    ensures { OrderIsFree }
{}

/// A fragment that comes again states nothing more.
pub fn repeats_are_free()
    ensures { RepeatsAreFree }
{}

/// What is stated has one state.
pub fn one_state()
    ensures { OneState }
{}

/// What is stated has one payload, unless it is disputed.
pub fn one_payload()
    ensures { OnePayload }
{}

/// Fragments state a total exactly if some fragment states it.
pub fn totals_are_of_fragments()
    ensures { TotalsAreOfFragments }
{}

/// Fragments state an octet at an index exactly if some fragment has it there.
pub fn octets_are_of_fragments()
    ensures { OctetsAreOfFragments }
{}

/// The pieces of a text, sent in any order and as often as one likes, are a whole payload, which is the text.
pub fn pieces_are_whole()
    ensures { PiecesAreWhole }
{}
