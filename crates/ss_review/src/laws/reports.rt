//! What holds of the reports of all logs, and of some.
ghost use Rattle.ss_review.specs.Laws.{
  AgreeingSchemesGiveOneReport,
  AnnouncedAreTold,
  AssignedWhereDue,
  EveryPlaceIsTold,
  GapsAreUnassigned,
  JoinedPayloadsAreStated,
  KeysAreAnnounced,
  ListedAreAssigned,
  ListedAreWitnessed,
  NotesSuffice,
  OneReport,
  PlacesHaveOneKey,
  ReportsListWhatIsAnnounced,
  ReportsAreInOrder,
  SpoiltEndsAddThemselves,
  StatesAreTheirs,
};
ghost use Rattle.ss_review.specs.report.Rows.{ReportsAreThese};

use ss_block::laws::readings::{blocks_are_in_range, blocks_are_signed};

/// Two logs with equal notes have equal reports.
pub fn notes_suffice()
    ensures { NotesSuffice }
{}

/// Two schemes that answer alike all that is asked about a log give it one report. So whoever answers these questions
/// has answered all that the report rests on.
pub fn agreeing_schemes_give_one_report()
    ensures { AgreeingSchemesGiveOneReport }
{}

/// A spoilt block at the end of a log adds itself and one to the count, and changes nothing else.
pub fn spoilt_ends_add_themselves()
    ensures { SpoiltEndsAddThemselves }
{}

/// The state of a session is the one that its certificate blocks state together, and no other.
pub fn states_are_theirs()
    ensures { StatesAreTheirs }
{}

/// A session is joined under exactly the text that its certificate blocks state together. It is a payload block, it is
/// trusted, and the certificate blocks that are valid under it cover it.
pub fn joined_payloads_are_stated()
    ensures { JoinedPayloadsAreStated }
{}

/// A place is assigned to one key at most.
pub fn places_have_one_key()
    ensures { PlacesHaveOneKey }
{}

/// What is listed is what is assigned.
pub fn listed_are_assigned()
    ensures { ListedAreAssigned }
{}

/// The gaps are the announced keys that are assigned no place.
pub fn gaps_are_unassigned()
    ensures { GapsAreUnassigned }
{}

/// The keys of a log are the numbers for which a verified block has a hash, and the disputed ones those with two.
pub fn keys_are_announced()
    ensures { KeysAreAnnounced }
{}

/// Each announced number is listed or a gap, and no other number is.
pub fn announced_are_told()
    ensures { AnnouncedAreTold }
{
    listed_are_assigned();
    gaps_are_unassigned();
}

/// A report is in rising order: its sessions, the groups of each, the entries of each group, and its places.
pub fn reports_are_in_order()
    ensures { ReportsAreInOrder }
{}

/// For each listed message the log has a block that announces its hash, and that the scheme says yes to.
pub fn listed_are_witnessed()
    ensures { ListedAreWitnessed }
{
    blocks_are_in_range();
}

/// The listed messages are those assigned to announced numbers, and those that are due. Each is witnessed, no number
/// and no message is listed twice, the report rises, and the gaps are the numbers that are announced and unmatched.
pub fn reports_list_what_is_announced()
    ensures { ReportsListWhatIsAnnounced }
{
    listed_are_assigned();
    assigned_where_due();
    listed_are_witnessed();
    places_have_one_key();
    reports_are_in_order();
    gaps_are_unassigned();
}

/// Each place of a log is exactly one of listed, unlisted, a verified block, refused and spoilt, and no other place is
/// any.
pub fn every_place_is_told()
    ensures { EveryPlaceIsTold }
{
    blocks_are_signed();
}

/// A key is assigned a place exactly where it isn't disputed, the message there has the hashes of the first message
/// with the announced hash, and as many smaller keys want these hashes as messages with them stand before the place.
pub fn assigned_where_due()
    ensures { AssignedWhereDue }
{}

/// Every log has a report that says what there is, each once and in order, and nothing else; and it has no other.
pub fn one_report()
    ensures { OneReport }
{}

/// The reports of small logs, computed.
pub fn reports_are_these()
    ensures { ReportsAreThese }
{}
