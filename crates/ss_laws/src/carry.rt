//! Laws on a log that is reviewed night by night, where each night leaves enough over for the next one.
//!
//! They are about reviews without given payloads. With `--pinned`, what is carried over goes by the report by given
//! payloads, and no law is about it.
ghost use Rattle.ss_laws.specs.carry.CarriedNights.{CarriedIsEnough, CarriedNightsAreTheWhole, CarriedOfOwnLogs};
ghost use Rattle.ss_laws.specs.carry.CarriedNights.{NightsOfTexts};
ghost use Rattle.ss_laws.specs.carry.NightLaws.{AnnouncedOfNights, FilesAreTheWhole, NightsAreLogs, StatesOfNights};
ghost use Rattle.ss_laws.specs.carry.NightLaws.{VerifiedStays};
ghost use Rattle.ss_laws.specs.carry.Reports.{ListedAreAnnounced, NightsAreTheWhole, SettledAreListed};
ghost use Rattle.ss_laws.specs.carry.Together.{NumbersOfNights, PlacesOfNights, ReportsAreEnough, UnlistedOfNights};

pub mod answers;
pub mod cases;
pub mod counters;
pub mod each_night;

use ss_block::laws::readings::blocks_are_in_range;

/// The report on the log of a night is that of the messages that the night reviews, with the places as those in the
/// whole.
pub fn nights_are_logs()
    ensures { NightsAreLogs }
{}

/// The files so far are the whole log, where no place belongs to a later one.
pub fn files_are_the_whole()
    ensures { FilesAreTheWhole }
{}

/// After each night a session has the state that it has in one review of all files so far.
pub fn states_of_nights()
    ensures { StatesOfNights }
{
    blocks_are_in_range();
}

/// What a night verified is verified in each later night that reviews it, if its session is joined in the end.
pub fn verified_stay()
    ensures { VerifiedStays }
{
    blocks_are_in_range();
}

/// What is announced in one review of all files so far is what some night announced, of sessions that are joined there.
pub fn announced_of_nights()
    ensures { AnnouncedOfNights }
{
    blocks_are_in_range();
}

/// One review of all files so far refuses, calls spoilt and counts what the nights do, put together. The premise is
/// that in the end no session is disputed of which a night left a verified block behind.
pub fn places_of_nights()
    ensures { PlacesOfNights }
{
    blocks_are_in_range();
}

/// One review of all files so far reports the same numbers and unlisted messages as the nights together. It lists a
/// number exactly where the last night lists it or some night settled it, with an equal message. Its gaps are those
/// of the last night that aren't settled, with the same reasons. As many copies of each message are unlisted as in the
/// last night. The premises are that the files follow one another, and those of `AgreeLater`.
pub fn numbers_of_nights()
    ensures { NumbersOfNights }
{
    states_of_nights();
    verified_stay();
    announced_of_nights();
}

/// As many copies of each message are unlisted in one review of all files so far as in the last night, wherever lost
/// numbers stand. So each message is listed for as many numbers as the nights together list it for.
pub fn unlisted_of_nights()
    ensures { UnlistedOfNights }
{
    states_of_nights();
    verified_stay();
    announced_of_nights();
}

/// Reports alone show all premises of `numbers_of_nights` but that on two messages with one hash. For this each joined
/// session has to stay joined, no settled number may be reported again, and no number at all may be lost in the end.
pub fn reports_are_enough()
    ensures { ReportsAreEnough }
{}

/// What a night lists is what its report lists.
pub fn settled_are_listed()
    ensures { SettledAreListed }
{}

/// If one review of all files so far joins a session, it has a hash announced for each number of it that a night lists:
/// a hash of the listed message.
pub fn listed_are_announced()
    ensures { ListedAreAnnounced }
{
    announced_of_nights();
}

/// The report of a whole log is put together from the reports of its nights: sessions and states, listed numbers, gaps,
/// holes, unlisted, refused and spoilt messages, and the count. Only equal messages may be exchanged. The premises are
/// that each place belongs to the file of a night, that the files follow one another, and those of `AgreeLater`.
pub fn nights_are_the_whole()
    ensures { NightsAreTheWhole }
{
    states_of_nights();
    numbers_of_nights();
    places_of_nights();
    files_are_the_whole();
}

/// What is carried over of each night's log is enough to leave over.
pub fn carried_is_enough()
    ensures { CarriedIsEnough }
{}

/// What is carried over of a night's log is what is carried over of a log of its own, at the places in the whole.
pub fn carried_of_own_logs()
    ensures { CarriedOfOwnLogs }
{}

/// A keeper makes the log of a night from what is carried over of the log before, and from the night's file. These logs
/// and their reports are those of nights that leave enough over. The premise is that each file stands after those
/// before.
pub fn nights_of_texts()
    ensures { NightsOfTexts }
{
    carried_is_enough();
    carried_of_own_logs();
    nights_are_logs();
}

/// The report of a whole log is put together from the reports on the logs that a keeper makes night by night. The
/// premises are those of `carry::nights_are_the_whole` but that each night leaves enough over.
pub fn carried_nights_are_the_whole()
    ensures { CarriedNightsAreTheWhole }
{
    nights_of_texts();
    nights_are_the_whole();
}
