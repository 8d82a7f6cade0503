//! Laws on what holds as of each night, whatever comes later.
ghost use Rattle.ss_laws.specs.carry.EachNight.{AgreeBefore, CarriedNightsSoFar, EachNightSoFar};
ghost use Rattle.ss_laws.specs.carry.EachNight.{EarlierNightsAreTheWhole, FilesSoFarAreLogs, FirstNightAgrees};
ghost use Rattle.ss_laws.specs.carry.EachNight.{LaterFilesChangeNoNight, NightsSoFar};

use crate::carry::{
    carried_nights_are_the_whole, nights_of_texts, numbers_of_nights, places_of_nights,
    states_of_nights,
};
use ss_block::laws::readings::blocks_are_in_range;

/// After each night the reports of the nights up to it, put together, are the report of one review of the files up to
/// that night's. The premises are that each night before leaves enough over, that the files follow one another, and
/// those of `AgreeLater` as of that night.
pub fn nights_so_far()
    ensures { NightsSoFar }
{
    states_of_nights();
    numbers_of_nights();
    places_of_nights();
}

/// The report of the files up to a night's is that of a log of its own, with the places in the whole.
pub fn files_so_far_are_logs()
    ensures { FilesSoFarAreLogs }
{}

/// The same as `nights_so_far` of the logs that a keeper makes, which leave enough over.
pub fn carried_nights_so_far()
    ensures { CarriedNightsSoFar }
{
    nights_of_texts();
    nights_so_far();
    files_so_far_are_logs();
}

/// The logs that a keeper made up to a night don't depend on files that come later.
pub fn later_files_change_no_night()
    ensures { LaterFilesChangeNoNight }
{}

/// The nights up to an earlier one say together what one review of the log up to then says, whatever files come later. The
/// premises are those of `carry::carried_nights_are_the_whole`, of that log alone.
pub fn earlier_nights_are_the_whole()
    ensures { EarlierNightsAreTheWhole }
{
    later_files_change_no_night();
    carried_nights_are_the_whole();
}

/// Four of the five premises of `AgreeLater` hold of each night before, if they hold in the end. The fifth, on lost
/// numbers, needn't.
pub fn agree_before()
    ensures { AgreeBefore }
{
    blocks_are_in_range();
}

/// If the four premises of `agree_before` hold in the end, `nights_so_far` holds of each night of which the fifth one, on
/// lost numbers, holds.
pub fn each_night_so_far()
    ensures { EachNightSoFar }
{
    agree_before();
    nights_so_far();
}

/// All five premises hold after the first night.
pub fn first_night_agrees()
    ensures { FirstNightAgrees }
{}
