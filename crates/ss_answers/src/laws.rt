//! Laws on all texts of answers, of counters and of places.
ghost use Rattle.ss_answers.specs.Answers.{BadLineIsDetermined, LinesAreDetermined, NoTextIsGoodAndBad};
ghost use Rattle.ss_answers.specs.Answers.{PayloadsAreThoseTrusted};
ghost use Rattle.ss_answers.specs.CounterFile.{BadCounterIsDetermined, CountersAreDetermined, CountersAreWhole};
ghost use Rattle.ss_answers.specs.CounterFile.{CutsAreSeen, NoCountersAreGoodAndBad, PartsHaveTheirCounters};
ghost use Rattle.ss_answers.specs.PlaceFile.{PlacesAreReadBack};

/// A text of answers has no bad line, so that a fault of a line comes only where there are no answers.
pub fn no_text_is_good_and_bad()
    ensures { NoTextIsGoodAndBad }
{}

/// A text has its lines in one way, so that what it says is determined.
pub fn lines_are_determined()
    ensures { LinesAreDetermined }
{}

/// A text has at most one first bad line.
pub fn bad_line_is_determined()
    ensures { BadLineIsDetermined }
{}

/// The payloads of lines are exactly those that some line trusts, and each stands there once.
pub fn payloads_are_those_trusted()
    ensures { PayloadsAreThoseTrusted }
{}

/// A text of counters has no bad line, so that a fault of a line comes only where there are no counters.
pub fn no_counters_are_good_and_bad()
    ensures { NoCountersAreGoodAndBad }
{}

/// A text of counters is whole, so that `NotWhole` comes only where there are no counters.
pub fn counters_are_whole()
    ensures { CountersAreWhole }
{}

/// A text has its counters in one way, so that they are determined.
pub fn counters_are_determined()
    ensures { CountersAreDetermined }
{}

/// A text has at most one first line that is no counter.
pub fn bad_counter_is_determined()
    ensures { BadCounterIsDetermined }
{}

/// Parts whose counters are in range are, one after the other, a text that has these counters and no others. None of its
/// lines is bad, and it is whole. So files of counters can be put together.
pub fn parts_have_their_counters()
    ensures { PartsHaveTheirCounters }
{}

/// If a text of counters is cut off anywhere, its front isn't whole, unless the cut is where a part ends. Then the front
/// has the counters of its own parts.
pub fn cuts_are_seen()
    ensures { CutsAreSeen }
{}

/// At most 10,000,000 places below 10,000,000, written in decimal and each ended by a line feed, are a text that has these
/// places and no others, in this order. No fault comes of it.
pub fn places_are_read_back()
    ensures { PlacesAreReadBack }
{}
