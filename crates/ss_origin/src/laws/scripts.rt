//! Small scripts of calls.
ghost use Rattle.ss_origin.specs.RangeRows.{AreTheRanges};
ghost use Rattle.ss_origin.specs.Rows.{RowsAreThese, RefusalsAreThese};

/// What comes of small scripts of calls, computed.
pub fn rows_are_these()
    ensures { RowsAreThese }
{}

/// What is refused before `begin`, after it, and where numbers or the counter are spent, computed.
pub fn refusals_are_these()
    ensures { RefusalsAreThese }
{}

/// The groups of some PRI, and which configurations and counters are in range, computed.
pub fn ranges_are_these()
    ensures { AreTheRanges }
{}
