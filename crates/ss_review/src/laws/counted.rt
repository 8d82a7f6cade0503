//! What holds of the signature blocks that logs have, and of those that are missing (RFC 5848, section 4.2.4).
ghost use Rattle.ss_review.specs.counted.CountedLaws.{
  CountedAreInRange,
  CountedAreVerified,
  CountedOrMissing,
  NextGbcFollows,
  NextNumbersAreInRange,
  NextNumbersFollow,
};

use crate::laws::reports::{announced_are_told, reports_are_in_order};
use ss_block::laws::readings::blocks_are_in_range;

/// The GBC values of a session are those that its verified signature blocks state, each once and rising.
pub fn counted_are_verified()
    ensures { CountedAreVerified }
{}

/// Each value below a bound is the GBC of a verified signature block of the session, or in one run of missing ones, and
/// never both. No run reaches the bound, the runs rise, and no two of them touch.
pub fn counted_or_missing()
    ensures { CountedOrMissing }
{}

/// The next GBC of a session is one more than the greatest that a verified signature block states, or 0 where there is
/// none.
pub fn next_gbc_follows()
    ensures { NextGbcFollows }
{}

/// The next number of a group of a report is one more than the greatest that is announced in it.
pub fn next_numbers_follow()
    ensures { NextNumbersFollow }
{
    announced_are_told();
    reports_are_in_order();
}

/// The GBC values of each session rise, and each is at most 9,999,999,999. So its next GBC is at most 10,000,000,000.
pub fn counted_are_in_range()
    ensures { CountedAreInRange }
{
    blocks_are_in_range();
}

/// The next number of each group of a report is at most 10,000,000,000.
pub fn next_numbers_are_in_range()
    ensures { NextNumbersAreInRange }
{
    blocks_are_in_range();
    next_numbers_follow();
}
