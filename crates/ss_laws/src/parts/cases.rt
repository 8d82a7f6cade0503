//! Small logs that are cut into parts, computed.
ghost use Rattle.ss_laws.specs.parts.PartLaws.{};
ghost use Rattle.ss_laws.specs.parts.WholeParts.{};
ghost use Rattle.ss_laws.specs.parts.cases.CounterRows.{CountersOfPartsAreThese};
ghost use Rattle.ss_laws.specs.parts.cases.MissingRows.{MissingOfPartsIsThis};
ghost use Rattle.ss_laws.specs.parts.cases.PartRows.{PartsAreThese};
ghost use Rattle.ss_laws.specs.parts.cases.TextsInParts.{TextsMeetPremises};

use crate::parts::{counters_add_up, missing_adds_up};
use ss_block::laws::readings::readings_are_of_values;

/// Small logs that are cut in two, and the reports of their parts put together, computed: one cut that keeps the
/// premises, and one or two that break each of them.
pub fn parts_are_these()
    ensures { PartsAreThese }
{}

/// A small log that is cut in two, and its counters, computed: one cut that keeps the premises, and one that doesn't.
pub fn counters_of_parts_are_these()
    ensures { CountersOfPartsAreThese }
{}

/// The same log up to counters that were kept, and what is missing of it, computed: counters that meet the premises, and
/// for some of these premises counters that don't.
pub fn missing_of_parts_is_this()
    ensures { MissingOfPartsIsThis }
{}

/// A small log of texts, which is cut in two, and counters of its session meet the premises of these laws.
pub fn texts_meet_premises()
    ensures { TextsMeetPremises }
{
    readings_are_of_values();
    counters_add_up();
    missing_adds_up();
}
