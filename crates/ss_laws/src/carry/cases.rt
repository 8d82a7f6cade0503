//! Small logs of a few nights, computed.
ghost use Rattle.ss_laws.specs.carry.cases.CounterRows.{CountersAreThese};
ghost use Rattle.ss_laws.specs.carry.cases.KeptTexts.{TextsMeetPremises};
ghost use Rattle.ss_laws.specs.carry.cases.NightBefore.{NightBeforeIsThis};
ghost use Rattle.ss_laws.specs.carry.cases.NightRows.{NightsAreThese};
ghost use Rattle.ss_laws.specs.carry.cases.OwnRows.{OwnNightsAreThese};

use crate::carry::answers::own_logs_are_the_whole;
use crate::carry::counters::{counters_of_carried_nights, enough_of_sessions};
use ss_block::laws::writing::signatures_are_read;
use ss_review::laws::cases::premises_are_met;
use ss_review::laws::deliveries::joined_by_fragments;
use ss_review::laws::reports::{joined_payloads_are_stated, states_are_theirs};

/// Small logs of two nights, and the reports on them, computed: one that meets the premises of the law on the nights
/// together. For each premise there is one that doesn't, where the nights report something else than the whole.
pub fn nights_are_these()
    ensures { NightsAreThese }
{}

/// Small logs of two nights and their counters, computed: one that meets the premises. For each premise there is one that
/// doesn't, where one review gives other counters than the nights.
pub fn counters_are_these()
    ensures { CountersAreThese }
{
    enough_of_sessions();
}

/// Small logs of two nights with schemes of their own, and the reports on them, computed: one that meets the premises. In
/// the other one the answers of the first night lack a block, no scheme agrees with both nights, and one review of all
/// files lists what no night does.
pub fn own_nights_are_these()
    ensures { OwnNightsAreThese }
{}

/// A small log of three nights that meets all premises in the end, but not after the second night, computed. Another one
/// meets them after the first night, and not in the end.
pub fn night_before_is_this()
    ensures { NightBeforeIsThis }
{}

/// A small log of texts, reviewed in two nights, meets the premises of the laws on the logs that a keeper makes.
pub fn texts_meet_premises()
    ensures { TextsMeetPremises }
{
    premises_are_met();
    joined_by_fragments();
    states_are_theirs();
    joined_payloads_are_stated();
    signatures_are_read();
    counters_of_carried_nights();
    own_logs_are_the_whole();
}
