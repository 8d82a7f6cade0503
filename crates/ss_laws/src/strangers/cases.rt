//! Small logs into which strangers wrote, computed: the premises of laws are met.
ghost use Rattle.ss_laws.specs.strangers.cases.SmallAnswers.{SmallAnswersAreThese};
ghost use Rattle.ss_laws.specs.strangers.cases.SmallAttack.{SmallAttackIsThis};
ghost use Rattle.ss_laws.specs.strangers.cases.SmallForged.{SmallForgedIsThis};
ghost use Rattle.ss_laws.specs.strangers.cases.SmallListing.{SmallListingIsThis};
ghost use Rattle.ss_laws.specs.strangers.cases.SmallUnforged.{SmallUnforgedIsThis};
ghost use Rattle.ss_laws.specs.strangers.cases.SmallUntrusted.{SmallUntrustedIsThis};
ghost use Rattle.ss_laws.specs.strangers.cases.StrangerRows.{StrangersAreThese};

use crate::ahead;
use crate::ahead::cases::lost_log_is_this;
use crate::strangers::reports::{
    agreeing_schemes_give_one_pinned_report, pinned_reports_list_what_is_announced,
};
use crate::strangers::states::{logs_are_within, reports_agree};
use crate::strangers::{added_anywhere, strangers_take_nothing, unforged};
use ss_block::laws::readings::readings_are_of_values;
use ss_block::laws::writing::{certificates_are_read, signatures_are_read};
use ss_review::laws::ahead::cases_go_on_ahead;
use ss_review::laws::cases::{premises_are_met, whole_is_reported};
use ss_review::laws::kept::own_counters_reach_the_end;

/// A small log of one originator meets the premises of the laws of `unforged` and of `ahead`. A stranger's certificate
/// block disputes its session. With the originator's payload it is joined, and its lost message is reported.
pub fn small_attack_is_this()
    ensures { SmallAttackIsThis }
{
    signatures_are_read();
    certificates_are_read();
    premises_are_met();
    cases_go_on_ahead();
    own_counters_reach_the_end();
    unforged::only_claimants_join();
    unforged::arrived_payloads_claim();
    unforged::arrived_are_announced();
    unforged::nothing_is_disputed();
    unforged::listed_have_their_hash();
    ahead::lost_are_reported();
    ahead::numbers_of_chains_are_places();
}

/// A small log has everything that the originator sent, and a stranger's certificate block with another payload. With the
/// originator's payload its message is listed, and a kept block announces it.
pub fn small_listing_is_this()
    ensures { SmallListingIsThis }
{
    signatures_are_read();
    certificates_are_read();
    premises_are_met();
    whole_is_reported();
    cases_go_on_ahead();
    logs_are_within();
    unforged::arrived_payloads_claim();
    reports_agree();
    added_anywhere();
    strangers_take_nothing();
    pinned_reports_list_what_is_announced();
}

/// A small log of two originators meets all premises of the laws of `unforged` at once, and a stranger wrote into it. A
/// message is listed, which a signature block of the originators announces. The last message is lost, and is in a tail
/// up to the counters with which the newest originator ended.
pub fn small_unforged_is_this()
    ensures { SmallUnforgedIsThis }
{
    readings_are_of_values();
    signatures_are_read();
    certificates_are_read();
    premises_are_met();
    lost_log_is_this();
}

/// The same log without the stranger's blocks meets all premises of the laws of `ahead` at once. A message is listed,
/// and the last one is in a tail.
pub fn small_untrusted_is_this()
    ensures { SmallUntrustedIsThis }
{
    readings_are_of_values();
    signatures_are_read();
    certificates_are_read();
    premises_are_met();
    lost_log_is_this();
}

/// Without each premise of `IsUnforged` a message is listed that the originators weren't given under its number. Somebody
/// who has their key announces it, or a stranger who has the key of another payload that is given.
pub fn small_forged_is_this()
    ensures { SmallForgedIsThis }
{
    readings_are_of_values();
    signatures_are_read();
    certificates_are_read();
    premises_are_met();
}

/// Two schemes that differ answer alike all that is asked about the small log into which a stranger wrote. So both give
/// it the report that lists its message.
pub fn small_answers_are_these()
    ensures { SmallAnswersAreThese }
{
    readings_are_of_values();
    signatures_are_read();
    certificates_are_read();
    agreeing_schemes_give_one_pinned_report();
    small_unforged_is_this();
}

/// Small logs into which strangers wrote, computed. One meets the premises of the laws of `states` and of this module.
/// The others show what goes wrong without each premise.
pub fn strangers_are_these()
    ensures { StrangersAreThese }
{}
