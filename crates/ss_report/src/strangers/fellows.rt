//! The sessions of one originator in a report, and how far each of the joined ones reaches at least.
ghost use Rattle.std.specs.Prelude.{◌≡◌, ℕ, List, filter, if◌then◌else◌, map, IfOk};
ghost use Rattle.std.specs.List.{list_all};
ghost use Rattle.std.specs.List.Sorted.{IsStrictlySortedBy};
ghost use Rattle.ss_block.specs.declared.session.Session.{Session};
ghost use Rattle.ss_block.specs.Order.{session_cmp};
ghost use Rattle.ss_review.specs.declared.keep.log_blocks.LogBlock.{LogBlock};
ghost use Rattle.ss_review.specs.declared.report.session_report.SessionReport.{SessionReport};
ghost use Rattle.ss_review.specs.report.Meaning.{IsInOrder};
ghost use Rattle.ss_review.specs.report.Verdict.{is_joined};
ghost use Rattle.ss_report.specs.runs.Carrying.{is_joined_in};
ghost use Rattle.ss_report.specs.strangers.Strangers.{all_have, same_names, has_verified};
ghost use Rattle.ss_report.specs.strangers.Reaches.{HasReaches, KnowsLeast, at_least, is_below, lesser, reach_in};

use crate::strangers::names::compare_names;
use crate::strangers::reach::{Reaches, reach};
use crate::verdict::joined::is_joined;
use ss_block::{Group, Session};
use ss_octets::NoMemory;
use ss_review::{Report, SessionReport};
use std::collections::BTreeMap;

/// For the first session with some names in a report, and a group or none, how far the joined sessions with these names
/// all reach. It is `None` where no session with them is joined.
pub(crate) type Known<'a> = BTreeMap<(&'a Session, Option<Group>), Option<u128>>;

/// Whether the session is joined in this report.
pub(crate) fn is_joined_in(report: &Report, session: &Session) -> bool
    ensures { IsInOrder report.now → result ≡ is_joined_in report.now session.now }
{
    let sessions = report.sessions.as_slice();
    match sessions.binary_search_by(|known| known.session.cmp(session)) {
        Ok(index) => is_joined(sessions[index].state),
        Err(_) => false,
    }
}

/// The sessions of a report with the names of this one, in their order.
pub(crate) fn of_names<'a>(sessions: &'a [SessionReport], session: &Session) -> &'a [SessionReport]
    ensures { IsStrictlySortedBy session_cmp (map (λ t. t.session) sessions.now)
        → result.now ≡ filter (λ t. same_names t.session session.now) sessions.now }
{
    let start = sessions.partition_point(|known| compare_names(&known.session, session).is_lt());
    let (_, rest) = sessions.split_at(start);
    let count = rest.partition_point(|known| compare_names(&known.session, session).is_eq());
    let (named, _) = rest.split_at(count);
    named
}

/// The lesser one of what several reach so far, and of what one more reaches.
fn lesser(least: Option<u128>, reach: u128) -> Option<u128>
    ensures { result ≡ lesser least reach }
{
    match least {
        None => Some(reach),
        Some(least) => Some(least.min(reach)),
    }
}

/// Whether this lies below what all of several reach.
pub(crate) fn is_below(value: u128, least: Option<u128>) -> bool
    ensures { result ≡ is_below value least }
{
    match least {
        None => true,
        Some(least) => value < least,
    }
}

/// How far several reach so far, with one more session, if it is joined.
fn with_fellow<'a>(
    least: Option<u128>,
    reaches: &Reaches<'a>,
    fellow: &'a SessionReport,
    scale: Option<Group>,
) -> Option<u128>
    ensures { result
        ≡ (if is_joined fellow.now.state then lesser least (reach_in reaches.now fellow.now.session scale) else least) }
{
    if is_joined(fellow.state) {
        lesser(least, reach(reaches, &fellow.session, scale))
    } else {
        least
    }
}

/// How far the joined ones of these sessions all reach.
fn least_reach<'a>(
    reaches: &Reaches<'a>,
    named: &'a [SessionReport],
    scale: Option<Group>,
) -> Option<u128>
    ensures { (refused : List ℕ) (bs : List LogBlock)
        → HasReaches reaches.now refused bs
        → (x : ℕ)
        → is_below x result
        ≡ list_all (λ t. has_verified refused bs (at_least scale x) t.session) (filter (λ t. is_joined t.state) named.now) }
{
    let mut least = None;
    for fellow in named {
        least = with_fellow(least, reaches, fellow, scale);
    }
    least
}

/// How far the joined ones of these sessions, which are all with these names, all reach. It is known from then on.
pub(crate) fn known_least<'a>(
    known: &mut Known<'a>,
    reaches: &Reaches<'a>,
    named: &'a [SessionReport],
    scale: Option<Group>,
) -> Result<Option<u128>, NoMemory>
    ensures { (refused : List ℕ) (bs : List LogBlock) (ss : List SessionReport) (s : Session)
        → HasReaches reaches.now refused bs
        → KnowsLeast known.old ss refused bs
        → named.now ≡ filter (λ t. same_names t.session s) ss
        → IfOk result (λ least. KnowsLeast known.new ss refused bs
        × ((x : ℕ) → is_below x least ≡ all_have ss refused bs (at_least scale x) s)) }
{
    let Some(first) = named.first() else {
        return Ok(None);
    };
    match known.get(&(&first.session, scale)).copied() {
        Some(least) => Ok(least),
        None => {
            let least = least_reach(reaches, named, scale);
            known.insert((&first.session, scale), least)?;
            Ok(least)
        }
    }
}
