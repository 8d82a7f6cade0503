//! What is missing of the sessions of a log up to counters that somebody kept.
ghost use Rattle.std.specs.Prelude.{◌≡◌, ◌≤◌, [], map, IfOk};
ghost use Rattle.std.specs.List.{list_any, zip};
ghost use Rattle.std.specs.List.Sorted.{IsStrictlySortedBy};
ghost use Rattle.std.specs.Ordering.{nat_cmp};
ghost use Rattle.ss_block.specs.Order.{session_cmp};
ghost use Rattle.ss_block.specs.Ranges.{past_last_number};
ghost use Rattle.ss_review.specs.counted.Counted.{next_after};
ghost use Rattle.ss_review.specs.sessions.Sessions.{same_session};
ghost use Rattle.ss_review.specs.counted.Kept.{shortfall_in, shortfall, shortfall_beside, absent_among, log_shortfalls};
ghost use Rattle.ss_review.specs.counted.Kept.{AreGroups, AreReviewed};
ghost use Rattle.ss_review.specs.counted.KeptSoFar.{led_to, StandBySession};

use crate::counted::counted_session::CountedSession;
use crate::counted::counter::Counter;
use crate::counted::group_tails::{kept_gbc, tails};
use crate::counted::kept::{by_session, kept_sessions, of_session};
use crate::counted::missing::{missing_runs, next_gbc};
use crate::counted::shortfall::{LogShortfalls, Shortfall, Shortfalls};
use crate::report::group_report::GroupReport;
use crate::report::session_report::SessionReport;
use ss_block::Session;
use ss_octets::NoMemory;
use std::alloc::Global;

/// What is missing of a session up to its own counters.
fn shortfall(
    alloc: Global,
    own: &[&Counter],
    session: &Session,
    groups: &[GroupReport],
    gbcs: &[u64],
) -> Result<Shortfall, NoMemory>
    ensures { AreGroups groups.now
        → IsStrictlySortedBy nat_cmp gbcs.now
        → next_after gbcs.now ≤ past_last_number
        → IfOk result (λ s. s ≡ shortfall_in (led_to own.now) session.now groups.now gbcs.now) }
{
    let end = next_gbc(gbcs).max(kept_gbc(own));
    Ok(Shortfall {
        session: session.try_clone(alloc)?,
        tails: tails(alloc, own, groups)?,
        blocks: missing_runs(alloc, gbcs, end)?,
    })
}

/// What is missing of the sessions of a report, beside which their GBC stand. The counters stand by session.
fn known_shortfalls(
    alloc: Global,
    sorted: &[&Counter],
    sessions: &[SessionReport],
    counted: &[CountedSession],
) -> Result<Shortfalls, NoMemory>
    ensures { StandBySession sorted.now
        → AreReviewed sessions.now counted.now
        → IfOk result (λ v. v ≡ map (shortfall_beside (led_to sorted.now)) (zip sessions.now counted.now)) }
{
    let mut known = Vec::with_capacity(alloc, sessions.len())?;
    for (session, own_gbcs) in sessions.iter().zip(counted) {
        let own = of_session(sorted, &session.session);
        known.push(shortfall(
            alloc,
            own,
            &session.session,
            session.groups.as_slice(),
            own_gbcs.gbcs.as_slice(),
        )?)?;
    }
    Ok(Shortfalls::from_vec(known))
}

/// Whether the session has a report, among reports in the order of their sessions.
fn is_known(sessions: &[SessionReport], session: &Session) -> bool
    ensures { IsStrictlySortedBy session_cmp (map (λ s. s.session) sessions.now)
        → result ≡ list_any (same_session session.now) (map (λ s. s.session) sessions.now) }
{
    match sessions.binary_search_by(|known| known.session.cmp(session)) {
        Ok(_) => true,
        Err(_) => false,
    }
}

/// What is missing of those of the sessions that have no report. The counters and the reports stand by session.
fn absent_shortfalls(
    alloc: Global,
    sorted: &[&Counter],
    kept: &[&Session],
    sessions: &[SessionReport],
) -> Result<Shortfalls, NoMemory>
    ensures { StandBySession sorted.now
        → IsStrictlySortedBy session_cmp (map (λ s. s.session) sessions.now)
        → IfOk result (λ v. v ≡ map (λ s. shortfall (led_to sorted.now) s [] [])
        (absent_among (map (λ s. s.now) kept.now) (map (λ s. s.session) sessions.now))) }
{
    let mut absent = Vec::new(alloc);
    for session in kept {
        if !is_known(sessions, session) {
            let own = of_session(sorted, session);
            absent.push(shortfall(alloc, own, session, &[], &[])?)?;
        }
    }
    Ok(Shortfalls::from_vec(absent))
}

/// What is missing of each session up to the counters that were kept of it. `sessions` is what a review reports about a
/// log, and `counted` has the GBC of the verified signature blocks of each of these sessions. The counters come in any
/// order; of several that count the same, the greatest is right. If a session has a counter and no block, it is in
/// `absent`.
///
/// It takes time in proportion to n log n, for n counters, sessions, groups, entries and GBC. `NoMemory` where memory
/// runs out.
pub fn log_shortfalls(
    alloc: Global,
    counters: &[Counter],
    sessions: &[SessionReport],
    counted: &[CountedSession],
) -> Result<LogShortfalls, NoMemory>
    ensures { AreReviewed sessions.now counted.now
        → IfOk result (λ r. r ≡ log_shortfalls counters.now sessions.now counted.now) }
{
    let sorted = by_session(alloc, counters)?;
    let kept = kept_sessions(alloc, counters)?;
    Ok(LogShortfalls {
        known: known_shortfalls(alloc, sorted.as_slice(), sessions, counted)?,
        absent: absent_shortfalls(alloc, sorted.as_slice(), kept.as_slice(), sessions)?,
    })
}
