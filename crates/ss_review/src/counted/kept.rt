//! Counters that somebody kept, session by session.
ghost use Rattle.std.specs.Prelude.{◌≡◌, map, IfOk};
ghost use Rattle.std.specs.Ordering.{is_lt};
ghost use Rattle.ss_block.specs.declared.session.Session.{Session};
ghost use Rattle.ss_block.specs.Order.{session_cmp};
ghost use Rattle.ss_review.specs.sessions.Sessions.{same_session};
ghost use Rattle.ss_review.specs.counted.Kept.{counters_of, kept_sessions};
ghost use Rattle.ss_review.specs.counted.KeptSoFar.{led_to, StandBySession};

use crate::counted::counter::Counter;
use crate::lists::ordered::put_in_order;
use ss_block::Session;
use ss_octets::NoMemory;
use std::alloc::Global;

/// References to the counters, in their order.
fn references<'a>(alloc: Global, counters: &'a [Counter]) -> Result<Vec<&'a Counter>, NoMemory>
    ensures { IfOk result (λ v. led_to v.items ≡ counters.now) }
{
    let mut references = Vec::with_capacity(alloc, counters.len())?;
    for counter in counters {
        references.push(counter)?;
    }
    Ok(references)
}

/// The counters in the order of their sessions. Those of one session stay in theirs.
pub(crate) fn by_session<'a>(
    alloc: Global,
    counters: &'a [Counter],
) -> Result<Vec<&'a Counter>, NoMemory>
    ensures stand { IfOk result (λ v. StandBySession v.items) }
    ensures same { IfOk result (λ v. (s : Session) → counters_of (led_to v.items) s ≡ counters_of counters.now s) }
{
    let mut sorted = references(alloc, counters)?;
    sorted.sort_by(|a, b| a.session.cmp(&b.session))?;
    Ok(sorted)
}

/// Whether the counter's session stands before this one.
fn is_before(counter: &Counter, session: &Session) -> bool
    ensures { result ≡ is_lt (session_cmp counter.now.session session.now) }
{
    counter.session.cmp(session).is_lt()
}

/// Whether the counter is of this session.
fn is_of(counter: &Counter, session: &Session) -> bool
    ensures { result ≡ same_session counter.now.session session.now }
{
    counter.session == *session
}

/// The counters of a session, among all in the order of their sessions.
pub(crate) fn of_session<'a, 'b>(sorted: &'a [&'b Counter], session: &Session) -> &'a [&'b Counter]
    ensures { StandBySession sorted.now → led_to result.now ≡ counters_of (led_to sorted.now) session.now }
{
    let start = sorted.partition_point(|counter| is_before(counter, session));
    let (_, rest) = sorted.split_at(start);
    let count = rest.partition_point(|counter| is_of(counter, session));
    let (own, _) = rest.split_at(count);
    own
}

/// The sessions of the counters.
fn sessions_of<'a>(alloc: Global, counters: &'a [Counter]) -> Result<Vec<&'a Session>, NoMemory>
    ensures { IfOk result (λ v. map (λ s. s.now) v.items ≡ map (λ c. c.session) counters.now) }
{
    let mut sessions = Vec::with_capacity(alloc, counters.len())?;
    for counter in counters {
        sessions.push(&counter.session)?;
    }
    Ok(sessions)
}

/// The sessions that have a counter, each once and in their order.
pub(crate) fn kept_sessions<'a>(
    alloc: Global,
    counters: &'a [Counter],
) -> Result<Vec<&'a Session>, NoMemory>
    ensures { IfOk result (λ v. map (λ s. s.now) v.items ≡ kept_sessions counters.now) }
{
    let mut sessions = sessions_of(alloc, counters)?;
    put_in_order(&mut sessions);
    Ok(sessions)
}
