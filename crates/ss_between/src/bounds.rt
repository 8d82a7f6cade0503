//! Counters at which a night begins or ends, with their look-ups.
ghost use Rattle.std.specs.Prelude.{◌≡◌, ◌+◌, ◌<◌, ◌^◌, false, map, All, Contains, MatchOption};
ghost use Rattle.std.specs.List.{list_any};
ghost use Rattle.std.specs.List.Sorted.{IsStrictlySortedBy};
ghost use Rattle.ss_block.specs.Order.{group_cmp, session_cmp};
ghost use Rattle.ss_review.specs.sessions.Sessions.{same_session};
ghost use Rattle.ss_between.specs.Bounds.{number_past, gbc_past};

use ss_block::{Group, Session};
use ss_octets::NoMemory;
use ss_review::{Counter, GroupTail, MissingRun, Shortfall, Shortfalls, log_shortfalls};
use std::alloc::Global;
use std::marker::Model;

/// Counters at which a night begins or ends. A look-up takes logarithmically many comparisons.
///
/// Contracts see the counters alone, in any order. Of several that count the same, the greatest is right.
#[derive(Debug, Drop)]
pub struct Bounds<'c> {
    counters: &'c [Counter],
    /// For each session that has a counter, all that lies below its counters, in the order of the sessions.
    below: Shortfalls,
}

impl<'c> Model for Bounds<'c> {
    ghost use Rattle.std.specs.Prelude.{List};
    ghost use Rattle.ss_review.specs.declared.counted.counter.Counter.{Counter};
    ghost use Rattle.ss_between.specs.Bounds.{AreBounds};

    ghost Value = { List Counter };

    ghost view = { λ b. b.counters.now };

    ghost invariant = { λ b. AreBounds b.counters.now b.below };
}

impl<'c> Bounds<'c> {
    ghost use Rattle.std.specs.Prelude.{◌≡◌, IfOk};
    ghost use Rattle.ss_between.specs.Between.{number_at, gbc_at, has_counter};

    /// The bounds that these counters say. It takes time in proportion to n log n, for n counters. `NoMemory` where
    /// memory runs out.
    pub fn of(alloc: Global, counters: &'c [Counter]) -> Result<Bounds<'c>, NoMemory>
        ensures { IfOk result (λ b. b ≡ counters.now) }
    {
        all_fit(counters);
        let all = log_shortfalls(alloc, counters, &[], &[])?;
        Ok(Bounds {
            counters,
            below: all.absent,
        })
    }

    /// Whether some counter is of this session.
    pub fn has_session(&self, session: &Session) -> bool
        ensures { result ≡ has_counter self.now session.now }
    {
        below_of(self.below.as_slice(), session).is_some()
    }

    /// The number of the group's next message, 1 to 10,000,000,000. It is 1 where no counter says it.
    pub fn number(&self, session: &Session, group: Group) -> u64
        ensures { result ≡ number_at self.now session.now group }
    {
        match below_of(self.below.as_slice(), session) {
            Some(below) => number_after(below.tails.as_slice(), group),
            None => 1,
        }
    }

    /// The GBC of the session's next signature block, 0 to 10,000,000,000. It is 0 where no counter says it.
    pub fn gbc(&self, session: &Session) -> u64
        ensures { result ≡ gbc_at self.now session.now }
    {
        match below_of(self.below.as_slice(), session) {
            Some(below) => gbc_after(below.blocks.as_slice()),
            None => 0,
        }
    }
}

/// Does nothing: each counter is a number of 64 bits, so what comes after a smaller one is too.
fn all_fit(counters: &[Counter])
    ensures { All (λ c. c.next < 2 ^ 64) counters.now }
{
    for counter in counters {
        let fits = counter.next <= u64::MAX;
        prove!(fits);
    }
}

/// What lies below the counters of a session, among all in the order of their sessions.
fn below_of<'b>(below: &'b [Shortfall], session: &Session) -> Option<&'b Shortfall>
    ensures { IsStrictlySortedBy session_cmp (map (λ f. f.session) below.now)
        → MatchOption result (list_any (same_session session.now) (map (λ f. f.session) below.now) ≡ false)
        (λ f. Contains below.now f.now × (f.now.session ≡ session.now)) }
{
    match below.binary_search_by(|known| known.session.cmp(session)) {
        Ok(index) => Some(&below[index]),
        Err(_) => None,
    }
}

/// The number after those of the group, among all in the order of their groups. It is 1 where there is none.
fn number_after(tails: &[GroupTail], group: Group) -> u64
    requires { All (λ t. t.last + 1 < 2 ^ 64) tails.now }
    ensures { IsStrictlySortedBy group_cmp (map (λ t. t.group) tails.now) → result ≡ number_past tails.now group }
{
    match tails.binary_search_by(|known| known.group.cmp(&group)) {
        Ok(index) => tails[index].last + 1,
        Err(_) => 1,
    }
}

/// The GBC after those of the last run. It is 0 where there is none.
fn gbc_after(runs: &[MissingRun]) -> u64
    requires { All (λ r. r.last + 1 < 2 ^ 64) runs.now }
    ensures { result ≡ gbc_past runs.now }
{
    match runs.last() {
        Some(run) => run.last + 1,
        None => 0,
    }
}
