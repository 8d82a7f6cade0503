//! Whether a session that the log has no block of sent nothing in a night.
ghost use Rattle.std.specs.Prelude.{◌≡◌, ◌&&◌, filter_map};
ghost use Rattle.ss_review.specs.report.Verdict.{is_none};
ghost use Rattle.ss_between.specs.Between.{gbc_at, is_idle, own_tail_left, run_left, shortfall_left};
ghost use Rattle.ss_report.specs.lines.Between.{is_idle_from};

use ss_between::{Bounds, run_left, tail_left};
use ss_block::Session;
use ss_review::{GroupTail, MissingRun, Shortfall};

/// Whether the session sent nothing in a night that begins at these counters, if it begins at any.
pub(crate) fn is_idle_from(first: &Option<Bounds<'_>>, short: &Shortfall) -> bool
    ensures { result ≡ is_idle_from first.now short.now }
{
    match first {
        Some(first) => is_idle(first, short),
        None => false,
    }
}

/// Whether the session has a first counter, and nothing of what is missing of it is left after the first counters.
fn is_idle(first: &Bounds<'_>, short: &Shortfall) -> bool
    ensures { result ≡ is_idle first.now (shortfall_left first.now short.now) }
{
    first.has_session(&short.session) && has_nothing_left(first, short)
}

/// Whether nothing of what is missing of the session is left after the first counters.
fn has_nothing_left(first: &Bounds<'_>, short: &Shortfall) -> bool
    ensures { result ≡ (is_none (filter_map (own_tail_left first.now short.now.session) short.now.tails)
        && is_none (filter_map (run_left (gbc_at first.now short.now.session)) short.now.blocks)) }
{
    let session = &short.session;
    let gbc = first.gbc(session);
    has_no_tail_left(first, session, short.tails.as_slice())
        && has_no_run_left(gbc, short.blocks.as_slice())
}

/// Whether nothing of the tails of a session is left after the first counters of their groups.
fn has_no_tail_left(first: &Bounds<'_>, session: &Session, tails: &[GroupTail]) -> bool
    ensures { result ≡ is_none (filter_map (own_tail_left first.now session.now) tails.now) }
{
    for tail in tails {
        let number = first.number(session, tail.group);
        if tail_left(number, *tail).is_some() {
            return false;
        }
    }
    true
}

/// Whether nothing of the runs of missing GBC values is left from this one on.
fn has_no_run_left(gbc: u64, runs: &[MissingRun]) -> bool
    ensures { result ≡ is_none (filter_map (run_left gbc) runs.now) }
{
    for run in runs {
        if run_left(gbc, *run).is_some() {
            return false;
        }
    }
    true
}
