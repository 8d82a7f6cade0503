//! Which indexes of a payload fragments cover.
ghost use Rattle.std.specs.Prelude.{◌≡◌, List};
ghost use Rattle.std.specs.List.Sorted.{IsNonDecreasingBy};
ghost use Rattle.ss_block.specs.Block.{Certificate};
ghost use Rattle.ss_review.specs.sessions.Payloads.{cover};
ghost use Rattle.ss_review.specs.sessions.Covering.{spans_of, IsFirstUncovered};

/// The indexes of a fragment: from `start` on, up to `end`, which isn't one.
#[derive(Clone, Copy, Debug, PartialEq, Eq, PartialOrd, Ord)]
pub(crate) struct Span {
    pub(crate) start: u64,
    pub(crate) end: u64,
}

/// The first index, from 1 on, that none of the spans covers. They rise by where they begin.
fn first_uncovered(spans: &[Span]) -> u64
    requires { IsNonDecreasingBy (λ s. s.start) spans.now }
    ensures { IsFirstUncovered spans.now result }
{
    let mut reached: u64 = 1;
    for span in spans {
        if span.start > reached {
            return reached;
        }
        if span.end > reached {
            reached = span.end;
        }
    }
    reached
}

/// Whether fragments with these spans cover each index from 1 to the total. It leaves the spans in their order.
pub(crate) fn cover(spans: &mut [Span], total: u64) -> bool
    ensures { (cs : List Certificate) → spans.old ≡ spans_of cs → result ≡ cover cs total }
{
    spans.sort_unstable();
    total < first_uncovered(spans)
}
