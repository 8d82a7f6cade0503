//! Whether the lines of a report leave anything to look into.
ghost use Rattle.std.specs.Prelude.{◌≡◌, ◌==◌, ◌&&◌};
ghost use Rattle.std.specs.List.{list_all};
ghost use Rattle.ss_report.specs.lines.Lines.{seen};
ghost use Rattle.ss_report.specs.lines.Settled.{is_settled, is_settled_where};

use crate::lines::line::Line;
use crate::lines::tally::Tally;
use crate::lines::visitor::LineVisitor;
use crate::verdict::joined::is_joined;

/// Notes whether each line leaves nothing to look into.
#[derive(Drop)]
pub(crate) struct Settling {
    /// Whether refused blocks are no finding.
    pub(crate) ignoring: bool,
}

impl LineVisitor<bool> for Settling {
    ghost takes = { λ t before after line. after ≡ (before && is_settled_where t.ignoring line) };

    fn visit(&self, into: &mut bool, line: Line<'_>) {
        *into = *into && is_settled_where(self.ignoring, line);
    }
}

/// Whether the line leaves nothing to look into, where refused blocks may be no finding.
fn is_settled_where(ignoring: bool, line: Line<'_>) -> bool
    ensures { result ≡ is_settled_where ignoring (seen line.entry) }
{
    match line {
        Line::Refused { .. } => ignoring,
        _ => is_settled(line),
    }
}

/// Whether the line leaves nothing to look into. A line that isn't named here does.
fn is_settled(line: Line<'_>) -> bool
    ensures { result ≡ is_settled (seen line.entry) }
{
    match line {
        Line::Session { state, .. } => is_joined(state),
        Line::Ok { .. } | Line::Block { .. } | Line::End { .. } => true,
        Line::Tally { tally, .. } => is_whole(tally),
        Line::UnlistedCount { count }
        | Line::RefusedCount { count }
        | Line::SpoiltCount { count } => count == 0,
        _ => false,
    }
}

/// Whether each number of the group is that of a listed message.
fn is_whole(tally: Tally) -> bool
    ensures { result ≡ (tally.lost == 0 && tally.disputed == 0 && tally.holes == 0) }
{
    tally.lost == 0 && tally.disputed == 0 && tally.holes == 0
}
