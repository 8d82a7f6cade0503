//! The visitor of the lines of a report.
ghost use Rattle.ss_report.specs.lines.Lines.{ReportLine, seen};

use crate::lines::line::Line;

/// Visits the lines of a report one by one, each as a value, and changes a state by each.
pub(crate) trait LineVisitor<S> {
    /// What visiting a line does to the state.
    ghost takes: { Self → (before after : S) → ReportLine → Type 0 };

    /// Visits a line. Only the visitor that keeps places allocates.
    fn visit(&self, into: &mut S, line: Line<'_>)
        ensures { takes self.now into.old into.new (seen line.entry) };
}
