//! The forms of a review's output.
ghost use Rattle.std.specs.Prelude.{◌≡◌};
ghost use Rattle.ss_frame.specs.Watched.{sink_of};
ghost use Rattle.ss_report.specs.log.Writing.{Writes};
ghost use Rattle.ss_report.specs.lines.Lines.{seen};
ghost use Rattle.ss_report.specs.forms.Forms.{notation_of, has_findings_alone, is_ok, line_as};

use crate::lines::line::Line;
use crate::lines::record::write_line;
use crate::notation::Notation;
use ss_frame::Watched;
use std::io::Write;

/// In which form a review writes its report, and an inspection its lines.
#[derive(Clone, Copy, Debug, PartialEq, Eq)]
pub enum ReportForm {
    /// Plain text: a line for each item.
    Text,
    /// The plain text without its `ok` and `plain` lines.
    Findings,
    /// A JSON object (RFC 8259) for each line of the plain text.
    Json,
    /// The JSON objects without those of the `ok` and `plain` lines.
    JsonFindings,
}

impl ReportForm {
    /// How each line is written.
    pub fn notation(self) -> Notation
        ensures { result ≡ notation_of self }
    {
        match self {
            ReportForm::Text | ReportForm::Findings => Notation::Plain,
            ReportForm::Json | ReportForm::JsonFindings => Notation::Json,
        }
    }

    /// Whether lines that are no finding are left out.
    pub(crate) fn has_findings_alone(self) -> bool
        ensures { result ≡ has_findings_alone self }
    {
        match self {
            ReportForm::Text | ReportForm::Json => false,
            ReportForm::Findings | ReportForm::JsonFindings => true,
        }
    }
}

/// Writes a line in a form, unless the form leaves it out. Nothing is allocated.
pub(crate) fn write_line_as<W: Write>(writer: &mut Watched<W>, form: ReportForm, line: Line<'_>)
    ensures { Writes (sink_of W.contents writer.old) (sink_of W.contents writer.new) (line_as form (seen line.entry)) }
{
    if form.has_findings_alone() && is_ok(line) {
        return;
    }
    write_line(writer, form.notation(), line);
}

/// Whether the line lists a message.
fn is_ok(line: Line<'_>) -> bool
    ensures { result ≡ is_ok (seen line.entry) }
{
    matches!(line, Line::Ok { .. })
}
