//! The lines of a report, written in a form.
ghost use Rattle.std.specs.Prelude.{◌≡◌, flat_map};
ghost use Rattle.ss_frame.specs.Watched.{sink_of};
ghost use Rattle.ss_report.specs.log.Writing.{Writes};
ghost use Rattle.ss_report.specs.forms.Forms.{line_as};
ghost use Rattle.ss_report.specs.lines.Between.{told_beside};
ghost use Rattle.ss_report.specs.lines.Front.{IsReady};

use crate::forms::report_form::{ReportForm, write_line_as};
use crate::lines::detail::Detail;
use crate::lines::front::FrontMatter;
use crate::lines::line::Line;
use crate::lines::missing::Missing;
use crate::lines::visitor::LineVisitor;
use crate::lines::walk::walk_told;
use crate::log::ending::Ending;
use ss_frame::Watched;
use ss_review::Report;
use std::io::Write;

/// Writes each line in a form.
#[derive(Drop)]
struct Writing {
    form: ReportForm,
}

impl<W: Write> LineVisitor<Watched<W>> for Writing {
    ghost takes = { λ t before after line.
        Writes (sink_of W.contents before) (sink_of W.contents after) (line_as t.form line) };

    fn visit(&self, into: &mut Watched<W>, line: Line<'_>) {
        write_line_as(into, self.form, line);
    }
}

/// Writes a report on a log with this ending, in a form and a detail, with what is missing beside it, if that is reported
/// too. Nothing is allocated.
pub(crate) fn write_report_as<W: Write>(
    writer: &mut Watched<W>,
    front: &FrontMatter,
    report: &Report,
    missing: &Option<Missing<'_>>,
    ending: &Ending,
    form: ReportForm,
    detail: Detail,
)
    ensures { IsReady detail front.now report.now
        → Writes (sink_of W.contents writer.old) (sink_of W.contents writer.new)
        (flat_map (line_as form) (told_beside detail front.now.blocks report.now missing.now ending.now)) }
{
    walk_told(
        &Writing { form },
        writer,
        front,
        report,
        missing,
        ending,
        detail,
    );
}
