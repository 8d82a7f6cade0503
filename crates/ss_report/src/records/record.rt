//! Writing a record in a notation: first `begin`, then `put` for each field in its order, and then `end`. Nothing is
//! allocated.
ghost use Rattle.std.specs.Prelude.{◌≡◌};
ghost use Rattle.ss_frame.specs.Watched.{sink_of};
ghost use Rattle.ss_report.specs.log.Writing.{Writes};
ghost use Rattle.ss_report.specs.records.Record.{field, valued};
ghost use Rattle.ss_report.specs.records.Written.{head_in, fields_in, end_in, says_about};

use crate::notation::Notation;
use crate::records::json::{begin_object, end_object, write_member};
use crate::records::plain::{begin_text_line, end_text_line, write_spaced};
use crate::records::value::Value;
use ss_frame::Watched;
use std::io::Write;

/// Writes what stands before the fields of a record of this kind.
pub(crate) fn begin<W: Write>(writer: &mut Watched<W>, notation: Notation, kind: &[u8])
    ensures { Writes (sink_of W.contents writer.old) (sink_of W.contents writer.new) (head_in notation kind.now) }
{
    match notation {
        Notation::Plain => begin_text_line(writer, kind),
        Notation::Json => begin_object(writer, kind),
    }
}

/// Writes a field.
pub(crate) fn put<W: Write>(
    writer: &mut Watched<W>,
    notation: Notation,
    key: &[u8],
    value: Value<'_>,
)
    ensures { Writes (sink_of W.contents writer.old) (sink_of W.contents writer.new)
        (fields_in notation (field key.now (valued value.entry))) }
{
    match notation {
        Notation::Plain => write_spaced(writer, value),
        Notation::Json => write_member(writer, key, value),
    }
}

/// Writes what stands after the fields of a record.
pub(crate) fn end<W: Write>(writer: &mut Watched<W>, notation: Notation)
    ensures { Writes (sink_of W.contents writer.old) (sink_of W.contents writer.new) (end_in notation) }
{
    match notation {
        Notation::Plain => end_text_line(writer),
        Notation::Json => end_object(writer),
    }
}

/// Whether a notation writes what a question is about, after what is asked.
pub(crate) fn says_about(notation: Notation) -> bool
    ensures { result ≡ says_about notation }
{
    match notation {
        Notation::Plain => false,
        Notation::Json => true,
    }
}
