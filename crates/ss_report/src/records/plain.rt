//! A record as plain text: its kind and the values of its fields, with one SP between two, ended by LF.
ghost use Rattle.std.specs.Prelude.{◌++◌, codes};
ghost use Rattle.ss_frame.specs.Watched.{sink_of};
ghost use Rattle.ss_report.specs.log.Writing.{Writes};
ghost use Rattle.ss_report.specs.records.Record.{valued};
ghost use Rattle.ss_report.specs.records.Plain.{plain_value, plain_end};

use crate::log::output::{write_number, write_text, write_wide_number};
use crate::records::value::Value;
use crate::texts::encoded::write_base64;
use ss_frame::Watched;
use std::io::Write;

/// Writes the kind.
pub(crate) fn begin_text_line<W: Write>(writer: &mut Watched<W>, kind: &[u8])
    ensures { Writes (sink_of W.contents writer.old) (sink_of W.contents writer.new) kind.now }
{
    write_text(writer, kind);
}

/// Writes a value and the SP before it.
pub(crate) fn write_spaced<W: Write>(writer: &mut Watched<W>, value: Value<'_>)
    ensures { Writes (sink_of W.contents writer.old) (sink_of W.contents writer.new)
        (codes " " ++ plain_value (valued value.entry)) }
{
    write_text(writer, b" ");
    write_plain_value(writer, value);
}

/// Writes a value.
fn write_plain_value<W: Write>(writer: &mut Watched<W>, value: Value<'_>)
    ensures { Writes (sink_of W.contents writer.old) (sink_of W.contents writer.new)
        (plain_value (valued value.entry)) }
{
    match value {
        Value::Number(number) => write_number(writer, number),
        Value::Wide(number) => write_wide_number(writer, number),
        Value::Word(octets) | Value::Text(octets) => write_text(writer, octets),
        Value::Base64(octets) => write_base64(writer, octets),
    }
}

/// Writes LF.
pub(crate) fn end_text_line<W: Write>(writer: &mut Watched<W>)
    ensures { Writes (sink_of W.contents writer.old) (sink_of W.contents writer.new) plain_end }
{
    write_text(writer, b"\n");
}
