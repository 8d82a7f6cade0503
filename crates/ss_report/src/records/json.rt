//! A record as a JSON object (RFC 8259), ended by LF: its kind under the key `line`, and then its fields, with no space
//! after a colon or a comma.
ghost use Rattle.std.specs.Prelude.{◌++◌, codes};
ghost use Rattle.ss_frame.specs.Watched.{sink_of};
ghost use Rattle.ss_report.specs.log.Writing.{Writes};
ghost use Rattle.ss_report.specs.records.Record.{valued, Word, Text};
ghost use Rattle.ss_report.specs.records.Json.{json_head, json_field, json_value, json_end};
ghost use Rattle.ss_octets.specs.StrictBase64.{base64};

use crate::log::output::{write_number, write_text, write_wide_number};
use crate::records::escaped::write_escaped;
use crate::records::value::Value;
use crate::texts::encoded::write_base64;
use ss_frame::Watched;
use std::io::Write;

/// Writes {"line":"KIND".
pub(crate) fn begin_object<W: Write>(writer: &mut Watched<W>, kind: &[u8])
    ensures { Writes (sink_of W.contents writer.old) (sink_of W.contents writer.new) (json_head kind.now) }
{
    write_text(writer, b"{\"line\":\"");
    write_text(writer, kind);
    write_text(writer, b"\"");
}

/// Writes ,"KEY":VALUE.
pub(crate) fn write_member<W: Write>(writer: &mut Watched<W>, key: &[u8], value: Value<'_>)
    ensures { Writes (sink_of W.contents writer.old) (sink_of W.contents writer.new)
        (json_field (key.now, valued value.entry)) }
{
    write_text(writer, b",\"");
    write_text(writer, key);
    write_text(writer, b"\":");
    write_json_value(writer, value);
}

/// Writes a number, or a text between `"`.
fn write_json_value<W: Write>(writer: &mut Watched<W>, value: Value<'_>)
    ensures { Writes (sink_of W.contents writer.old) (sink_of W.contents writer.new)
        (json_value (valued value.entry)) }
{
    match value {
        Value::Number(number) => write_number(writer, number),
        Value::Wide(number) => write_wide_number(writer, number),
        Value::Word(word) => write_quoted_word(writer, word),
        Value::Text(text) => write_quoted_text(writer, text),
        Value::Base64(octets) => write_quoted_base64(writer, octets),
    }
}

/// Writes a word between `"`.
fn write_quoted_word<W: Write>(writer: &mut Watched<W>, word: &[u8])
    ensures { Writes (sink_of W.contents writer.old) (sink_of W.contents writer.new) (json_value (Word word.now)) }
{
    write_text(writer, b"\"");
    write_text(writer, word);
    write_text(writer, b"\"");
}

/// Writes a text between `"`, with a `\` before each `"` and `\` in it.
fn write_quoted_text<W: Write>(writer: &mut Watched<W>, text: &[u8])
    ensures { Writes (sink_of W.contents writer.old) (sink_of W.contents writer.new) (json_value (Text text.now)) }
{
    write_text(writer, b"\"");
    write_escaped(writer, text);
    write_text(writer, b"\"");
}

/// Writes octets in base64 between `"`.
fn write_quoted_base64<W: Write>(writer: &mut Watched<W>, octets: &[u8])
    ensures { Writes (sink_of W.contents writer.old) (sink_of W.contents writer.new)
        (json_value (Word (base64 octets.now))) }
{
    write_text(writer, b"\"");
    write_base64(writer, octets);
    write_text(writer, b"\"");
}

/// Writes } and LF.
pub(crate) fn end_object<W: Write>(writer: &mut Watched<W>)
    ensures { Writes (sink_of W.contents writer.old) (sink_of W.contents writer.new) json_end }
{
    write_text(writer, b"}\n");
}
