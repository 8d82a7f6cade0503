//! A text in a JSON string (RFC 8259, section 7).
ghost use Rattle.std.specs.Prelude.{◌≡◌, flat_map};
ghost use Rattle.std.specs.List.{list_any};
ghost use Rattle.ss_frame.specs.Watched.{sink_of};
ghost use Rattle.ss_report.specs.log.Writing.{Writes};
ghost use Rattle.ss_report.specs.records.Json.{is_escaped, escaped};

use crate::log::output::write_text;
use ss_frame::Watched;
use std::io::Write;

/// Writes octets with a `\` before each `"` and `\`.
pub(crate) fn write_escaped<W: Write>(writer: &mut Watched<W>, octets: &[u8])
    ensures { Writes (sink_of W.contents writer.old) (sink_of W.contents writer.new) (flat_map escaped octets.now) }
{
    if has_escaped(octets) {
        write_each(writer, octets);
    } else {
        write_text(writer, octets);
    }
}

/// Whether some octet has to be escaped. Hardly any text has one.
fn has_escaped(octets: &[u8]) -> bool
    ensures { result ≡ list_any is_escaped octets.now }
{
    octets.iter().any(|octet| is_escaped(*octet))
}

/// Whether the octet is `"` or `\`.
fn is_escaped(octet: u8) -> bool
    ensures { result ≡ is_escaped octet }
{
    octet == b'"' || octet == b'\\'
}

/// Writes octets one by one, each that has to be escaped after a `\`.
fn write_each<W: Write>(writer: &mut Watched<W>, octets: &[u8])
    ensures { Writes (sink_of W.contents writer.old) (sink_of W.contents writer.new) (flat_map escaped octets.now) }
{
    for octet in octets {
        write_octet(writer, *octet);
    }
}

/// Writes an octet, after a `\` where it has to be escaped.
fn write_octet<W: Write>(writer: &mut Watched<W>, octet: u8)
    ensures { Writes (sink_of W.contents writer.old) (sink_of W.contents writer.new) (escaped octet) }
{
    if is_escaped(octet) {
        write_text(writer, &[b'\\', octet]);
    } else {
        write_text(writer, &[octet]);
    }
}
