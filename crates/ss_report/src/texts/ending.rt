//! The last lines of an inspection.
ghost use Rattle.std.specs.Prelude.{◌≡◌, ◌++◌, codes, flat_map, IfOk};
ghost use Rattle.ss_frame.specs.Watched.{sink_of};
ghost use Rattle.ss_report.specs.log.Writing.{Writes};
ghost use Rattle.ss_report.specs.records.Fields.{stretch_fields};
ghost use Rattle.ss_report.specs.records.Written.{written};
ghost use Rattle.ss_report.specs.texts.Ending.{number_as, damaged_line, torn_line, end_lines};

use crate::log::ending::{Damage, Ending};
use crate::notation::Notation;
use crate::records::fields::put_stretch;
use crate::records::record::{begin, end, put};
use crate::records::value::Value;
use ss_frame::{Tail, Watched};
use ss_octets::NoMemory;
use std::io::Write;

/// The text with a line for each damaged stretch after it, `torn POS` at a torn end, and `end COUNT`.
pub(crate) fn put_end(
    text: Vec<u8>,
    ending: &Ending,
    count: u64,
    notation: Notation,
) -> Result<Vec<u8>, NoMemory>
    ensures { IfOk result (λ v. v.items ≡ text.items ++ end_lines notation ending.now count) }
{
    let mut writer = Watched::new(text);
    write_end(&mut writer, ending, count, notation);
    if writer.failed() {
        return Err(NoMemory);
    }
    Ok(writer.into_inner())
}

/// Writes the lines of what is damaged, the line of a torn end, if there is one, and the count of the messages.
fn write_end<W: Write>(writer: &mut Watched<W>, ending: &Ending, count: u64, notation: Notation)
    ensures { Writes (sink_of W.contents writer.old) (sink_of W.contents writer.new)
        (end_lines notation ending.now count) }
{
    write_damaged(writer, ending.damaged.as_slice(), notation);
    write_torn(writer, ending.tail, notation);
    write_number_as(writer, b"end", b"count", count, notation);
}

/// Writes a line for each damaged stretch.
fn write_damaged<W: Write>(writer: &mut Watched<W>, damaged: &[Damage], notation: Notation)
    ensures { Writes (sink_of W.contents writer.old) (sink_of W.contents writer.new)
        (flat_map (damaged_line notation) damaged.now) }
{
    for stretch in damaged {
        write_stretch(writer, *stretch, notation);
    }
}

/// Writes the line of a damaged stretch.
fn write_stretch<W: Write>(writer: &mut Watched<W>, stretch: Damage, notation: Notation)
    ensures { Writes (sink_of W.contents writer.old) (sink_of W.contents writer.new) (damaged_line notation stretch) }
{
    begin(writer, notation, b"damaged");
    put_stretch(
        writer,
        notation,
        u64::from(stretch.place),
        stretch.offset,
        stretch.length,
    );
    end(writer, notation);
}

/// Writes the line of a torn end, if there is one.
fn write_torn<W: Write>(writer: &mut Watched<W>, tail: Tail, notation: Notation)
    ensures { Writes (sink_of W.contents writer.old) (sink_of W.contents writer.new) (torn_line notation tail) }
{
    match tail {
        Tail::Clean => {}
        Tail::Torn { pos } => write_number_as(writer, b"torn", b"offset", pos, notation),
    }
}

/// Writes a line with one number.
pub(crate) fn write_number_as<W: Write>(
    writer: &mut Watched<W>,
    kind: &[u8],
    key: &[u8],
    number: u64,
    notation: Notation,
)
    ensures { Writes (sink_of W.contents writer.old) (sink_of W.contents writer.new)
        (number_as notation kind.now key.now number) }
{
    begin(writer, notation, kind);
    put(writer, notation, key, Value::Number(number));
    end(writer, notation);
}
