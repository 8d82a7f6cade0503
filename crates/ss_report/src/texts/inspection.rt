//! The line of an inspection: what a stored message is.
ghost use Rattle.std.specs.Prelude.{◌≡◌, ◌++◌, None, IfOk, OnOk};
ghost use Rattle.std.specs.Option.{option_copied};
ghost use Rattle.ss_block.specs.Reading.{reading};
ghost use Rattle.ss_block.specs.Session.{session};
ghost use Rattle.ss_block.specs.Signed.{signed};
ghost use Rattle.ss_frame.specs.Watched.{sink_of};
ghost use Rattle.ss_report.specs.log.Writing.{Writes};
ghost use Rattle.ss_report.specs.records.Written.{fields_in, written};
ghost use Rattle.ss_report.specs.texts.Inspection.{part_word, head_fields, reading_kind, reading_fields, reading_line};
ghost use Rattle.ss_report.specs.texts.Facts.{names_of};
ghost use Rattle.ss_report.specs.texts.Inspection.{inside, is_plain, message_line, stored_line};
ghost use Rattle.ss_report.specs.texts.Inspection.{facts_line, facts_of, line_by, stored_facts, wrapped_facts};
ghost use Rattle.ss_report.specs.texts.Inspection.{wrapped_kind, wrapped_line, wrapped_record};

use crate::forms::inspection_form::InspectionForm;
use crate::forms::report_form::ReportForm;
use crate::notation::Notation;
use crate::records::fields::{put_group, put_known_session, put_spoilt};
use crate::records::record::{begin, end, put};
use crate::records::value::Value;
use crate::texts::facts::put_facts;
use crate::texts::named::Named;
use ss_block::{
    CertBlock, FullReading, Group, Reading, Session, SigBlock, classify_with_session, read_fully,
};
use ss_frame::Watched;
use ss_message::Part;
use ss_octets::NoMemory;
use ss_wrap::original;
use std::alloc::Global;
use std::io::Write;

/// The text with the line of the message at this place after it. Places count the messages of the log from 0. The line
/// has facts where these are asked for.
pub(crate) fn put_message(
    alloc: Global,
    text: Vec<u8>,
    place: u64,
    message: &[u8],
    form: InspectionForm,
    named: &Option<Named>,
) -> Result<Vec<u8>, NoMemory>
    ensures { IfOk result (λ v. v.items ≡ text.items ++ line_by form (names_of named.now) place message.now) }
{
    let mut writer = Watched::new(text);
    write_line_by(alloc, &mut writer, place, message, form, named)?;
    if writer.failed() {
        return Err(NoMemory);
    }
    Ok(writer.into_inner())
}

/// Writes the line of a message at this place, with facts where these are asked for, unless the form leaves it out.
fn write_line_by<W: Write>(
    alloc: Global,
    writer: &mut Watched<W>,
    place: u64,
    message: &[u8],
    form: InspectionForm,
    named: &Option<Named>,
) -> Result<(), NoMemory>
    ensures { OnOk result (Writes (sink_of W.contents writer.old) (sink_of W.contents writer.new)
        (line_by form (names_of named.now) place message.now)) }
{
    match named {
        None => write_message(alloc, writer, place, message, form),
        Some(names) => { write_with_facts(alloc, writer, place, message, form, names.holds(place)) }
    }
}

/// Writes the line of a message at this place with the facts about it, unless the form leaves it out.
fn write_with_facts<W: Write>(
    alloc: Global,
    writer: &mut Watched<W>,
    place: u64,
    message: &[u8],
    form: InspectionForm,
    named: bool,
) -> Result<(), NoMemory>
    ensures { OnOk result (Writes (sink_of W.contents writer.old) (sink_of W.contents writer.new)
        (facts_line form place message.now named)) }
{
    let read = read_fully(alloc, message)?;
    let facts = Facts {
        message,
        read,
        named,
    };
    match inside(alloc, message, form.unwrap)? {
        Some(octets) => {
            write_wrapped_facts(alloc, writer, place, octets, form.lines.notation(), &facts)
        }
        None => write_stored_facts(alloc, writer, place, form.lines, &facts),
    }
}

/// A message, how it was read, and whether its place is named.
#[derive(Drop)]
struct Facts<'m> {
    message: &'m [u8],
    read: FullReading,
    named: bool,
}

/// Writes the line of the wrap of these octets, which stands at this place, with the facts about it.
fn write_wrapped_facts<W: Write>(
    alloc: Global,
    writer: &mut Watched<W>,
    place: u64,
    octets: &[u8],
    notation: Notation,
    facts: &Facts<'_>,
) -> Result<(), NoMemory>
    requires reading { facts.now.read.reading ≡ reading facts.now.message.now }
    requires signed { facts.now.read.signed ≡ signed facts.now.message.now }
    ensures { OnOk result (Writes (sink_of W.contents writer.old) (sink_of W.contents writer.new)
        (wrapped_facts notation place facts.now.message.now facts.now.named octets.now)) }
{
    let (reading, session) = classify_with_session(alloc, octets)?;
    begin(writer, notation, wrapped_kind_of(&reading));
    put_reading(writer, notation, &reading, &session, place);
    put_facts(
        alloc,
        writer,
        notation,
        facts.message,
        &facts.read,
        facts.named,
    )?;
    end(writer, notation);
    Ok(())
}

/// Writes the line of a message as it stands, at this place, with the facts about it, unless the form leaves it out.
fn write_stored_facts<W: Write>(
    alloc: Global,
    writer: &mut Watched<W>,
    place: u64,
    form: ReportForm,
    facts: &Facts<'_>,
) -> Result<(), NoMemory>
    requires reading { facts.now.read.reading ≡ reading facts.now.message.now }
    requires session { facts.now.read.session ≡ session facts.now.message.now }
    requires signed { facts.now.read.signed ≡ signed facts.now.message.now }
    ensures { OnOk result (Writes (sink_of W.contents writer.old) (sink_of W.contents writer.new)
        (facts_of form place facts.now.message.now facts.now.named None)) }
{
    if form.has_findings_alone() && is_plain(&facts.read.reading) {
        return Ok(());
    }
    write_all_facts(alloc, writer, place, form.notation(), facts)
}

/// Writes the line of a message as it stands, at this place, with the facts about it.
fn write_all_facts<W: Write>(
    alloc: Global,
    writer: &mut Watched<W>,
    place: u64,
    notation: Notation,
    facts: &Facts<'_>,
) -> Result<(), NoMemory>
    requires reading { facts.now.read.reading ≡ reading facts.now.message.now }
    requires session { facts.now.read.session ≡ session facts.now.message.now }
    requires signed { facts.now.read.signed ≡ signed facts.now.message.now }
    ensures { OnOk result (Writes (sink_of W.contents writer.old) (sink_of W.contents writer.new)
        (stored_facts notation place facts.now.message.now facts.now.named)) }
{
    let read = &facts.read;
    begin(writer, notation, kind_of(&read.reading));
    put_reading(writer, notation, &read.reading, &read.session, place);
    put_facts(alloc, writer, notation, facts.message, read, facts.named)?;
    end(writer, notation);
    Ok(())
}

/// Writes the line of a message at this place, unless the form leaves it out.
fn write_message<W: Write>(
    alloc: Global,
    writer: &mut Watched<W>,
    place: u64,
    message: &[u8],
    form: InspectionForm,
) -> Result<(), NoMemory>
    ensures { OnOk result
        (Writes (sink_of W.contents writer.old) (sink_of W.contents writer.new) (message_line form place message.now)) }
{
    match inside(alloc, message, form.unwrap)? {
        Some(octets) => write_wrapped(alloc, writer, place, octets, form.lines.notation()),
        None => write_stored(alloc, writer, place, message, form.lines),
    }
}

/// The octets in a message of the form of a wrap, if wraps are to be taken off.
fn inside<'a>(alloc: Global, message: &'a [u8], unwrap: bool) -> Result<Option<&'a [u8]>, NoMemory>
    ensures { IfOk result (λ found. option_copied found ≡ inside unwrap message.now) }
{
    if unwrap {
        original(alloc, message)
    } else {
        Ok(None)
    }
}

/// Writes the line of the wrap of these octets, which stands at this place.
#[tactic(auto, unfolding(crate::specs::texts::Inspection::wrapped_line))]
fn write_wrapped<W: Write>(
    alloc: Global,
    writer: &mut Watched<W>,
    place: u64,
    octets: &[u8],
    notation: Notation,
) -> Result<(), NoMemory>
    ensures { OnOk result (Writes (sink_of W.contents writer.old) (sink_of W.contents writer.new)
        (wrapped_line notation place octets.now)) }
{
    let (reading, session) = classify_with_session(alloc, octets)?;
    write_inner(writer, &reading, &session, place, notation);
    Ok(())
}

/// Writes the line of a wrap at this place, of which the octets in it are read so.
fn write_inner<W: Write>(
    writer: &mut Watched<W>,
    reading: &Reading,
    session: &Option<Session>,
    place: u64,
    notation: Notation,
)
    ensures { Writes (sink_of W.contents writer.old) (sink_of W.contents writer.new)
        (written notation (wrapped_record reading.now session.now place)) }
{
    begin(writer, notation, wrapped_kind_of(reading));
    put_reading(writer, notation, reading, session, place);
    end(writer, notation);
}

/// The kind of the line of a wrap.
fn wrapped_kind_of(reading: &Reading) -> &'static [u8]
    ensures { result.now ≡ wrapped_kind reading.now }
{
    match reading {
        Reading::Plain => b"wrapped-plain",
        Reading::Unparsed { .. } => b"wrapped-unparsed",
        Reading::Signature(_) => b"wrapped-signature",
        Reading::Certificate(_) => b"wrapped-certificate",
        Reading::Spoilt(_) => b"wrapped-spoilt",
    }
}

/// Writes the line of a message as it stands, at this place, unless the form leaves it out.
#[tactic(auto, unfolding(crate::specs::texts::Inspection::stored_line))]
fn write_stored<W: Write>(
    alloc: Global,
    writer: &mut Watched<W>,
    place: u64,
    message: &[u8],
    form: ReportForm,
) -> Result<(), NoMemory>
    ensures { OnOk result
        (Writes (sink_of W.contents writer.old) (sink_of W.contents writer.new) (stored_line form place message.now)) }
{
    let (reading, session) = classify_with_session(alloc, message)?;
    if form.has_findings_alone() && is_plain(&reading) {
        return Ok(());
    }
    write_reading(writer, &reading, &session, place, form.notation());
    Ok(())
}

/// Whether a message is a plain one.
fn is_plain(reading: &Reading) -> bool
    ensures { result ≡ is_plain reading.now }
{
    matches!(reading, Reading::Plain)
}

/// Writes the line of a message at this place that is read so.
fn write_reading<W: Write>(
    writer: &mut Watched<W>,
    reading: &Reading,
    session: &Option<Session>,
    place: u64,
    notation: Notation,
)
    ensures { Writes (sink_of W.contents writer.old) (sink_of W.contents writer.new)
        (reading_line notation reading.now session.now place) }
{
    begin(writer, notation, kind_of(reading));
    put_reading(writer, notation, reading, session, place);
    end(writer, notation);
}

/// The kind of the line.
fn kind_of(reading: &Reading) -> &'static [u8]
    ensures { result.now ≡ reading_kind reading.now }
{
    match reading {
        Reading::Plain => b"plain",
        Reading::Unparsed { .. } => b"unparsed",
        Reading::Signature(_) => b"signature",
        Reading::Certificate(_) => b"certificate",
        Reading::Spoilt(_) => b"spoilt",
    }
}

/// Writes the fields of the line in their order.
fn put_reading<W: Write>(
    writer: &mut Watched<W>,
    notation: Notation,
    reading: &Reading,
    session: &Option<Session>,
    place: u64,
)
    ensures { Writes (sink_of W.contents writer.old) (sink_of W.contents writer.new)
        (fields_in notation (reading_fields reading.now session.now place)) }
{
    match reading {
        Reading::Plain => put(writer, notation, b"place", Value::Number(place)),
        Reading::Unparsed { part, pos } => put_unparsed(writer, notation, place, *part, *pos),
        Reading::Signature(block) => put_signature(writer, notation, place, session, block),
        Reading::Certificate(block) => put_certificate(writer, notation, place, session, block),
        Reading::Spoilt(cause) => put_spoilt(writer, notation, place, *cause),
    }
}

/// Writes the place, the part at fault, and where in the message it is.
#[tactic(auto, using(crate::proofs::of_writing::Records::three_fields))]
fn put_unparsed<W: Write>(
    writer: &mut Watched<W>,
    notation: Notation,
    place: u64,
    part: Part,
    pos: usize,
)
    ensures { Writes (sink_of W.contents writer.old) (sink_of W.contents writer.new)
        (fields_in notation (reading_fields (Reading.Unparsed part pos) None place)) }
{
    put(writer, notation, b"place", Value::Number(place));
    put(writer, notation, b"part", Value::Word(word_of_part(part)));
    put(writer, notation, b"offset", Value::Number(pos as u64));
}

/// Writes the fields of a signature block: its head, GBC, FMN and CNT (RFC 5848, section 4.2).
fn put_signature<W: Write>(
    writer: &mut Watched<W>,
    notation: Notation,
    place: u64,
    session: &Option<Session>,
    block: &SigBlock,
)
    ensures { Writes (sink_of W.contents writer.old) (sink_of W.contents writer.new)
        (fields_in notation (reading_fields (Reading.Signature block.now) session.now place)) }
{
    let count = block.hashes().as_slice().len() as u64;
    put_head(writer, notation, place, session, block.header().group);
    put(writer, notation, b"gbc", Value::Number(block.gbc()));
    put(writer, notation, b"first", Value::Number(block.first()));
    put(writer, notation, b"count", Value::Number(count));
}

/// Writes the fields of a certificate block: its head, TPBL, INDEX and FLEN (RFC 5848, section 5.3.2).
fn put_certificate<W: Write>(
    writer: &mut Watched<W>,
    notation: Notation,
    place: u64,
    session: &Option<Session>,
    block: &CertBlock,
)
    ensures { Writes (sink_of W.contents writer.old) (sink_of W.contents writer.new)
        (fields_in notation (reading_fields (Reading.Certificate block.now) session.now place)) }
{
    let length = block.fragment().as_slice().len() as u64;
    put_head(writer, notation, place, session, block.header().group);
    put(
        writer,
        notation,
        b"total",
        Value::Number(u64::from(block.total())),
    );
    put(
        writer,
        notation,
        b"index",
        Value::Number(u64::from(block.index())),
    );
    put(writer, notation, b"length", Value::Number(length));
}

/// Writes the head of a block of either kind: its place, its session, where one is known, and its group.
#[tactic(auto, using(crate::proofs::of_writing::Records::three_fields))]
fn put_head<W: Write>(
    writer: &mut Watched<W>,
    notation: Notation,
    place: u64,
    session: &Option<Session>,
    group: Group,
)
    ensures { Writes (sink_of W.contents writer.old) (sink_of W.contents writer.new)
        (fields_in notation (head_fields place session.now group)) }
{
    put(writer, notation, b"place", Value::Number(place));
    put_known_session(writer, notation, session);
    put_group(writer, notation, group);
}

/// The word of the part at fault, M1 to M12.
fn word_of_part(part: Part) -> &'static [u8]
    ensures { result.now ≡ part_word part }
{
    match part {
        Part::Pri => b"M1",
        Part::Version => b"M2",
        Part::Timestamp => b"M3",
        Part::Hostname => b"M4",
        Part::AppName => b"M5",
        Part::ProcId => b"M6",
        Part::MsgId => b"M7",
        Part::Syntax => b"M8",
        Part::Name => b"M9",
        Part::Value => b"M10",
        Part::RepeatedId => b"M11",
        Part::Msg => b"M12",
    }
}
