//! The fields that an inspection adds to a line where facts are asked for: what the octets of the message are.
ghost use Rattle.std.specs.Prelude.{◌≡◌, ◌≤◌, length, take, codes, OnOk};
ghost use Rattle.std.specs.List.{prefix_len};
ghost use Rattle.ss_block.specs.Reading.{reading};
ghost use Rattle.ss_block.specs.Signed.{signed};
ghost use Rattle.ss_frame.specs.Watched.{sink_of};
ghost use Rattle.ss_message.specs.Octets.{is_no_space};
ghost use Rattle.ss_report.specs.log.Writing.{Writes};
ghost use Rattle.ss_report.specs.records.Record.{field};
ghost use Rattle.ss_report.specs.records.Written.{fields_in};
ghost use Rattle.ss_report.specs.texts.Facts.{to_space, past_space, timestamp_of, is_early, has_timestamp};
ghost use Rattle.ss_report.specs.texts.Facts.{timestamp_fields, holds_mark, mark_fields, longest_text, encoded};
ghost use Rattle.ss_report.specs.texts.Facts.{original_fields, fragment_fields, signed_fields, signature_fields};
ghost use Rattle.ss_report.specs.texts.Facts.{block_fields, text_fields, text_fields_if, fact_fields, version_fields};
ghost use Rattle.ss_wrap.specs.Wrap.{original};

use crate::notation::Notation;
use crate::records::record::put;
use crate::records::value::Value;
use crate::texts::question_fields::put_version;
use ss_block::{FullReading, Reading, may_hold_block};
use ss_frame::Watched;
use ss_message::Part;
use ss_octets::{Bytes, NoMemory};
use ss_wrap::original;
use std::alloc::Global;
use std::io::Write;

/// The most octets that `text` and `original` have.
const LONGEST_TEXT: usize = 16_384;

/// Writes the facts about a message that was read so: `octets`, `timestamp` and `marked`, and its texts if its place is
/// named.
pub(crate) fn put_facts<W: Write>(
    alloc: Global,
    writer: &mut Watched<W>,
    notation: Notation,
    message: &[u8],
    read: &FullReading,
    named: bool,
) -> Result<(), NoMemory>
    requires reading { read.now.reading ≡ reading message.now }
    requires signed { read.now.signed ≡ signed message.now }
    ensures { OnOk result (Writes (sink_of W.contents writer.old) (sink_of W.contents writer.new)
        (fields_in notation (fact_fields named message.now))) }
{
    put(
        writer,
        notation,
        b"octets",
        Value::Number(message.len() as u64),
    );
    put_timestamp(writer, notation, message, &read.reading);
    put_mark(writer, notation, message);
    put_texts_if(alloc, writer, notation, message, read, named)?;
    Ok(())
}

/// Writes TIMESTAMP as it stands, unless PRI, VERSION or TIMESTAMP fails (RFC 5424, section 6.2).
#[tactic(auto, unfolding(crate::specs::records::Written::fields_in))]
fn put_timestamp<W: Write>(
    writer: &mut Watched<W>,
    notation: Notation,
    message: &[u8],
    reading: &Reading,
)
    ensures { Writes (sink_of W.contents writer.old) (sink_of W.contents writer.new)
        (fields_in notation (timestamp_fields reading.now message.now)) }
{
    if has_timestamp(reading) {
        put(
            writer,
            notation,
            b"timestamp",
            Value::Text(timestamp_of(message)),
        );
    }
}

/// Whether none of PRI, VERSION and TIMESTAMP fails.
fn has_timestamp(reading: &Reading) -> bool
    ensures { result ≡ has_timestamp reading.now }
{
    match reading {
        Reading::Unparsed { part, .. } => !is_early(*part),
        Reading::Plain | Reading::Signature(_) | Reading::Certificate(_) | Reading::Spoilt(_) =>
            true,
    }
}

/// Whether the part is PRI, VERSION or TIMESTAMP.
fn is_early(part: Part) -> bool
    ensures { result ≡ is_early part }
{
    match part {
        Part::Pri | Part::Version | Part::Timestamp => true,
        Part::Hostname
        | Part::AppName
        | Part::ProcId
        | Part::MsgId
        | Part::Syntax
        | Part::Name
        | Part::Value
        | Part::RepeatedId
        | Part::Msg => false,
    }
}

/// The octets between the first SP and the second.
fn timestamp_of(message: &[u8]) -> &[u8]
    ensures { result.now ≡ timestamp_of message.now }
{
    to_space(past_space(message))
}

/// How many octets stand before the first SP.
fn space_at(octets: &[u8]) -> usize
    ensures value { result ≡ prefix_len is_no_space octets.now }
    ensures bound { result ≤ length octets.now }
{
    for (i, octet) in octets.iter().enumerate() {
        if *octet == b' ' {
            return i;
        }
    }
    octets.len()
}

/// The octets up to the first SP.
fn to_space(octets: &[u8]) -> &[u8]
    ensures { result.now ≡ to_space octets.now }
{
    let (front, _) = octets.split_at(space_at(octets));
    front
}

/// The octets after the first SP.
fn past_space(octets: &[u8]) -> &[u8]
    ensures { result.now ≡ past_space octets.now }
{
    let end = space_at(octets);
    if end < octets.len() {
        let (_, rest) = octets.split_at(end + 1);
        rest
    } else {
        &[]
    }
}

/// Writes that `[ssign` stands somewhere in the message, if it does.
#[tactic(auto, unfolding(crate::specs::records::Written::fields_in))]
fn put_mark<W: Write>(writer: &mut Watched<W>, notation: Notation, message: &[u8])
    ensures { Writes (sink_of W.contents writer.old) (sink_of W.contents writer.new)
        (fields_in notation (mark_fields message.now)) }
{
    if holds_mark(message) {
        put(writer, notation, b"marked", Value::Number(1));
    }
}

/// Whether `[ssign` stands somewhere in the message.
fn holds_mark(message: &[u8]) -> bool
    ensures { result ≡ holds_mark message.now }
{
    may_hold_block(message)
}

/// Writes the texts of a message that was read so, if its place is named.
#[tactic(auto, unfolding(crate::specs::records::Written::fields_in))]
fn put_texts_if<W: Write>(
    alloc: Global,
    writer: &mut Watched<W>,
    notation: Notation,
    message: &[u8],
    read: &FullReading,
    named: bool,
) -> Result<(), NoMemory>
    requires reading { read.now.reading ≡ reading message.now }
    requires signed { read.now.signed ≡ signed message.now }
    ensures { OnOk result (Writes (sink_of W.contents writer.old) (sink_of W.contents writer.new)
        (fields_in notation (text_fields_if named message.now))) }
{
    if named {
        put_texts(alloc, writer, notation, message, read)
    } else {
        Ok(())
    }
}

/// Writes the texts of a message that was read so: the octets of the message and of its wrap, and those of its block.
fn put_texts<W: Write>(
    alloc: Global,
    writer: &mut Watched<W>,
    notation: Notation,
    message: &[u8],
    read: &FullReading,
) -> Result<(), NoMemory>
    requires reading { read.now.reading ≡ reading message.now }
    requires signed { read.now.signed ≡ signed message.now }
    ensures { OnOk result (Writes (sink_of W.contents writer.old) (sink_of W.contents writer.new)
        (fields_in notation (text_fields message.now))) }
{
    put(writer, notation, b"text", Value::Base64(front(message)));
    put_original(alloc, writer, notation, message)?;
    put_block(writer, notation, read);
    Ok(())
}

/// The front of a text, as far as a line has it.
fn front(text: &[u8]) -> &[u8]
    ensures { result.now ≡ take longest_text text.now }
{
    if text.len() > LONGEST_TEXT {
        let (front, _) = text.split_at(LONGEST_TEXT);
        front
    } else {
        text
    }
}

/// Writes the octets in a wrap, if the message is of the form of one (`original` of `ss_wrap`).
#[tactic(auto, unfolding(crate::specs::records::Written::fields_in))]
fn put_original<W: Write>(
    alloc: Global,
    writer: &mut Watched<W>,
    notation: Notation,
    message: &[u8],
) -> Result<(), NoMemory>
    ensures { OnOk result (Writes (sink_of W.contents writer.old) (sink_of W.contents writer.new)
        (fields_in notation (original_fields (original message.now)))) }
{
    if let Some(octets) = original(alloc, message)? {
        put(writer, notation, b"original", Value::Base64(front(octets)));
    }
    Ok(())
}

/// Writes FRAG of a certificate block, and VER of a block, what is signed of it, and SIGN of it (RFC 5848, sections
/// 4.2.1, 4.2.8 and 5.3.2).
#[tactic(auto, using(crate::proofs::of_writing::Records::four_fields))]
fn put_block<W: Write>(writer: &mut Watched<W>, notation: Notation, read: &FullReading)
    ensures { Writes (sink_of W.contents writer.old) (sink_of W.contents writer.new)
        (fields_in notation (block_fields read.now.reading read.now.signed)) }
{
    put_fragment(writer, notation, &read.reading);
    put_version_of(writer, notation, &read.reading);
    put_signed(writer, notation, &read.signed);
    put_signature(writer, notation, &read.reading);
}

/// Writes FRAG of a certificate block.
#[tactic(auto, unfolding(crate::specs::records::Written::fields_in))]
fn put_fragment<W: Write>(writer: &mut Watched<W>, notation: Notation, reading: &Reading)
    ensures { Writes (sink_of W.contents writer.old) (sink_of W.contents writer.new)
        (fields_in notation (fragment_fields reading.now)) }
{
    if let Reading::Certificate(block) = reading {
        put(
            writer,
            notation,
            b"fragment",
            Value::Base64(block.fragment().as_slice()),
        );
    }
}

/// Writes VER of a block.
#[tactic(auto, unfolding(crate::specs::records::Written::fields_in))]
fn put_version_of<W: Write>(writer: &mut Watched<W>, notation: Notation, reading: &Reading)
    ensures { Writes (sink_of W.contents writer.old) (sink_of W.contents writer.new)
        (fields_in notation (version_fields reading.now)) }
{
    match reading {
        Reading::Signature(block) => put_version(writer, notation, block.header().alg),
        Reading::Certificate(block) => put_version(writer, notation, block.header().alg),
        Reading::Plain | Reading::Unparsed { .. } | Reading::Spoilt(_) => {}
    }
}

/// Writes what is signed of a block.
#[tactic(auto, unfolding(crate::specs::records::Written::fields_in))]
fn put_signed<W: Write>(writer: &mut Watched<W>, notation: Notation, signed: &Option<Bytes>)
    ensures { Writes (sink_of W.contents writer.old) (sink_of W.contents writer.new)
        (fields_in notation (signed_fields signed.now)) }
{
    if let Some(octets) = signed {
        put(
            writer,
            notation,
            b"signed",
            Value::Base64(octets.as_slice()),
        );
    }
}

/// Writes SIGN of a block.
#[tactic(auto, unfolding(crate::specs::records::Written::fields_in))]
fn put_signature<W: Write>(writer: &mut Watched<W>, notation: Notation, reading: &Reading)
    ensures { Writes (sink_of W.contents writer.old) (sink_of W.contents writer.new)
        (fields_in notation (signature_fields reading.now)) }
{
    match reading {
        Reading::Signature(block) => put_sign(writer, notation, &block.header().signature),
        Reading::Certificate(block) => put_sign(writer, notation, &block.header().signature),
        Reading::Plain | Reading::Unparsed { .. } | Reading::Spoilt(_) => {}
    }
}

/// Writes the octets of SIGN.
fn put_sign<W: Write>(writer: &mut Watched<W>, notation: Notation, octets: &Bytes)
    ensures { Writes (sink_of W.contents writer.old) (sink_of W.contents writer.new)
        (fields_in notation (field (codes "signature") (encoded octets.now))) }
{
    put(
        writer,
        notation,
        b"signature",
        Value::Base64(octets.as_slice()),
    );
}
