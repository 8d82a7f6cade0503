//! The fields that several outputs have.
ghost use Rattle.std.specs.Prelude.{◌≡◌, ◌++◌, codes};
ghost use Rattle.ss_frame.specs.Watched.{sink_of};
ghost use Rattle.ss_report.specs.log.Writing.{Writes};
ghost use Rattle.ss_report.specs.records.Record.{field, Number, Word, Text};
ghost use Rattle.ss_report.specs.records.Written.{fields_in};
ghost use Rattle.ss_report.specs.records.Fields.{field_word, session_fields, known_session_fields, group_fields};
ghost use Rattle.ss_report.specs.records.Fields.{cause_word, stretch_fields};

use crate::notation::Notation;
use crate::records::record::put;
use crate::records::value::Value;
use ss_block::{Group, Session, Spoil};
use ss_frame::Watched;
use ss_message::Field;
use std::io::Write;

/// Writes host, app, procid and rsid.
#[tactic(auto, using(crate::proofs::of_writing::Records::four_fields), unfolding(crate::specs::records::Fields::session_fields))]
pub(crate) fn put_session<W: Write>(writer: &mut Watched<W>, notation: Notation, session: &Session)
    ensures { Writes (sink_of W.contents writer.old) (sink_of W.contents writer.new)
        (fields_in notation (session_fields session.now)) }
{
    put_field(writer, notation, b"host", &session.host);
    put_field(writer, notation, b"app", &session.app);
    put_field(writer, notation, b"procid", &session.procid);
    put(writer, notation, b"rsid", Value::Number(session.rsid));
}

/// Writes the fields of a session, where one is known.
pub(crate) fn put_known_session<W: Write>(
    writer: &mut Watched<W>,
    notation: Notation,
    session: &Option<Session>,
)
    ensures { Writes (sink_of W.contents writer.old) (sink_of W.contents writer.new)
        (fields_in notation (known_session_fields session.now)) }
{
    match session {
        None => {}
        Some(session) => put_session(writer, notation, session),
    }
}

/// Writes a header field; `-` for an absent one.
fn put_field<W: Write>(writer: &mut Watched<W>, notation: Notation, key: &[u8], value: &Field)
    ensures { Writes (sink_of W.contents writer.old) (sink_of W.contents writer.new)
        (fields_in notation (field key.now (Text (field_word value.now)))) }
{
    match value {
        Field::Nil => put(writer, notation, key, Value::Text(b"-")),
        Field::Text(octets) => put(writer, notation, key, Value::Text(octets.as_slice())),
    }
}

/// Writes sg and spri.
#[tactic(auto, using(crate::proofs::of_writing::Records::fields_then), unfolding(crate::specs::records::Fields::group_fields))]
pub(crate) fn put_group<W: Write>(writer: &mut Watched<W>, notation: Notation, group: Group)
    ensures { Writes (sink_of W.contents writer.old) (sink_of W.contents writer.new)
        (fields_in notation (group_fields group)) }
{
    put(writer, notation, b"sg", Value::Number(u64::from(group.sg)));
    put(
        writer,
        notation,
        b"spri",
        Value::Number(u64::from(group.spri)),
    );
}

/// Writes the place and the cause.
#[tactic(auto, using(crate::proofs::of_writing::Records::fields_then))]
pub(crate) fn put_spoilt<W: Write>(
    writer: &mut Watched<W>,
    notation: Notation,
    place: u64,
    cause: Spoil,
)
    ensures { Writes (sink_of W.contents writer.old) (sink_of W.contents writer.new) (fields_in notation
        (field (codes "place") (Number place) ++ field (codes "cause") (Word (cause_word cause)))) }
{
    put(writer, notation, b"place", Value::Number(place));
    put(
        writer,
        notation,
        b"cause",
        Value::Word(word_of_cause(cause)),
    );
}

/// Writes where a damaged stretch stands, and how long it is.
#[tactic(auto, using(crate::proofs::of_writing::Records::three_fields), unfolding(crate::specs::records::Fields::stretch_fields))]
pub(crate) fn put_stretch<W: Write>(
    writer: &mut Watched<W>,
    notation: Notation,
    place: u64,
    offset: u64,
    length: u64,
)
    ensures { Writes (sink_of W.contents writer.old) (sink_of W.contents writer.new)
        (fields_in notation (stretch_fields place offset length)) }
{
    put(writer, notation, b"place", Value::Number(place));
    put(writer, notation, b"offset", Value::Number(offset));
    put(writer, notation, b"length", Value::Number(length));
}

/// The word of the cause, S1 to S9.
fn word_of_cause(cause: Spoil) -> &'static [u8]
    ensures { result.now ≡ cause_word cause }
{
    match cause {
        Spoil::BothBlocks => b"S1",
        Spoil::Names => b"S2",
        Spoil::Version => b"S3",
        Spoil::Number => b"S4",
        Spoil::HashCount => b"S5",
        Spoil::Hash => b"S6",
        Spoil::Sign => b"S7",
        Spoil::Fragment => b"S8",
        Spoil::LastNumber => b"S9",
    }
}
