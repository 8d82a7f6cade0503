//! What a question is about, which plain text leaves out.
ghost use Rattle.std.specs.Prelude.{codes};
ghost use Rattle.ss_block.specs.Versions.{version_text};
ghost use Rattle.ss_frame.specs.Watched.{sink_of};
ghost use Rattle.ss_report.specs.log.Writing.{Writes};
ghost use Rattle.ss_report.specs.records.Record.{field, Number, Word};
ghost use Rattle.ss_report.specs.records.Fields.{session_fields};
ghost use Rattle.ss_report.specs.records.Written.{about_in, fields_in};
ghost use Rattle.ss_review.specs.declared.questions.parameters.AskedParameters.TheVariants.{Certificate, Signature};
ghost use Rattle.ss_report.specs.texts.Asked.{block_fields, parameter_fields};

use crate::notation::Notation;
use crate::records::fields::{put_group, put_session};
use crate::records::record::{put, says_about};
use crate::records::value::Value;
use ss_block::{Alg, Group, Session};
use ss_frame::Watched;
use ss_review::{AskedBlock, AskedParameters};
use std::io::Write;

/// Writes the session that a question is about, unless the notation leaves it out.
#[tactic(auto, unfolding(crate::specs::records::Written::fields_in))]
pub(crate) fn put_about_session<W: Write>(
    writer: &mut Watched<W>,
    notation: Notation,
    session: &Session,
)
    ensures { Writes (sink_of W.contents writer.old) (sink_of W.contents writer.new)
        (fields_in notation (about_in notation (session_fields session.now))) }
{
    if says_about(notation) {
        put_session(writer, notation, session);
    }
}

/// Writes the block that a question is about, unless the notation leaves it out.
#[tactic(auto, unfolding(crate::specs::records::Written::fields_in))]
pub(crate) fn put_about_block<W: Write>(
    writer: &mut Watched<W>,
    notation: Notation,
    session: &Session,
    block: &AskedBlock,
)
    ensures { Writes (sink_of W.contents writer.old) (sink_of W.contents writer.new)
        (fields_in notation (about_in notation (block_fields session.now block.now))) }
{
    if says_about(notation) {
        put_block(writer, notation, session, block);
    }
}

/// Writes the place of a block, its session, and its parameters.
#[tactic(auto, using(crate::proofs::of_writing::Records::three_fields), unfolding(crate::specs::texts::Asked::block_fields))]
fn put_block<W: Write>(
    writer: &mut Watched<W>,
    notation: Notation,
    session: &Session,
    block: &AskedBlock,
)
    ensures { Writes (sink_of W.contents writer.old) (sink_of W.contents writer.new)
        (fields_in notation (block_fields session.now block.now)) }
{
    put_small(writer, notation, b"place", block.place);
    put_session(writer, notation, session);
    put_parameters(writer, notation, block.parameters);
}

/// Writes the parameters of a block of either kind.
pub(crate) fn put_parameters<W: Write>(
    writer: &mut Watched<W>,
    notation: Notation,
    parameters: AskedParameters,
)
    ensures { Writes (sink_of W.contents writer.old) (sink_of W.contents writer.new)
        (fields_in notation (parameter_fields parameters)) }
{
    match parameters {
        AskedParameters::Signature {
            alg,
            group,
            gbc,
            first,
            count,
        } => put_signature(writer, notation, alg, group, gbc, first, count),
        AskedParameters::Certificate {
            alg,
            group,
            total,
            index,
            length,
        } => put_certificate(writer, notation, alg, group, total, index, length),
    }
}

/// Writes ver, sg, spri, gbc, first and count.
#[tactic(auto, unfolding(crate::specs::texts::Asked::parameter_fields))]
fn put_signature<W: Write>(
    writer: &mut Watched<W>,
    notation: Notation,
    alg: Alg,
    group: Group,
    gbc: u64,
    first: u64,
    count: u8,
)
    ensures { Writes (sink_of W.contents writer.old) (sink_of W.contents writer.new)
        (fields_in notation (parameter_fields (Signature alg group gbc first count))) }
{
    put_version(writer, notation, alg);
    put_group(writer, notation, group);
    put(writer, notation, b"gbc", Value::Number(gbc));
    put(writer, notation, b"first", Value::Number(first));
    put_small(writer, notation, b"count", u32::from(count));
}

/// Writes ver, sg, spri, total, index and length.
#[tactic(auto, unfolding(crate::specs::texts::Asked::parameter_fields))]
fn put_certificate<W: Write>(
    writer: &mut Watched<W>,
    notation: Notation,
    alg: Alg,
    group: Group,
    total: u32,
    index: u32,
    length: u32,
)
    ensures { Writes (sink_of W.contents writer.old) (sink_of W.contents writer.new)
        (fields_in notation (parameter_fields (Certificate alg group total index length))) }
{
    put_version(writer, notation, alg);
    put_group(writer, notation, group);
    put_small(writer, notation, b"total", total);
    put_small(writer, notation, b"index", index);
    put_small(writer, notation, b"length", length);
}

/// Writes ver.
pub(crate) fn put_version<W: Write>(writer: &mut Watched<W>, notation: Notation, alg: Alg)
    ensures { Writes (sink_of W.contents writer.old) (sink_of W.contents writer.new)
        (fields_in notation (field (codes "ver") (Word (version_text alg)))) }
{
    put(
        writer,
        notation,
        b"ver",
        Value::Word(alg.version().as_bytes()),
    );
}

/// Writes a number of up to 32 bits.
fn put_small<W: Write>(writer: &mut Watched<W>, notation: Notation, key: &[u8], number: u32)
    ensures { Writes (sink_of W.contents writer.old) (sink_of W.contents writer.new)
        (fields_in notation (field key.now (Number number))) }
{
    put(writer, notation, key, Value::Number(u64::from(number)));
}
