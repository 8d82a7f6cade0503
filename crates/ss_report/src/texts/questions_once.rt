//! The text of the questions to a signature scheme, with each payload once.
ghost use Rattle.std.specs.Prelude.{◌≡◌, map, flat_map};
ghost use Rattle.ss_frame.specs.Watched.{sink_of};
ghost use Rattle.ss_block.specs.declared.session.Session.{Session};
ghost use Rattle.ss_report.specs.log.Writing.{Writes};
ghost use Rattle.ss_report.specs.texts.Payloads.{marks};
ghost use Rattle.ss_report.specs.texts.QuestionsOnce.{PayloadLine, TrustLine, YesLine, payload_lines};
ghost use Rattle.ss_report.specs.texts.QuestionsOnce.{once_line, once_text_of, session_once_text};

use crate::notation::Notation;
use crate::records::record::{begin, end, put};
use crate::records::value::Value;
use crate::texts::payload_marks::Mark;
use crate::texts::question_fields::{put_about_block, put_about_session};
use ss_block::Session;
use ss_frame::Watched;
use ss_review::{AskedBlock, AskedSession};
use std::io::Write;

/// Writes the text of the questions about these sessions, whose payloads have these marks: a line for each in their
/// order, ended by LF, and before the first about a payload a line that writes it. Nothing is allocated.
pub(crate) fn write_questions_once<W: Write>(
    writer: &mut Watched<W>,
    sessions: &[AskedSession],
    marked: &[Mark],
    notation: Notation,
)
    requires { marked.now ≡ marks (map (λ s. s.payload) sessions.now) }
    ensures { Writes (sink_of W.contents writer.old) (sink_of W.contents writer.new)
        (once_text_of notation sessions.now) }
{
    for (mark, session) in marked.iter().zip(sessions) {
        write_session_once(writer, *mark, session, notation);
    }
}

/// Writes the lines about a session.
fn write_session_once<W: Write>(
    writer: &mut Watched<W>,
    mark: Mark,
    session: &AskedSession,
    notation: Notation,
)
    ensures { Writes (sink_of W.contents writer.old) (sink_of W.contents writer.new)
        (session_once_text notation (mark, session.now)) }
{
    write_payload_if_new(writer, mark, session.payload.as_slice(), notation);
    write_trust(writer, mark.index, &session.session, notation);
    write_blocks(writer, mark.index, session, notation);
}

/// Writes the line of a payload, where it is new.
fn write_payload_if_new<W: Write>(
    writer: &mut Watched<W>,
    mark: Mark,
    payload: &[u8],
    notation: Notation,
)
    ensures { Writes (sink_of W.contents writer.old) (sink_of W.contents writer.new)
        (flat_map (once_line notation) (payload_lines mark payload.now)) }
{
    if mark.is_new {
        write_payload(writer, mark.index, payload, notation);
    }
}

/// Writes the line of a payload.
fn write_payload<W: Write>(writer: &mut Watched<W>, index: u64, payload: &[u8], notation: Notation)
    ensures { Writes (sink_of W.contents writer.old) (sink_of W.contents writer.new)
        (once_line notation (PayloadLine index payload.now)) }
{
    begin(writer, notation, b"payload");
    put(writer, notation, b"payload_index", Value::Number(index));
    put(writer, notation, b"payload", Value::Base64(payload));
    end(writer, notation);
}

/// Writes the line that asks whether the key of the payload with this index is to be trusted.
fn write_trust<W: Write>(writer: &mut Watched<W>, index: u64, session: &Session, notation: Notation)
    ensures { Writes (sink_of W.contents writer.old) (sink_of W.contents writer.new)
        (once_line notation (TrustLine index session.now)) }
{
    begin(writer, notation, b"trust?");
    put(writer, notation, b"payload_index", Value::Number(index));
    put_about_session(writer, notation, session);
    end(writer, notation);
}

/// Writes the lines about the blocks of a session.
fn write_blocks<W: Write>(
    writer: &mut Watched<W>,
    index: u64,
    session: &AskedSession,
    notation: Notation,
)
    ensures { Writes (sink_of W.contents writer.old) (sink_of W.contents writer.new)
        (flat_map (λ b. once_line notation (YesLine index session.now.session b)) session.now.blocks) }
{
    for block in session.blocks.as_slice() {
        write_yes(writer, index, &session.session, block, notation);
    }
}

/// Writes the line that asks whether the signature of a block is right under the key of the payload with this index.
fn write_yes<W: Write>(
    writer: &mut Watched<W>,
    index: u64,
    session: &Session,
    block: &AskedBlock,
    notation: Notation,
)
    ensures { Writes (sink_of W.contents writer.old) (sink_of W.contents writer.new)
        (once_line notation (YesLine index session.now block.now)) }
{
    let octets = block.octets.as_slice();
    let signature = block.signature.as_slice();
    begin(writer, notation, b"yes?");
    put(writer, notation, b"payload_index", Value::Number(index));
    put(writer, notation, b"octets", Value::Base64(octets));
    put(writer, notation, b"signature", Value::Base64(signature));
    put_about_block(writer, notation, session, block);
    end(writer, notation);
}
