//! The text of the questions to a signature scheme.
ghost use Rattle.std.specs.Prelude.{◌≡◌, flat_map};
ghost use Rattle.ss_frame.specs.Watched.{sink_of};
ghost use Rattle.ss_report.specs.log.Writing.{Writes};
ghost use Rattle.ss_report.specs.texts.Asked.{AskTrust, AskYes, session_askings};
ghost use Rattle.ss_report.specs.texts.QuestionText.{asking_lines, asking_text};

use crate::notation::Notation;
use crate::records::record::{begin, end, put};
use crate::records::value::Value;
use crate::texts::question_fields::{put_about_block, put_about_session};
use ss_frame::Watched;
use ss_review::{AskedBlock, AskedSession};
use std::io::Write;

/// Writes the text of the questions about these sessions, a line for each in their order, ended by LF. Nothing is
/// allocated.
pub(crate) fn write_questions<W: Write>(
    writer: &mut Watched<W>,
    sessions: &[AskedSession],
    notation: Notation,
)
    ensures { Writes (sink_of W.contents writer.old) (sink_of W.contents writer.new)
        (asking_lines notation sessions.now) }
{
    for session in sessions {
        write_session_questions(writer, session, notation);
    }
}

/// Writes the lines about a session.
fn write_session_questions<W: Write>(
    writer: &mut Watched<W>,
    session: &AskedSession,
    notation: Notation,
)
    ensures { Writes (sink_of W.contents writer.old) (sink_of W.contents writer.new)
        (flat_map (asking_text notation) (session_askings session.now)) }
{
    write_trust(writer, session, notation);
    write_blocks(writer, session, notation);
}

/// Writes the lines about the blocks of a session.
fn write_blocks<W: Write>(writer: &mut Watched<W>, session: &AskedSession, notation: Notation)
    ensures { Writes (sink_of W.contents writer.old) (sink_of W.contents writer.new) (flat_map (λ b.
        asking_text notation (AskYes session.now b)) session.now.blocks) }
{
    for block in session.blocks.as_slice() {
        write_yes(writer, session, block, notation);
    }
}

/// Writes the line that asks whether the key of a session's payload is to be trusted.
fn write_trust<W: Write>(writer: &mut Watched<W>, session: &AskedSession, notation: Notation)
    ensures { Writes (sink_of W.contents writer.old) (sink_of W.contents writer.new)
        (asking_text notation (AskTrust session.now)) }
{
    let payload = session.payload.as_slice();
    begin(writer, notation, b"trust?");
    put(writer, notation, b"payload", Value::Base64(payload));
    put_about_session(writer, notation, &session.session);
    end(writer, notation);
}

/// Writes the line that asks whether the signature of a block is right under the key of its session's payload.
fn write_yes<W: Write>(
    writer: &mut Watched<W>,
    session: &AskedSession,
    block: &AskedBlock,
    notation: Notation,
)
    ensures { Writes (sink_of W.contents writer.old) (sink_of W.contents writer.new)
        (asking_text notation (AskYes session.now block.now)) }
{
    let payload = session.payload.as_slice();
    let octets = block.octets.as_slice();
    let signature = block.signature.as_slice();
    begin(writer, notation, b"yes?");
    put(writer, notation, b"payload", Value::Base64(payload));
    put(writer, notation, b"octets", Value::Base64(octets));
    put(writer, notation, b"signature", Value::Base64(signature));
    put_about_block(writer, notation, &session.session, block);
    end(writer, notation);
}
