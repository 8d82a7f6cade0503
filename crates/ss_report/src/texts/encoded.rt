//! Octets in strict base64 (RFC 4648, section 4), written piece by piece.
ghost use Rattle.std.specs.Prelude.{◌≤◌, length};
ghost use Rattle.ss_frame.specs.Watched.{sink_of};
ghost use Rattle.ss_octets.specs.StrictBase64.{base64};
ghost use Rattle.ss_report.specs.log.Writing.{Writes};

use crate::log::output::write_text;
use base64::engine::general_purpose::STANDARD;
use ss_frame::Watched;
use std::io::Write;

/// How many octets are encoded at once: a multiple of 3, so that no padding stands between two pieces.
const PIECE: usize = 768;

/// How long the text of a piece is.
const PIECE_TEXT: usize = 1024;

/// Writes octets in base64. Nothing is allocated.
pub(crate) fn write_base64<W: Write>(writer: &mut Watched<W>, octets: &[u8])
    ensures { Writes (sink_of W.contents writer.old) (sink_of W.contents writer.new) (base64 octets.now) }
{
    let mut rest = octets;
    while rest.len() > PIECE {
        write_piece(writer, &rest[..PIECE]);
        rest = &rest[PIECE..];
    }
    write_piece(writer, rest);
}

/// Writes at most `PIECE` octets in base64.
#[tactic(auto, unfolding(ss_octets::specs::StrictBase64::base64))]
fn write_piece<W: Write>(writer: &mut Watched<W>, octets: &[u8])
    requires { length octets.now ≤ PIECE }
    ensures { Writes (sink_of W.contents writer.old) (sink_of W.contents writer.new) (base64 octets.now) }
{
    let mut text = [0; PIECE_TEXT];
    let Ok(len) = STANDARD.encode_slice(octets, &mut text) else {
        unreachable!();
    };
    write_text(writer, &text[..len]);
}
