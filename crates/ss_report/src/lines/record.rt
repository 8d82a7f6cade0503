//! A line of a report as a record.
ghost use Rattle.std.specs.Prelude.{◌≡◌, ◌++◌, codes};
ghost use Rattle.ss_frame.specs.Watched.{sink_of};
ghost use Rattle.ss_report.specs.log.Writing.{Writes};
ghost use Rattle.ss_report.specs.lines.Lines.{seen};
ghost use Rattle.ss_report.specs.lines.Records.{state_word, suspicion_word, why_word, tally_fields, order_fields};
ghost use Rattle.ss_report.specs.lines.Records.{block_kind, kind_of, fields_of, record_of, yes_or_no};
ghost use Rattle.ss_report.specs.records.Record.{field, Number, Word};
ghost use Rattle.ss_report.specs.records.Fields.{session_fields, group_fields};
ghost use Rattle.ss_report.specs.records.Written.{fields_in, written};
ghost use Rattle.ss_report.specs.texts.Asked.{parameter_fields};

use crate::lines::line::Line;
use crate::lines::order::Order;
use crate::lines::tally::Tally;
use crate::notation::Notation;
use crate::records::fields::{put_group, put_session, put_spoilt, put_stretch};
use crate::records::record::{begin, end, put};
use crate::records::value::Value;
use crate::strangers::suspects::{Suspect, Suspicion};
use crate::texts::question_fields::put_parameters;
use ss_block::{Group, Session};
use ss_frame::Watched;
use ss_review::{AskedParameters, LogBlock, MissingRun, SessionState, Why};
use std::io::Write;

/// Writes a line in a notation. Nothing is allocated.
pub(crate) fn write_line<W: Write>(writer: &mut Watched<W>, notation: Notation, line: Line<'_>)
    ensures { Writes (sink_of W.contents writer.old) (sink_of W.contents writer.new)
        (written notation (record_of (seen line.entry))) }
{
    begin(writer, notation, kind_of(line));
    put_fields(writer, notation, line);
    end(writer, notation);
}

/// The kind of a line.
fn kind_of(line: Line<'_>) -> &'static [u8]
    ensures { result.now ≡ kind_of (seen line.entry) }
{
    match line {
        Line::Session { .. } | Line::Absent { .. } => b"session",
        Line::Ok { .. } => b"ok",
        Line::Gap { .. } => b"gap",
        Line::Hole { .. } => b"hole",
        Line::Early { .. } => b"early",
        Line::Beyond { .. } => b"beyond",
        Line::Tail { .. } => b"tail",
        Line::Blocks { .. } => b"blocks",
        Line::Tally { .. } => b"tally",
        Line::Disorder { .. } => b"disorder",
        Line::Unlisted { .. } => b"unlisted",
        Line::Refused { .. } => b"refused",
        Line::Spoilt { .. } => b"spoilt",
        Line::UnlistedCount { .. } => b"unlisted-count",
        Line::RefusedCount { .. } => b"refused-count",
        Line::SpoiltCount { .. } => b"spoilt-count",
        Line::Damaged { .. } => b"damaged",
        Line::DamagedCount { .. } => b"damaged-count",
        Line::Torn { .. } => b"torn",
        Line::Block { block, .. } => block_kind(block.parameters),
        Line::Sha1 { .. } => b"sha1",
        Line::NotIgnored { .. } => b"not-ignored",
        Line::NoneListed => b"none-listed",
        Line::Empty => b"empty",
        Line::End { .. } => b"end",
    }
}

/// Which kind of block it is.
fn block_kind(parameters: AskedParameters) -> &'static [u8]
    ensures { result.now ≡ block_kind parameters }
{
    match parameters {
        AskedParameters::Signature { .. } => b"signature-block",
        AskedParameters::Certificate { .. } => b"certificate-block",
    }
}

/// Writes the fields of a line in their order.
fn put_fields<W: Write>(writer: &mut Watched<W>, notation: Notation, line: Line<'_>)
    ensures { Writes (sink_of W.contents writer.old) (sink_of W.contents writer.new)
        (fields_in notation (fields_of (seen line.entry))) }
{
    match line {
        Line::Session { session, state } => put_state(writer, notation, session, state),
        Line::Ok {
            session,
            group,
            number,
            place,
        } => put_ok(writer, notation, session, group, number, u64::from(place)),
        Line::Gap {
            session,
            group,
            number,
            why,
        } => put_gap(writer, notation, session, group, number, why),
        Line::Hole {
            session,
            group,
            first,
            last,
        }
        | Line::Early {
            session,
            group,
            first,
            last,
        }
        | Line::Beyond {
            session,
            group,
            first,
            last,
        } => put_numbers(writer, notation, session, group, first, last),
        Line::Tail { session, tail } => {
            put_numbers(writer, notation, session, tail.group, tail.first, tail.last)
        }
        Line::Blocks { session, run } => put_blocks(writer, notation, session, run),
        Line::Absent { session } => put_absent(writer, notation, session),
        Line::Tally {
            session,
            group,
            tally,
        } => put_tally(writer, notation, session, group, tally),
        Line::Disorder {
            session,
            group,
            order,
        } => put_disorder(writer, notation, session, group, order),
        Line::Unlisted { place } | Line::Refused { place } | Line::Sha1 { place } => {
            put(writer, notation, b"place", Value::Number(u64::from(place)))
        }
        Line::Spoilt { place, cause } => put_spoilt(writer, notation, u64::from(place), cause),
        Line::UnlistedCount { count }
        | Line::RefusedCount { count }
        | Line::SpoiltCount { count } => put(writer, notation, b"count", Value::Number(count)),
        Line::Damaged {
            place,
            offset,
            length,
        } => put_stretch(writer, notation, u64::from(place), offset, length),
        Line::DamagedCount { count, octets } => put_stretches(writer, notation, count, octets),
        Line::Torn { offset } => put(writer, notation, b"offset", Value::Number(offset)),
        Line::Block { block, is_verified } => put_block(writer, notation, block, is_verified),
        Line::NotIgnored { suspect } => put_suspect(writer, notation, suspect),
        Line::NoneListed => {}
        Line::Empty => {}
        Line::End { count } => put(writer, notation, b"count", Value::Number(u64::from(count))),
    }
}

/// Writes the session and its state.
#[tactic(auto, using(crate::proofs::of_writing::Records::fields_then))]
fn put_state<W: Write>(
    writer: &mut Watched<W>,
    notation: Notation,
    session: &Session,
    state: SessionState,
)
    ensures { Writes (sink_of W.contents writer.old) (sink_of W.contents writer.new) (fields_in notation
        (session_fields session.now ++ field (codes "state") (Word (state_word state)))) }
{
    put_session(writer, notation, session);
    put(
        writer,
        notation,
        b"state",
        Value::Word(word_of_state(state)),
    );
}

/// The word of a state.
fn word_of_state(state: SessionState) -> &'static [u8]
    ensures { result.now ≡ state_word state }
{
    match state {
        SessionState::Joined => b"joined",
        SessionState::Disputed => b"disputed",
        SessionState::Incomplete => b"incomplete",
        SessionState::Malformed => b"malformed",
        SessionState::Untrusted => b"untrusted",
        SessionState::Unaccepted => b"unaccepted",
    }
}

/// Writes the session and that it is absent.
#[tactic(auto, using(crate::proofs::of_writing::Records::fields_then))]
fn put_absent<W: Write>(writer: &mut Watched<W>, notation: Notation, session: &Session)
    ensures { Writes (sink_of W.contents writer.old) (sink_of W.contents writer.new) (fields_in notation
        (session_fields session.now ++ field (codes "state") (Word (codes "absent")))) }
{
    put_session(writer, notation, session);
    put(writer, notation, b"state", Value::Word(b"absent"));
}

/// Writes the session, the group, the number and the place.
#[tactic(auto, using(crate::proofs::of_writing::Records::four_fields))]
fn put_ok<W: Write>(
    writer: &mut Watched<W>,
    notation: Notation,
    session: &Session,
    group: Group,
    number: u64,
    place: u64,
)
    ensures { Writes (sink_of W.contents writer.old) (sink_of W.contents writer.new) (fields_in notation
        (session_fields session.now ++ group_fields group ++ field (codes "number") (Number number)
        ++ field (codes "place") (Number place))) }
{
    put_session(writer, notation, session);
    put_group(writer, notation, group);
    put(writer, notation, b"number", Value::Number(number));
    put(writer, notation, b"place", Value::Number(place));
}

/// Writes the session, the group, the number and why no message is listed for it.
#[tactic(auto, using(crate::proofs::of_writing::Records::four_fields))]
fn put_gap<W: Write>(
    writer: &mut Watched<W>,
    notation: Notation,
    session: &Session,
    group: Group,
    number: u64,
    why: Why,
)
    ensures { Writes (sink_of W.contents writer.old) (sink_of W.contents writer.new) (fields_in notation
        (session_fields session.now ++ group_fields group ++ field (codes "number") (Number number)
        ++ field (codes "why") (Word (why_word why)))) }
{
    put_session(writer, notation, session);
    put_group(writer, notation, group);
    put(writer, notation, b"number", Value::Number(number));
    put(writer, notation, b"why", Value::Word(word_of_why(why)));
}

/// The word of a reason.
fn word_of_why(why: Why) -> &'static [u8]
    ensures { result.now ≡ why_word why }
{
    match why {
        Why::Lost => b"lost",
        Why::Disputed => b"disputed",
    }
}

/// Writes the session, the group, and the first and the last number.
#[tactic(auto, using(crate::proofs::of_writing::Records::four_fields))]
fn put_numbers<W: Write>(
    writer: &mut Watched<W>,
    notation: Notation,
    session: &Session,
    group: Group,
    first: u64,
    last: u64,
)
    ensures { Writes (sink_of W.contents writer.old) (sink_of W.contents writer.new) (fields_in notation
        (session_fields session.now ++ group_fields group ++ field (codes "first") (Number first)
        ++ field (codes "last") (Number last))) }
{
    put_session(writer, notation, session);
    put_group(writer, notation, group);
    put(writer, notation, b"first", Value::Number(first));
    put(writer, notation, b"last", Value::Number(last));
}

/// Writes the session, and the first and the last GBC.
#[tactic(auto, using(crate::proofs::of_writing::Records::three_fields))]
fn put_blocks<W: Write>(
    writer: &mut Watched<W>,
    notation: Notation,
    session: &Session,
    run: MissingRun,
)
    ensures { Writes (sink_of W.contents writer.old) (sink_of W.contents writer.new) (fields_in notation
        (session_fields session.now ++ field (codes "first") (Number run.first)
        ++ field (codes "last") (Number run.last))) }
{
    put_session(writer, notation, session);
    put(writer, notation, b"first", Value::Number(run.first));
    put(writer, notation, b"last", Value::Number(run.last));
}

/// Writes the session, the group, and the counts of its numbers.
#[tactic(auto, using(crate::proofs::of_writing::Records::three_fields))]
fn put_tally<W: Write>(
    writer: &mut Watched<W>,
    notation: Notation,
    session: &Session,
    group: Group,
    tally: Tally,
)
    ensures { Writes (sink_of W.contents writer.old) (sink_of W.contents writer.new) (fields_in notation
        (session_fields session.now ++ group_fields group ++ tally_fields tally)) }
{
    put_session(writer, notation, session);
    put_group(writer, notation, group);
    put_counts(writer, notation, tally);
}

/// Writes the counts of the numbers of a group.
#[tactic(auto, unfolding(crate::specs::lines::Records::tally_fields))]
fn put_counts<W: Write>(writer: &mut Watched<W>, notation: Notation, tally: Tally)
    ensures { Writes (sink_of W.contents writer.old) (sink_of W.contents writer.new)
        (fields_in notation (tally_fields tally)) }
{
    put(writer, notation, b"ok", Value::Number(tally.listed));
    put(writer, notation, b"lost", Value::Number(tally.lost));
    put(writer, notation, b"disputed", Value::Number(tally.disputed));
    put(writer, notation, b"holes", Value::Wide(tally.holes));
    put(writer, notation, b"first", Value::Number(tally.first));
    put(writer, notation, b"last", Value::Number(tally.last));
}

/// Writes the session, the group, and how its listed messages stand.
#[tactic(auto, using(crate::proofs::of_writing::Records::three_fields))]
fn put_disorder<W: Write>(
    writer: &mut Watched<W>,
    notation: Notation,
    session: &Session,
    group: Group,
    order: Order,
)
    ensures { Writes (sink_of W.contents writer.old) (sink_of W.contents writer.new) (fields_in notation
        (session_fields session.now ++ group_fields group ++ order_fields order)) }
{
    put_session(writer, notation, session);
    put_group(writer, notation, group);
    put_order(writer, notation, order);
}

/// Writes how many listed messages stand in front of the one before them, and the number and the place of the first.
#[tactic(auto, unfolding(crate::specs::lines::Records::order_fields))]
fn put_order<W: Write>(writer: &mut Watched<W>, notation: Notation, order: Order)
    ensures { Writes (sink_of W.contents writer.old) (sink_of W.contents writer.new)
        (fields_in notation (order_fields order)) }
{
    put(writer, notation, b"count", Value::Number(order.count));
    put(writer, notation, b"number", Value::Number(order.number));
    put(
        writer,
        notation,
        b"place",
        Value::Number(u64::from(order.place)),
    );
}

/// Writes the place of a block, whether it is verified, its session, and what it says about itself.
#[tactic(auto, using(crate::proofs::of_writing::Records::four_fields))]
fn put_block<W: Write>(
    writer: &mut Watched<W>,
    notation: Notation,
    block: &LogBlock,
    is_verified: bool,
)
    ensures { Writes (sink_of W.contents writer.old) (sink_of W.contents writer.new) (fields_in notation
        (field (codes "place") (Number block.now.place) ++ field (codes "verified") (Word (yes_or_no is_verified))
        ++ session_fields block.now.session ++ parameter_fields block.now.parameters)) }
{
    put_place(writer, notation, block.place);
    put_verified(writer, notation, is_verified);
    put_session(writer, notation, &block.session);
    put_parameters(writer, notation, block.parameters);
}

/// Writes a place.
fn put_place<W: Write>(writer: &mut Watched<W>, notation: Notation, place: u32)
    ensures { Writes (sink_of W.contents writer.old) (sink_of W.contents writer.new)
        (fields_in notation (field (codes "place") (Number place))) }
{
    put(writer, notation, b"place", Value::Number(u64::from(place)));
}

/// Writes whether a block is verified.
fn put_verified<W: Write>(writer: &mut Watched<W>, notation: Notation, is_verified: bool)
    ensures { Writes (sink_of W.contents writer.old) (sink_of W.contents writer.new)
        (fields_in notation (field (codes "verified") (Word (yes_or_no is_verified)))) }
{
    let word = yes_or_no(is_verified);
    put(writer, notation, b"verified", Value::Word(word));
}

/// Writes the place of a refused block, and why it isn't to be ignored.
#[tactic(auto, using(crate::proofs::of_writing::Records::fields_then))]
fn put_suspect<W: Write>(writer: &mut Watched<W>, notation: Notation, suspect: Suspect)
    ensures { Writes (sink_of W.contents writer.old) (sink_of W.contents writer.new) (fields_in notation
        (field (codes "place") (Number suspect.place)
        ++ field (codes "why") (Word (suspicion_word suspect.suspicion)))) }
{
    put_place(writer, notation, suspect.place);
    put(
        writer,
        notation,
        b"why",
        Value::Word(word_of_suspicion(suspect.suspicion)),
    );
}

/// The word of a suspicion.
fn word_of_suspicion(suspicion: Suspicion) -> &'static [u8]
    ensures { result.now ≡ suspicion_word suspicion }
{
    match suspicion {
        Suspicion::Unjoined => b"unjoined",
        Suspicion::Late => b"late",
    }
}

/// The word of an answer.
fn yes_or_no(is_so: bool) -> &'static [u8]
    ensures { result.now ≡ yes_or_no is_so }
{
    if is_so { b"yes" } else { b"no" }
}

/// Writes how many stretches are damaged, and how many octets they have.
#[tactic(auto, using(crate::proofs::of_writing::Records::fields_then))]
fn put_stretches<W: Write>(writer: &mut Watched<W>, notation: Notation, count: u64, octets: u128)
    ensures { Writes (sink_of W.contents writer.old) (sink_of W.contents writer.new) (fields_in notation
        (field (codes "count") (Number count) ++ field (codes "octets") (Number octets))) }
{
    put(writer, notation, b"count", Value::Number(count));
    put(writer, notation, b"octets", Value::Wide(octets));
}
