//! Payload blocks, read, written and cut into pieces.
use crate::blocks::fields::bytes;
use ss_block::{Cut, Kind, Payload, cut};
use ss_message::{Offset, Stamp};
use ss_octets::NoMemory;
use std::alloc::{AllocError, Global};
use std::test::Fail;
use test_devices::Cells;

/// Texts, with `;` between two: the text, its kind and its blob, and what is written of it again: the same, but for an
/// SP after the `N` of a predistributed key.
const ACCEPTED: &[u8] = b"2009-05-03T14:00:39Z K S0VZ|K|KEY|2009-05-03T14:00:39Z K S0VZ;\
     2009-05-03T14:00:39Z C S0VZ|C|KEY|2009-05-03T14:00:39Z C S0VZ;\
     2009-05-03T14:00:39Z P S0VZ|P|KEY|2009-05-03T14:00:39Z P S0VZ;\
     2009-05-03T14:00:39Z N|N||2009-05-03T14:00:39Z N;\
     2009-05-03T14:00:39.5+01:00 U S0VZ|U|KEY|2009-05-03T14:00:39.5+01:00 U S0VZ;\
     - U S0VZ|U|KEY|- U S0VZ;\
     - N|N||- N;\
     - K Sw==|K|K|- K Sw==;\
     - K S0U=|K|KE|- K S0U=;\
     - K /+7d|K|\xFF\xEE\xDD|- K /+7d;\
     2009-05-03T14:00:39Z N |N||2009-05-03T14:00:39Z N";

/// Texts that are no payload, with `|` between two.
const REFUSED: &[u8] =
    b"|-| |- |-K S0VZ|2009-05-03T14:00:39Z|2009-05-03T14:00:39Z |2009-05-03T14:00:39Z N  |\
     2009-05-03T14:00:39Z N S0VZ|2009-05-03T14:00:39Z K|2009-05-03T14:00:39Z K |\
     2009-05-03T14:00:39Z KS0VZ|2009-05-03T14:00:39Z K  S0VZ|2009-05-03T14:00:39Z K S0VZ |\
     2009-05-03T14:00:39Z  K S0VZ| 2009-05-03T14:00:39Z K S0VZ|2009-05-03T14:00:39Z X S0VZ|\
     2009-05-03T14:00:39Z k S0VZ|2009-05-03T14:00:39Z n|2009-05-03T14:00:39Z K S0U|\
     2009-05-03T14:00:39Z K S0V=|2009-05-03T14:00:39Z K Sx==|2009-05-03T14:00:39Z K S0V-|\
     2009-05-03T14:00:60Z K S0VZ|2009-02-29T14:00:39Z K S0VZ|2009-05-03T14:00:39 K S0VZ|\
     2009-05-03t14:00:39z K S0VZ";

/// The stamp of a payload block; none where there is none.
fn stamp_of(alloc: Global, text: &[u8]) -> Result<Option<Stamp>, NoMemory> {
    match Payload::parse(alloc, text)? {
        Some(payload) => Ok(payload.stamp()),
        None => Ok(None),
    }
}

/// 2009-05-03T14:00:39Z.
fn stamp() -> Option<Stamp> {
    Stamp::new(2009, 5, 3, 14, 0, 39, 0, 0, Offset::Utc)
}

/// Whether the text has this stamp.
fn is_stamped(alloc: Global, text: &[u8]) -> Result<bool, NoMemory> {
    let stamp = stamp();
    Ok(stamp.is_some() && stamp_of(alloc, text)? == stamp)
}

/// The kind of a letter.
fn kind_of(letter: &[u8]) -> Option<Kind> {
    match letter.first()? {
        b'C' => Some(Kind::C),
        b'P' => Some(Kind::P),
        b'K' => Some(Kind::K),
        b'N' => Some(Kind::N),
        b'U' => Some(Kind::U),
        _ => None,
    }
}

/// Whether the payload has the kind and the blob of these cells, and is written as the last one.
fn is_payload(alloc: Global, payload: &Payload, cells: Cells<'_>) -> Result<bool, NoMemory> {
    let mut cells = cells;
    let is_kind = kind_of(cells.octets()) == Some(payload.kind());
    let is_read = is_kind && payload.blob().as_slice() == cells.octets();
    Ok(is_read && payload.write(alloc)?.as_slice() == cells.octets())
}

/// Whether a text is read as its row has it.
fn is_read(alloc: Global, row: &[u8]) -> Result<bool, NoMemory> {
    let mut cells = Cells::new(row);
    match Payload::parse(alloc, cells.octets())? {
        Some(payload) => is_payload(alloc, &payload, cells),
        None => Ok(false),
    }
}

fn is_refused(alloc: Global, text: &[u8]) -> Result<bool, NoMemory> {
    Ok(Payload::parse(alloc, text)?.is_none())
}

#[test]
fn texts(rt: HostRuntime) -> Result<(), NoMemory> {
    for row in ACCEPTED.split(|octet| *octet == b';') {
        assert!(rt; is_read(rt.alloc(), row)?, "of {row:?}");
    }
    for text in REFUSED.split(|octet| *octet == b'|') {
        assert!(rt; is_refused(rt.alloc(), text)?, "of {text:?}");
    }
    assert!(rt; is_stamped(rt.alloc(), b"2009-05-03T14:00:39Z K S0VZ")?);
    Ok(())
}

/// Kinds and blobs, with `;` between two, and whether they make a payload: a predistributed key comes without a blob,
/// every other key with one.
const MADE: &[u8] =
    b"N|KEY|no;N||yes;C||no;C|KEY|yes;P||no;P|KEY|yes;K||no;K|KEY|yes;U||no;U|KEY|yes";

/// The most octets of a piece, with `;` between two, and the pieces of 27 octets by index and length.
const CUT: &[u8] = b"20|1|20|21|7;9|1|9|10|9|19|9;27|1|27;9999|1|27;\
     1|1|1|2|1|3|1|4|1|5|1|6|1|7|1|8|1|9|1|10|1|11|1|12|1|13|1|14|1|15|1|16|1|17|1|18|1|19|1|20|1|21|1|22|1|\
     23|1|24|1|25|1|26|1|27|1";

/// Whether a payload of the first two cells is made where the third has `yes`, and only there.
fn is_made(alloc: Global, row: &[u8]) -> Result<bool, AllocError> {
    let mut cells = Cells::new(row);
    let Some(kind) = kind_of(cells.octets()) else {
        return Ok(false);
    };
    let payload = Payload::new(None, kind, bytes(alloc, cells.octets())?);
    Ok(payload.is_some() == (cells.octets() == b"yes".as_slice()))
}

/// Whether these are the pieces of the cells.
fn are_pieces(pieces: &[Cut], cells: Cells<'_>) -> bool {
    let mut cells = cells;
    for piece in pieces {
        let (index, length) = (cells.number(), cells.number());
        if index != Some(piece.index as u64) || length != Some(piece.len as u64) {
            return false;
        }
    }
    cells.rest().is_empty()
}

/// Whether a payload of 27 octets is cut into these pieces, of the size in the first cell at most.
fn is_cut(alloc: Global, row: &[u8]) -> Result<bool, NoMemory> {
    let mut cells = Cells::new(row);
    let size = u16::try_from(cells.number().unwrap_or(0)).unwrap_or(0);
    if size < 1 || size > 9999 {
        return Ok(false);
    }
    let pieces = cut(alloc, b"2009-05-03T14:00:39Z K S0VZ", size)?;
    Ok(are_pieces(pieces.as_slice(), cells))
}

#[test]
fn made_and_cut(rt: HostRuntime) -> Result<(), Fail> {
    for row in MADE.split(|octet| *octet == b';') {
        assert!(rt; is_made(rt.alloc(), row)?, "{row:?}");
    }
    for row in CUT.split(|octet| *octet == b';') {
        assert!(rt; is_cut(rt.alloc(), row)?, "{row:?}");
    }
    Ok(())
}
