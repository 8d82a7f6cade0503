//! What one parse finds of a message: what it is, its session, what is signed of it, and where session and content stand
//! there.
use ss_block::{PlacedReading, Reading, Session, meaning, read_fully, read_placed};
use ss_message::{Field, Part};
use ss_octets::{Bytes, NoMemory};
use std::alloc::Global;

const CERTIFICATE: &[u8] =
    b"<110>1 - h s - - [ssign-cert VER=\"0111\" RSID=\"1\" SG=\"0\" SPRI=\"0\" TPBL=\"27\" INDEX=\"1\" FLEN=\"27\" \
        FRAG=\"2009-05-03T14:00:39Z K S0VZ\" SIGN=\"AAAA\"]";

/// A signature block, and a MSG that looks like one.
const SIGNATURE: &[u8] =
    b"<110>1 - h s 7 - [ssign VER=\"0111\" RSID=\"9\" SG=\"0\" SPRI=\"0\" GBC=\"0\" FMN=\"1\" CNT=\"1\" \
        HB=\"qZk+NkcGgWq6PiVxeFDCbJzQ2J0=\" SIGN=\"AAAA\"] hello SIGN=\"AAAA\"";

/// A certificate block whose fragment has three escapes and a `\` that escapes nothing.
const ESCAPED: &[u8] =
    b"<110>1 - h s - - [ssign-cert VER=\"0111\" RSID=\"1\" SG=\"0\" SPRI=\"0\" TPBL=\"27\" INDEX=\"1\" FLEN=\"5\" \
        FRAG=\"\\\"\\]\\\\\\n\" SIGN=\"AAAA\"][x]";

/// The octets of a field; none where it is absent.
fn octets(field: &Field) -> Option<&[u8]> {
    match field {
        Field::Nil => None,
        Field::Text(octets) => Some(octets.as_slice()),
    }
}

/// Whether the host, the application and the number of the session are those.
fn is_session(session: &Session, procid: Option<&[u8]>, rsid: u64) -> bool {
    octets(&session.host) == Some(b"h".as_slice())
        && octets(&session.app) == Some(b"s".as_slice())
        && octets(&session.procid) == procid
        && session.rsid == rsid
}

/// Whether what is signed is the text up to one octet, and from another.
fn is_signed(signed: &Bytes, text: &[u8], until: usize, from: usize) -> bool {
    let octets = signed.as_slice();
    octets.get(..until) == text.get(..until) && octets.get(until..) == text.get(from..)
}

/// Whether the text is a certificate block, or else a signature block.
fn is_kind(reading: &Reading, certificate: bool) -> bool {
    match reading {
        Reading::Certificate(_) => certificate,
        Reading::Signature(_) => !certificate,
        _ => false,
    }
}

/// The session that is spelled at its places in what is signed; none where one of them lies outside.
fn session_of_placed(alloc: Global, told: &PlacedReading) -> Result<Option<Session>, NoMemory> {
    let (Some(signed), Some(sender)) = (&told.signed, told.sender) else {
        return Ok(None);
    };
    let octets = signed.as_slice();
    if sender.host.start > sender.host.end || sender.host.end > octets.len() {
        return Ok(None);
    }
    if sender.app.start > sender.app.end || sender.app.end > octets.len() {
        return Ok(None);
    }
    if sender.procid.start > sender.procid.end || sender.procid.end > octets.len() {
        return Ok(None);
    }
    Ok(Some(sender.session(alloc, octets)?))
}

/// Whether HB or FRAG has these octets, as they stand in what is signed, after the session, and RSID is that of the
/// block.
fn has_content(told: &PlacedReading, content: &[u8], rsid: u64) -> bool {
    let (Some(signed), Some(span), Some(sender)) = (&told.signed, told.content, told.sender) else {
        return false;
    };
    let ends = [sender.host.end, sender.app.end, sender.procid.end];
    signed.as_slice().get(span.start..span.end) == Some(content)
        && ends.into_iter().all(|end| end <= span.start)
        && sender.rsid == rsid
}

/// A text, whether it is a certificate block, the end of its session, what is signed of it, and the value of HB or FRAG.
type Row = (
    &'static [u8],
    bool,
    (Option<&'static [u8]>, u64),
    (usize, usize),
    &'static [u8],
);

const ROWS: [Row; 3] = [
    (
        CERTIFICATE,
        true,
        (None, 1),
        (129, 141),
        b"2009-05-03T14:00:39Z K S0VZ",
    ),
    (
        SIGNATURE,
        false,
        (Some(b"7"), 9),
        (117, 129),
        b"qZk+NkcGgWq6PiVxeFDCbJzQ2J0=",
    ),
    (ESCAPED, true, (None, 1), (109, 121), b"\\\"\\]\\\\\\n"),
];

/// What a text is found to be, its session, and what is signed of it.
type Told<'a> = (&'a Reading, &'a Option<Session>, &'a Option<Bytes>);

fn is_told(told: Told<'_>, row: &Row) -> bool {
    let (reading, session, signed) = told;
    let (text, certificate, (procid, rsid), (until, from), _) = *row;
    match (session, signed) {
        (Some(session), Some(signed)) => {
            is_kind(reading, certificate)
                && is_session(session, procid, rsid)
                && is_signed(signed, text, until, from)
        }
        _ => false,
    }
}

/// Whether a full reading finds what the row has.
fn is_read_fully(alloc: Global, row: &Row) -> Result<bool, NoMemory> {
    let full = read_fully(alloc, row.0)?;
    Ok(is_told((&full.reading, &full.session, &full.signed), row))
}

/// Whether a reading of places does.
fn is_read_placed(alloc: Global, row: &Row) -> Result<bool, NoMemory> {
    let placed = read_placed(alloc, row.0)?;
    let session = session_of_placed(alloc, &placed)?;
    Ok(
        is_told((&placed.reading, &session, &placed.signed), row)
            && has_content(&placed, row.4, row.2.1),
    )
}

/// What a text is that is no block: the part at fault, or none.
fn fault_of(reading: &Reading) -> Option<(Part, usize)> {
    match reading {
        Reading::Unparsed { part, pos } => Some((*part, *pos)),
        _ => None,
    }
}

/// Whether a text is reported to be no block, for this fault or else plain.
fn is_no_block(told: Told<'_>, fault: Option<(Part, usize)>) -> bool {
    let (reading, session, signed) = told;
    fault_of(reading) == fault
        && matches!(reading, Reading::Plain) == fault.is_none()
        && session.is_none()
        && signed.is_none()
}

/// Whether a full reading reports so of a text.
fn is_no_block_read(
    alloc: Global,
    text: &[u8],
    fault: Option<(Part, usize)>,
) -> Result<bool, NoMemory> {
    let full = read_fully(alloc, text)?;
    Ok(is_no_block((&full.reading, &full.session, &full.signed), fault))
}

/// Whether a reading of places does.
fn is_no_block_placed(
    alloc: Global,
    text: &[u8],
    fault: Option<(Part, usize)>,
) -> Result<bool, NoMemory> {
    let placed = read_placed(alloc, text)?;
    let session = None;
    let told = (&placed.reading, &session, &placed.signed);
    Ok(is_no_block(told, fault) && placed.sender.is_none() && placed.content.is_none())
}

/// Texts that are no block, and the part at fault.
const OTHERS: [(&[u8], Option<(Part, usize)>); 2] = [
    (b"<13>1 - - - - - -", None),
    (b"abc", Some((Part::Pri, 0))),
];

#[test]
fn read_once(rt: HostRuntime) -> Result<(), NoMemory> {
    for row in &ROWS {
        assert!(rt; is_read_fully(rt.alloc(), row)?, "{:?}", row.0);
        assert!(rt; is_read_placed(rt.alloc(), row)?, "{:?}", row.0);
    }
    for (text, fault) in &OTHERS {
        assert!(rt; is_no_block_read(rt.alloc(), text, *fault)?, "{text:?}");
        assert!(rt; is_no_block_placed(rt.alloc(), text, *fault)?, "{text:?}");
    }
    Ok(())
}

fn is_meaning(alloc: Global, content: &[u8], octets: &[u8]) -> Result<bool, NoMemory> {
    Ok(meaning(alloc, content)?.as_slice() == octets)
}

#[test]
fn read_from_content(rt: HostRuntime) -> Result<(), NoMemory> {
    assert!(rt; is_meaning(rt.alloc(), ROWS[2].4, b"\"]\\\\n")?);
    assert!(rt; is_meaning(rt.alloc(), ROWS[0].4, ROWS[0].4)?);
    Ok(())
}
