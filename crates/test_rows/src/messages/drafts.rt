//! Drafts: what is written, and which part is refused.
use ss_message::{
    Draft, DraftElement, DraftElements, DraftFault, DraftParameter, DraftParameters, Field, Offset,
    Part, Stamp, write_message,
};
use ss_octets::Bytes;
use std::alloc::{AllocError, Global};
use std::test::Fail;
use test_devices::Cells;

fn bytes(alloc: Global, octets: &[u8]) -> Result<Bytes, AllocError> {
    Ok(Bytes::from_vec(Vec::from_slice(alloc, octets)?))
}

/// A draft of PRI 13 with all else absent.
fn empty(alloc: Global) -> Draft {
    Draft {
        pri: 13,
        stamp: None,
        hostname: Field::Nil,
        app_name: Field::Nil,
        procid: Field::Nil,
        msgid: Field::Nil,
        elements: DraftElements::from_vec(Vec::new(alloc)),
        msg: None,
    }
}

/// An element with one parameter.
fn element(
    alloc: Global,
    id: &[u8],
    name: &[u8],
    value: &[u8],
) -> Result<DraftElement, AllocError> {
    let mut parameters = Vec::new(alloc);
    parameters.push(DraftParameter {
        name: bytes(alloc, name)?,
        value: bytes(alloc, value)?,
    })?;
    Ok(DraftElement {
        id: bytes(alloc, id)?,
        parameters: DraftParameters::from_vec(parameters),
    })
}

/// Whether the draft is written so.
fn is_written(alloc: Global, draft: &Draft, want: &[u8]) -> Result<bool, DraftFault> {
    Ok(write_message(alloc, draft)?.as_slice() == want)
}

/// The fault of a draft, or none.
fn fault_of(alloc: Global, draft: &Draft) -> Option<DraftFault> {
    match write_message(alloc, draft) {
        Ok(_) => None,
        Err(fault) => Some(fault),
    }
}

/// An element with a parameter whose value is escaped, and one with none.
fn two_elements(alloc: Global) -> Result<DraftElements, AllocError> {
    let mut elements = Vec::new(alloc);
    elements.push(element(alloc, b"a@1", b"b", b"]\"\\")?)?;
    elements.push(DraftElement {
        id: bytes(alloc, b"c")?,
        parameters: DraftParameters::from_vec(Vec::new(alloc)),
    })?;
    Ok(DraftElements::from_vec(elements))
}

/// The message of a draft with nothing absent.
pub const FULL: &[u8] = b"<191>1 2009-05-03T14:00:39Z h s -- m [a@1 b=\"\\]\\\"\\\\\"][c] ";

/// The draft of it.
pub(crate) fn full(alloc: Global) -> Result<Draft, AllocError> {
    let mut draft = header(alloc, 191, b"h|s|--|m")?;
    draft.stamp = Stamp::new(2009, 5, 3, 14, 0, 39, 0, 0, Offset::Utc);
    draft.elements = two_elements(alloc)?;
    draft.msg = Some(bytes(alloc, b"")?);
    Ok(draft)
}

fn is_empty_written(alloc: Global) -> Result<bool, DraftFault> {
    is_written(alloc, &empty(alloc), b"<13>1 - - - - - -")
}

fn is_full_written(alloc: Global) -> Result<bool, DraftFault> {
    is_written(alloc, &full(alloc)?, FULL)
}

#[test]
fn written(rt: HostRuntime) -> Result<(), Fail> {
    assert!(rt; is_empty_written(rt.alloc())?);
    assert!(rt; is_full_written(rt.alloc())?);
    Ok(())
}

/// A field, absent for no octets.
fn field(alloc: Global, text: &[u8]) -> Result<Field, AllocError> {
    if text.is_empty() {
        return Ok(Field::Nil);
    }
    Ok(Field::Text(bytes(alloc, text)?))
}

/// The part that is refused, a PRI, and the cells of the four fields.
#[rattlefmt::skip]
const HEADERS: [(Part, u8, &[u8]); 8] = [
    (Part::Pri, 192, b"-|||"),
    (Part::Pri, 255, b"|||"),
    (Part::Hostname, 191, b"-|-||"),
    (Part::Hostname, 0, b"a b|||"),
    (Part::AppName, 13, b"h|\x7F|-|"),
    (Part::ProcId, 13, b"h||-|-"),
    (Part::MsgId, 13, b"h|s|p|-"),
    (Part::MsgId, 13, b"|||012345678901234567890123456789012"),
];

/// The part that is refused, and the cells of SD-ID, name and value of a parameter, of a second SD-ID, and of MSG.
#[rattlefmt::skip]
const BODIES: [(Part, &[u8]); 8] = [
    (Part::Value, b"a|b|\xFF|a|\xEF\xBB\xBF\xFF"),
    (Part::Name, b"a||\xFF|a|"),
    (Part::Name, b"a]|b|c|d|"),
    (Part::Name, b"|b|c|d|"),
    (Part::Name, b"a|b=|\xFF|a|"),
    (Part::Name, b"a|012345678901234567890123456789012||d|"),
    (Part::RepeatedId, b"a|b|c|a|\xEF\xBB\xBF\xFF"),
    (Part::Msg, b"a|b|c|d|\xEF\xBB\xBF\xFF"),
];

fn put_fields(draft: &mut Draft, alloc: Global, cells: Cells<'_>) -> Result<(), AllocError> {
    let mut cells = cells;
    draft.hostname = field(alloc, cells.octets())?;
    draft.app_name = field(alloc, cells.octets())?;
    draft.procid = field(alloc, cells.octets())?;
    draft.msgid = field(alloc, cells.octets())?;
    Ok(())
}

/// The draft of a header.
fn header(alloc: Global, pri: u8, texts: &[u8]) -> Result<Draft, AllocError> {
    let mut draft = empty(alloc);
    draft.pri = pri;
    put_fields(&mut draft, alloc, Cells::new(texts))?;
    Ok(draft)
}

fn put_elements(
    elements: &mut Vec<DraftElement>,
    alloc: Global,
    cells: &mut Cells<'_>,
) -> Result<(), AllocError> {
    let (id, name, value) = (cells.octets(), cells.octets(), cells.octets());
    elements.push(element(alloc, id, name, value)?)?;
    Ok(elements.push(element(alloc, cells.octets(), b"b", b"")?)?)
}

/// The draft of two elements and a MSG.
fn body(alloc: Global, texts: &[u8]) -> Result<Draft, AllocError> {
    let mut cells = Cells::new(texts);
    let mut elements = Vec::new(alloc);
    put_elements(&mut elements, alloc, &mut cells)?;
    let mut draft = empty(alloc);
    draft.elements = DraftElements::from_vec(elements);
    draft.msg = Some(bytes(alloc, cells.octets())?);
    Ok(draft)
}

/// Whether a header is refused for this part.
fn is_bad_header(alloc: Global, pri: u8, texts: &[u8], part: Part) -> Result<bool, AllocError> {
    Ok(fault_of(alloc, &header(alloc, pri, texts)?) == bad(part))
}

fn is_bad_body(alloc: Global, texts: &[u8], part: Part) -> Result<bool, AllocError> {
    Ok(fault_of(alloc, &body(alloc, texts)?) == bad(part))
}

/// Whether a text without an octet, which is no text, is refused.
fn is_no_text(alloc: Global) -> Result<bool, AllocError> {
    let mut draft = empty(alloc);
    draft.hostname = Field::Text(bytes(alloc, b"")?);
    Ok(fault_of(alloc, &draft) == bad(Part::Hostname))
}

/// This part is refused.
fn bad(part: Part) -> Option<DraftFault> {
    Some(DraftFault::Bad { part })
}

#[test]
fn not_written(rt: HostRuntime) -> Result<(), Fail> {
    for (part, pri, texts) in &HEADERS {
        assert!(rt; is_bad_header(rt.alloc(), *pri, texts, *part)?, "{texts:?}");
    }
    for (part, texts) in &BODIES {
        assert!(rt; is_bad_body(rt.alloc(), texts, *part)?, "{texts:?}");
    }
    assert!(rt; is_no_text(rt.alloc())?);
    Ok(())
}
