//! The examples of RFC 5424, section 6.5, and the values of parameters.
use ss_message::{Element, Message, Parameter, Span, Stamp, escape, parse, value, write_stamp};
use ss_octets::NoMemory;
use std::alloc::Global;
use std::test::Fail;
use test_devices::Cells;

const FIRST: &[u8] =
    b"<34>1 2003-10-11T22:14:15.003Z mymachine.example.com su - ID47 - \xEF\xBB\xBF'su root' failed for lonvick on \
        /dev/pts/8";

const SECOND: &[u8] =
    b"<165>1 2003-08-24T05:14:15.000003-07:00 192.0.2.1 myproc 8710 - - %% It's time to make the do-nuts.";

const THIRD: &[u8] =
    b"<165>1 2003-10-11T22:14:15.003Z mymachine.example.com evntslog - ID47 [exampleSDID@32473 iut=\"3\" \
        eventSource=\"Application\" eventID=\"1011\"] \xEF\xBB\xBFAn application event log entry...";

pub const FOURTH: &[u8] =
    b"<165>1 2003-10-11T22:14:15.003Z mymachine.example.com evntslog - ID47 [exampleSDID@32473 iut=\"3\" \
        eventSource=\"Application\" eventID=\"1011\"][examplePriority@32473 class=\"high\"]";

/// A text with a block element between two others, and a MSG that looks like one.
const BLOCK: &[u8] =
    b"<110>1 - h s - - [x@1 SIGN=\"AAAA\"][ssign VER=\"0111\" RSID=\"1\" SG=\"0\" SPRI=\"0\" GBC=\"0\" FMN=\"1\" \
        CNT=\"1\" HB=\"qZk+NkcGgWq6PiVxeFDCbJzQ2J0=\" SIGN=\"AAAA\"][y@1 a=\"\\]\"] hello SIGN=\"AAAA\"";

/// The octets of a span, or none where it passes the source.
fn text_of<'a>(source: &'a [u8], span: Span) -> Option<&'a [u8]> {
    source.get(span.start..span.end)
}

/// What a text is read as: each part as it stands, and the SD-IDs in order.
#[derive(Clone, Copy)]
struct Example {
    name: &'static str,
    text: &'static [u8],
    pri: u8,
    stamp: &'static [u8],
    fields: [&'static [u8]; 4],
    ids: &'static [&'static [u8]],
    msg: Option<&'static [u8]>,
}

const EXAMPLES: [Example; 5] = [
    Example {
        name: "the first",
        text: FIRST,
        pri: 34,
        stamp: b"2003-10-11T22:14:15.003Z",
        fields: [b"mymachine.example.com", b"su", b"-", b"ID47"],
        ids: &[],
        msg: Some(b"\xEF\xBB\xBF'su root' failed for lonvick on /dev/pts/8"),
    },
    Example {
        name: "the second",
        text: SECOND,
        pri: 165,
        stamp: b"2003-08-24T05:14:15.000003-07:00",
        fields: [b"192.0.2.1", b"myproc", b"8710", b"-"],
        ids: &[],
        msg: Some(b"%% It's time to make the do-nuts."),
    },
    Example {
        name: "the third",
        text: THIRD,
        pri: 165,
        stamp: b"2003-10-11T22:14:15.003Z",
        fields: [b"mymachine.example.com", b"evntslog", b"-", b"ID47"],
        ids: &[b"exampleSDID@32473"],
        msg: Some(b"\xEF\xBB\xBFAn application event log entry..."),
    },
    Example {
        name: "the fourth",
        text: FOURTH,
        pri: 165,
        stamp: b"2003-10-11T22:14:15.003Z",
        fields: [b"mymachine.example.com", b"evntslog", b"-", b"ID47"],
        ids: &[b"exampleSDID@32473", b"examplePriority@32473"],
        msg: None,
    },
    Example {
        name: "a block among elements",
        text: BLOCK,
        pri: 110,
        stamp: b"-",
        fields: [b"h", b"s", b"-", b"-"],
        ids: &[b"x@1", b"ssign", b"y@1"],
        msg: Some(b"hello SIGN=\"AAAA\""),
    },
];

/// Whether the stamp has that text; `-` for none.
fn is_stamp(alloc: Global, stamp: &Option<Stamp>, text: &[u8]) -> Result<bool, NoMemory> {
    match stamp {
        Some(stamp) => Ok(write_stamp(alloc, stamp)?.as_slice() == text),
        None => Ok(text == b"-".as_slice()),
    }
}

/// Whether PRI, the four fields of the header, and MSG are those.
fn has_fields(row: &Example, m: &Message<'_>) -> bool {
    let spans = [m.hostname, m.app_name, m.procid, m.msgid];
    for (span, field) in spans.iter().zip(&row.fields) {
        if text_of(row.text, *span) != Some(*field) {
            return false;
        }
    }
    let msg = match m.msg {
        Some(span) => text_of(row.text, span),
        None => None,
    };
    (m.pri, msg) == (row.pri, row.msg)
}

/// Whether the SD-IDs are those, in that order.
fn has_ids(row: &Example, elements: &[Element]) -> bool {
    for (element, id) in elements.iter().zip(row.ids) {
        if text_of(row.text, element.id) != Some(*id) {
            return false;
        }
    }
    elements.len() == row.ids.len()
}

/// Whether the text of the row is read as the row has it.
fn is_read(alloc: Global, row: &Example) -> Result<bool, NoMemory> {
    match parse(alloc, row.text) {
        Ok(m) => Ok(
            is_stamp(alloc, &m.stamp, row.stamp)?
                && has_fields(row, &m)
                && has_ids(row, m.elements.as_slice()),
        ),
        Err(_) => Ok(false),
    }
}

#[test]
fn examples(rt: HostRuntime) -> Result<(), Fail> {
    for row in &EXAMPLES {
        assert!(rt; is_read(rt.alloc(), row)?, "{}", row.name);
    }
    Ok(())
}

/// An SD-ID, and which element of the fourth example has it.
const PLACES: [(&[u8], Option<usize>); 4] = [
    (b"exampleSDID@32473", Some(0)),
    (b"examplePriority@32473", Some(1)),
    (b"examplesdid@32473", None),
    (b"example", None),
];

/// Whether the parameters are three, and the last of them is that one.
fn has_parameters(parameters: &[Parameter]) -> bool {
    match parameters.last() {
        Some(last) => {
            parameters.len() == 3
                && text_of(FOURTH, last.name) == Some(b"eventID".as_slice())
                && text_of(FOURTH, last.value) == Some(b"1011".as_slice())
        }
        None => false,
    }
}

/// Whether the elements of the fourth example stand in these places, and the first has these parameters.
fn has_elements(m: &Message<'_>) -> bool {
    for (id, place) in &PLACES {
        if m.element(id) != *place {
            return false;
        }
    }
    match m.elements.as_slice().first() {
        Some(first) => has_parameters(first.parameters.as_slice()),
        None => false,
    }
}

/// Whether a message has its length, its elements by name, and its host.
fn has_names(m: &Message<'_>) -> bool {
    let host = m.hostname;
    if host.start > host.end || host.end > m.source.len() || m.part(host) != b"h".as_slice() {
        return false;
    }
    m.source.len() == 177 && m.element(b"ssign") == Some(1) && m.element(b"z").is_none()
}

/// Whether a parameter lies between its SP and its closing quote.
fn has_edges(source: &[u8], sign: &Parameter) -> bool {
    let before = sign.name.start.saturating_sub(1);
    let behind = sign.value.end.saturating_add(1);
    text_of(source, sign.name) == Some(b"SIGN".as_slice())
        && (before, behind) == (134, 146)
        && source.get(before..behind) == Some(b" SIGN=\"AAAA\"".as_slice())
        && source.get(behind..) == Some(b"][y@1 a=\"\\]\"] hello SIGN=\"AAAA\"".as_slice())
}

fn has_value(m: &Message<'_>, value: Span) -> bool {
    value.start <= value.end && value.end <= m.source.len() && m.part(value) == b"AAAA".as_slice()
}

/// Whether the second element ends in that parameter, in its place.
fn has_sign(m: &Message<'_>) -> bool {
    let Some(element) = m.elements.as_slice().get(1) else {
        return false;
    };
    match element.parameters.as_slice().last() {
        Some(sign) => has_edges(m.source, sign) && has_value(m, sign.value),
        None => false,
    }
}

/// Whether the fourth example has its elements.
fn is_fourth(alloc: Global) -> bool {
    match parse(alloc, FOURTH) {
        Ok(m) => has_elements(&m),
        Err(_) => false,
    }
}

#[test]
fn elements(rt: HostRuntime) {
    assert!(rt; is_fourth(rt.alloc()));
}

/// Whether the text with a block has its parts in their places.
fn is_block(alloc: Global) -> bool {
    match parse(alloc, BLOCK) {
        Ok(m) => has_names(&m) && has_sign(&m),
        Err(_) => false,
    }
}

#[test]
fn places(rt: HostRuntime) {
    assert!(rt; is_block(rt.alloc()));
}

/// A value as it stands, and what it stands for, with `;` between two values.
const RAW: &[u8] = b"|;abc|abc;\\]\\\"\\\\\\x|]\"\\\\x;\\|\\;\\\\|\\;\\\\\\|\\\\;\\n|\\n;\
      a\\\"b|a\"b;\\x\\]|\\x];\xC3\xA9\\]|\xC3\xA9]";

/// A text, and how it is escaped.
const ESCAPED: &[u8] = b"]\"\\\\x|\\]\\\"\\\\\\\\x;a [=|a [=";

fn is_value(alloc: Global, row: &[u8]) -> Result<bool, NoMemory> {
    let mut cells = Cells::new(row);
    Ok(value(alloc, cells.octets())?.as_slice() == cells.octets())
}

fn is_escaped(alloc: Global, row: &[u8]) -> Result<bool, NoMemory> {
    let mut cells = Cells::new(row);
    Ok(escape(alloc, cells.octets())?.as_slice() == cells.octets())
}

#[test]
fn values(rt: HostRuntime) -> Result<(), Fail> {
    for row in RAW.split(|octet| *octet == b';') {
        assert!(rt; is_value(rt.alloc(), row)?, "of {row:?}");
    }
    for row in ESCAPED.split(|octet| *octet == b';') {
        assert!(rt; is_escaped(rt.alloc(), row)?, "of {row:?}");
    }
    Ok(())
}
