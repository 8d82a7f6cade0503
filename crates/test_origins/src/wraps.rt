//! What is signed for odd messages: each beside the text that an originator takes in its place.
use super::settings::{Groups, Setting, config};
use ss_block::Alg;
use ss_octets::{Bytes, NoMemory};
use ss_origin::{OriginFault, plain_pri};
use ss_wrap::{needs_wrap, original, wrap};
use std::alloc::Global;
use std::process::Abort;
use std::test::Fail;

/// A configuration whose head has no PROCID.
const SETTING: Setting = Setting {
    msgid: None,
    alg: Alg::Sha1,
    rsid: 1,
    groups: Groups::One(0),
    per_block: 2,
    copies: 1,
    frag: 500,
};

/// Messages, and the text that is signed for each, without a stamp.
const WRAPPED: [(&[u8], &[u8]); 22] = [
    (b"", b"<13>1 - h s - wrapped - |"),
    (b"hello", b"<13>1 - h s - wrapped - |hello"),
    (b"\0\0", b"<13>1 - h s - wrapped - |\0\0"),
    (b"<34", b"<13>1 - h s - wrapped - |<34"),
    (
        b"<34>Oct 11 22:14:15 m su: failed",
        b"<34>1 - h s - wrapped - |<34>Oct 11 22:14:15 m su: failed",
    ),
    (b"<0>m", b"<0>1 - h s - wrapped - |<0>m"),
    (b"<191>m", b"<191>1 - h s - wrapped - |<191>m"),
    (b"<192>m", b"<13>1 - h s - wrapped - |<192>m"),
    (
        b"<999>1 - h su - - - m",
        b"<13>1 - h s - wrapped - |<999>1 - h su - - - m",
    ),
    (b"<034>m", b"<13>1 - h s - wrapped - |<034>m"),
    (
        b"<34>1 - h aaaaaaaaaaaaaaaaaaaaaaaaaaaaaaaaaaaaaaaaaaaaaaaaa - - - m",
        b"<34>1 - h s - wrapped - |<34>1 - h aaaaaaaaaaaaaaaaaaaaaaaaaaaaaaaaaaaaaaaaaaaaaaaaa - - - m",
    ),
    (
        b"<34>1 - h aaaaaaaaaaaaaaaaaaaaaaaaaaaaaaaaaaaaaaaaaaaaaaaaaaaaaaaaaaaa - - - m",
        b"<34>1 - h s - wrapped - |<34>1 - h aaaaaaaaaaaaaaaaaaaaaaaaaaaaaaaaaaaaaaaaaaaaaaaaaaaaaaaaaaaa - - - m",
    ),
    (
        b"<34>1 - h\xC3\xA9 su - - - m",
        b"<34>1 - h s - wrapped - |<34>1 - h\xC3\xA9 su - - - m",
    ),
    (
        b"<34>1 2016-12-31T23:59:60Z h su - - - m",
        b"<34>1 - h s - wrapped - |<34>1 2016-12-31T23:59:60Z h su - - - m",
    ),
    (
        b"<34>1 2009-05-03T14:00:39.123456789Z h su - - - m",
        b"<34>1 - h s - wrapped - |<34>1 2009-05-03T14:00:39.123456789Z h su - - - m",
    ),
    (
        b"<34>1 - h su - - [a x=\"1\"][a y=\"2\"] m",
        b"<34>1 - h s - wrapped - |<34>1 - h su - - [a x=\"1\"][a y=\"2\"] m",
    ),
    (
        b"<34>1 - h su - - [ssign] m",
        b"<34>1 - h s - wrapped - |<34>1 - h su - - [ssign] m",
    ),
    (
        b"<34>1 - h su - - [a][ssign-cert VER=\"0111\"] m",
        b"<34>1 - h s - wrapped - |<34>1 - h su - - [a][ssign-cert VER=\"0111\"] m",
    ),
    (
        b"<34>1 - h su - - - \xEF\xBB\xBF\xFF",
        b"<34>1 - h s - wrapped - |<34>1 - h su - - - \xEF\xBB\xBF\xFF",
    ),
    (
        b"\xEF\xBB\xBF\xFF",
        b"<13>1 - h s - wrapped - |\xEF\xBB\xBF\xFF",
    ),
    (
        b"<34>1 - h s - wrapped - |",
        b"<34>1 - h s - wrapped - |<34>1 - h s - wrapped - |",
    ),
    (
        b"<13>1 2009-05-03T14:00:39Z a b c wrapped - |m",
        b"<13>1 - h s - wrapped - |<13>1 2009-05-03T14:00:39Z a b c wrapped - |m",
    ),
];

/// Messages that are signed as they are.
const OTHERS: [&[u8]; 15] = [
    b"<34>1 - h su - ID47 - hello",
    b"<34>1 - h aaaaaaaaaaaaaaaaaaaaaaaaaaaaaaaaaaaaaaaaaaaaaaaa - - - m",
    b"<34>1 2009-05-03T14:00:39.123456Z h su - - - m",
    b"<34>1 - h s - wrapped -",
    b"<34>1 - h s - wrapped - ",
    b"<34>1 - h s - wrapped - m",
    b"<34>1 - h s - wrapped -  |m",
    b"<34>1 - h s - wrapped [a] |m",
    b"<34>1 - h s - - - |m",
    b"<34>1 - h s - Wrapped - |m",
    b"<34>1 - h s - wrapped2 - |m",
    b"<34>1 - h s - wrap - |m",
    b"<34>1 - h su - - [ssigned][a] m",
    b"<34>1 - h su - - - \xEF\xBB\xBF\xC3\xA9",
    b"<34>1 - h su - - - \xFF\0",
];

/// The text that is signed for this message.
fn signed(alloc: Global, message: &[u8]) -> Result<Bytes, NoMemory> {
    let Some(config) = config(alloc, &SETTING)? else {
        return Err(NoMemory);
    };
    if needs_wrap(alloc, message)? {
        wrap(alloc, &config.head, None, message)
    } else {
        Ok(Bytes::from_vec(Vec::from_slice(alloc, message)?))
    }
}

/// This text is signed for the message. An originator takes it, and it gives back the message.
fn sees(rt: &(impl Abort + AllocGlobal), message: &[u8], wanted: &[u8]) -> Result<(), OriginFault> {
    let text = signed(rt.alloc(), message)?;
    assert!(rt; text.as_slice() == wanted);
    let _pri = plain_pri(rt.alloc(), text.as_slice())?;
    let found = original(rt.alloc(), text.as_slice())?;
    assert!(rt; found.unwrap_or(text.as_slice()) == message);
    Ok(())
}

#[test]
fn odd_messages_are_wrapped(rt: HostRuntime) -> Result<(), Fail> {
    for (message, wanted) in &WRAPPED {
        assert!(rt; needs_wrap(rt.alloc(), message)?);
        sees(&rt, message, wanted)?;
    }
    Ok(())
}

#[test]
fn others_are_signed_as_they_are(rt: HostRuntime) -> Result<(), Fail> {
    for message in &OTHERS {
        assert!(rt; !needs_wrap(rt.alloc(), message)?);
        sees(&rt, message, message)?;
    }
    Ok(())
}
