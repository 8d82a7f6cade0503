//! The examples of the READMEs of `ss_octets`, `ss_frame`, `ss_message`, `ss_payload` and `ss_block`, line by line.
use ss_block::{
    Alg, Hash, Joiner, Payload, Reading, Session, classify, hash_of, may_hold_block, session_of,
    signed_bytes,
};
use ss_frame::{FrameFault, FrameReader, Limits, Step, Watched, WriteFault, write_frame};
use ss_message::{Stamp, escape, parse, value};
use ss_octets::strict_base64::decoded;
use ss_octets::{Bytes, NoMemory, cut_first, number_of, put_number};
use std::alloc::Global;
use std::test::Fail;

/// A number that was written and read, the parts of a text, and octets of base64.
type Octets = (
    Vec<u8>,
    Option<u64>,
    Option<(&'static [u8], &'static [u8])>,
    Option<Bytes>,
);

fn octets(alloc: Global) -> Result<Octets, NoMemory> {
    let mut text = Vec::new(alloc);
    put_number(&mut text, 1847)?;
    let number = number_of(0, 9_999, text.as_slice());
    let cut = cut_first(b"FRAG=S0VZ", b'=');
    let octets = decoded(alloc, b"S0VZ")?;
    Ok((text, number, cut, octets))
}

/// A frame that was written, and a message that was read.
type Frames = (Vec<u8>, Result<Step, FrameFault>);

fn frames(alloc: Global) -> Result<Frames, WriteFault> {
    let mut writer = Watched::new(Vec::new(alloc));
    write_frame(&mut writer, b"hello")?;
    let mut reader = Watched::new(b"5 hello".as_slice());
    let mut frames = FrameReader::new(alloc, Limits::standard());
    let step = frames.next_frame(&mut reader);
    Ok((writer.into_inner(), step))
}

/// PRI, the place of an element, an escaped value and what it stands for, and a stamp.
type Parts = (u8, Option<usize>, Bytes, Bytes, Option<Stamp>);

fn messages(alloc: Global, text: &[u8]) -> Result<Parts, Fail> {
    let message = parse(alloc, text)?;
    let element = message.element(b"timeQuality");
    let escaped = escape(alloc, b"say \"hello\"")?;
    let meant = value(alloc, escaped.as_slice())?;
    let stamp = Stamp::parse(b"2009-05-03T14:00:39Z");
    Ok((message.pri, element, escaped, meant, stamp))
}

fn payloads(alloc: Global) -> Result<(Option<Payload>, Option<Bytes>), NoMemory> {
    let payload = Payload::parse(alloc, b"2009-05-03T14:00:39Z K S0VZ")?;
    let mut joiner = Joiner::new(alloc);
    joiner.add(27, 18, b"39Z K S0VZ")?;
    joiner.add(27, 1, b"2009-05-03T14:00:39Z")?;
    let text = joiner.payload()?;
    Ok((payload, text))
}

/// Whether a text may hold a block, what it is, its session, what is signed of it, and its hash.
type Block = (bool, Reading, Option<Session>, Option<Bytes>, Hash);

fn blocks(alloc: Global, message: &[u8]) -> Result<Block, NoMemory> {
    let marked = may_hold_block(message);
    let reading = classify(alloc, message)?;
    let session = session_of(alloc, message)?;
    let signed = signed_bytes(alloc, message)?;
    let hash = hash_of(Alg::Sha1, message);
    Ok((marked, reading, session, signed, hash))
}

#[test]
fn octets_are_told(rt: HostRuntime) -> Result<(), Fail> {
    let (text, number, cut, octets) = octets(rt.alloc())?;
    assert_eq!(rt; text.as_slice(), b"1847".as_slice());
    assert_eq!(rt; number, Some(1847));
    let (name, value) = cut.ok_or("a cut")?;
    assert_eq!(rt; name, b"FRAG".as_slice());
    assert_eq!(rt; value, b"S0VZ".as_slice());
    let octets = octets.ok_or("octets")?;
    assert_eq!(rt; octets.as_slice(), b"KEY".as_slice());
    Ok(())
}

#[test]
fn frames_are_read_and_written(rt: HostRuntime) -> Result<(), Fail> {
    let (written, step) = frames(rt.alloc())?;
    assert_eq!(rt; written.as_slice(), b"5 hello".as_slice());
    let Ok(Step::Message(message)) = step else {
        return Err(Fail::from("a message"));
    };
    assert_eq!(rt; message.as_slice(), b"hello".as_slice());
    Ok(())
}

#[test]
fn values_are_told(rt: HostRuntime) -> Result<(), Fail> {
    let text = b"<34>1 - h su - ID47 [timeQuality isSynced=\"1\"] hello";
    let (pri, element, escaped, meant, stamp) = messages(rt.alloc(), text)?;
    assert_eq!(rt; (pri, element, stamp.is_some()), (34, Some(0), true));
    assert_eq!(rt; escaped.as_slice(), b"say \\\"hello\\\"".as_slice());
    assert_eq!(rt; meant.as_slice(), b"say \"hello\"".as_slice());
    Ok(())
}

#[test]
fn fragments_are_joined(rt: HostRuntime) -> Result<(), Fail> {
    let (payload, text) = payloads(rt.alloc())?;
    assert!(rt; payload.is_some());
    let text = text.ok_or("a payload")?;
    assert_eq!(rt; text.as_slice(), b"2009-05-03T14:00:39Z K S0VZ".as_slice());
    Ok(())
}

#[test]
fn plain_messages_are_no_blocks(rt: HostRuntime) -> Result<(), Fail> {
    let (marked, reading, session, signed, _) = blocks(rt.alloc(), b"<34>1 - h su - ID47 -")?;
    assert!(rt; !marked && matches!(reading, Reading::Plain));
    assert!(rt; session.is_none() && signed.is_none());
    Ok(())
}
