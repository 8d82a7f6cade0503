//! How much room a call takes for a message, by the most that the process has had at once: numbers that a message
//! states reserve nothing.
use super::joining::add;
use ss_block::{Joiner, Payload, classify, session_of, signed_bytes};
use ss_message::{Fault, parse, value};
use ss_octets::NoMemory;
use std::alloc::{AllocError, Global};
use std::fs;
use std::process::Abort;
use std::rt::Files;
use std::test::Fail;

/// Messages that state the largest numbers, and such numbers alone; the largest first.
const HOSTILE: [&[u8]; 8] = [
    b"<110>1 - h s - - [ssign-cert VER=\"0111\" RSID=\"9999999999\" SG=\"3\" SPRI=\"191\" TPBL=\"99999999\" \
        INDEX=\"99999999\" FLEN=\"1\" FRAG=\"x\" SIGN=\"AAAA\"]",
    b"<110>1 - h s - - [ssign-cert VER=\"0121\" RSID=\"9999999999\" SG=\"3\" SPRI=\"191\" TPBL=\"99999999\" \
        INDEX=\"1\" FLEN=\"9999\" FRAG=\"x\" SIGN=\"AAAA\"]",
    b"<110>1 - h s - - [ssign VER=\"0121\" RSID=\"9999999999\" SG=\"3\" SPRI=\"191\" GBC=\"9999999999\" \
        FMN=\"9999999901\" CNT=\"99\" HB=\"qZk+\" SIGN=\"AAAA\"]",
    b"<110>1 - h s - - [ssign VER=\"0111\" RSID=\"9999999999\" SG=\"3\" SPRI=\"191\" GBC=\"9999999999\" \
        FMN=\"9999999999\" CNT=\"1\" HB=\"qZk+NkcGgWq6PiVxeFDCbJzQ2J0=\" SIGN=\"AAAA\"]",
    b"<110>1 - h s - - [ssign VER=\"0111\" RSID=\"9999999999\" SG=\"3\" SPRI=\"191\" GBC=\"9999999999\" \
        FMN=\"9999999999\" CNT=\"99\" HB=\
        \"                                                                                                  \" \
        SIGN=\"\"]",
    b"<99999999999999999999>1 - h s - - -",
    b"18446744073709551615 <110>1 9999-12-31T23:59:59.999999+23:59 h s - - -",
    b"9999-12-31T23:59:59.999999+23:59 C 99999999",
];

/// What takes room for a text.
#[derive(Clone, Copy, Debug, PartialEq, Eq)]
enum Call {
    Parse,
    Value,
    Classify,
    SessionOf,
    SignedBytes,
    ReadPayload,
    Join,
}

const CALLS: [Call; 7] = [
    Call::Join,
    Call::Classify,
    Call::SignedBytes,
    Call::SessionOf,
    Call::ReadPayload,
    Call::Parse,
    Call::Value,
];

/// Joins the front of a text as the last octets of the longest payload there is, and as a payload of its own.
fn join(alloc: Global, text: &[u8]) -> Result<(), NoMemory> {
    let fragment = &text[..text.len().min(9_999)];
    let mut joiner = Joiner::new(alloc);
    for total in [99_999_999, fragment.len() as u32] {
        let index = total - fragment.len() as u32 + 1;
        if let Some(answer) = add(&mut joiner, total, index, fragment) {
            answer?;
        }
        joiner.payload()?;
        joiner = Joiner::new(alloc);
    }
    Ok(())
}

/// Makes a call, and lets go of what it gives.
fn make(alloc: Global, call: Call, text: &[u8]) -> Result<(), NoMemory> {
    match call {
        Call::Parse => {
            if let Err(Fault::Memory) = parse(alloc, text) {
                return Err(NoMemory);
            }
        }
        Call::Value => {
            value(alloc, text)?;
        }
        Call::Classify => {
            classify(alloc, text)?;
        }
        Call::SessionOf => {
            session_of(alloc, text)?;
        }
        Call::SignedBytes => {
            signed_bytes(alloc, text)?;
        }
        Call::ReadPayload => {
            Payload::parse(alloc, text)?;
        }
        Call::Join => join(alloc, text)?,
    }
    Ok(())
}

/// The most room, in units of 1,024 octets, that the process has had at once.
fn peak_of(status: &str) -> Option<u64> {
    for line in status.lines() {
        if let Some(rest) = line.strip_prefix("VmPeak:") {
            return rest.split_whitespace().next()?.parse::<u64>().ok();
        }
    }
    None
}

fn peak<R: Files + AllocGlobal>(rt: &R) -> Result<u64, Fail> {
    let status = fs::read_to_string(rt, "/proc/self/status")?;
    Ok(peak_of(&status).ok_or("no VmPeak")?)
}

/// The first call that has more memory at once than 32 octets for an octet of the text and a quarter of a mebibyte. It
/// comes with how many KiB it had.
fn first_over<R: Files + AllocGlobal>(rt: &R, text: &[u8]) -> Result<Option<(Call, u64)>, Fail> {
    let allowed = 256 + text.len() as u64 / 32;
    for call in &CALLS {
        let before = peak(rt)?;
        make(rt.alloc(), *call, text)?;
        let taken = peak(rt)?.saturating_sub(before);
        if taken > allowed {
            return Ok(Some((*call, taken)));
        }
    }
    Ok(None)
}

/// Elements one after another, whose names begin with these octets.
fn put_elements(text: &mut Vec<u8>, first: u8, second: u8) -> Result<(), AllocError> {
    for third in b'a'..=b'z' {
        text.extend_from_slice(&[b'[', first, second, third, b']'])?;
    }
    Ok(())
}

/// A message of 5,200 elements without a parameter.
fn many_elements(alloc: Global) -> Result<Vec<u8>, AllocError> {
    let mut text = Vec::new(alloc);
    text.extend_from_slice(b"<1>1 - - - - - ")?;
    for i in 0..200_u8 {
        put_elements(&mut text, b'a' + i % 25, b'a' + i / 25)?;
    }
    Ok(text)
}

/// A piece, so many times, between others.
fn repeated(
    alloc: Global,
    front: &[u8],
    piece: &[u8],
    times: u32,
    back: &[u8],
) -> Result<Vec<u8>, AllocError> {
    let mut text = Vec::new(alloc);
    text.extend_from_slice(front)?;
    for _ in 0..times {
        text.extend_from_slice(piece)?;
    }
    text.extend_from_slice(back)?;
    Ok(text)
}

/// Pieces between others: 20,000 parameters, 50,000 escapes, and a blob of 75,000 octets.
const REPEATED: [(&[u8], &[u8], u32, &[u8]); 3] = [
    (b"<1>1 - - - - - [x@1", b" a=\"\"", 20_000, b"]"),
    (b"<1>1 - - - - - [x@1 a=\"", b"\\\"", 50_000, b"\"]"),
    (b"- C ", b"AAAA", 25_000, b""),
];

/// Long texts, which stay, so that no later call finds their room free.
fn texts<R: Files + Abort + AllocGlobal>(rt: &R) -> Result<Vec<Vec<u8>>, Fail> {
    let mut texts = Vec::new(rt.alloc());
    for (front, piece, times, back) in &REPEATED {
        let text = repeated(rt.alloc(), front, piece, *times, back)?;
        assert_eq!(rt; first_over(rt, &text)?, None, "{front:?}");
        texts.push(text)?;
    }
    let elements = many_elements(rt.alloc())?;
    assert_eq!(rt; first_over(rt, &elements)?, None);
    texts.push(elements)?;
    Ok(texts)
}

/// A list of 33,000,000 octets is seen.
fn sees_peak<R: Files + Abort + AllocGlobal>(rt: &R) -> Result<(), Fail> {
    let before = peak(rt)?;
    let list: Vec<u8> = Vec::with_capacity(rt.alloc(), 33_000_000)?;
    let taken = peak(rt)?.saturating_sub(before);
    assert!(rt; taken > 32_000, "33,000,000 octets are {taken} KiB");
    assert!(rt; list.is_empty());
    Ok(())
}

/// Stated numbers reserve nothing, and long texts take room by their octets. A list of 33,000,000 octets, a third of
/// the largest number there is, would be seen.
#[test]
fn room(rt: HostRuntime) -> Result<(), Fail> {
    for text in &HOSTILE {
        assert_eq!(rt; first_over(&rt, text)?, None);
    }
    let texts = texts(&rt)?;
    sees_peak(&rt)?;
    assert_eq!(rt; texts.len(), 4);
    Ok(())
}
