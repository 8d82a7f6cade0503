//! A signer that begins, takes messages, seals them, goes on in another file, and begins again.
use ss_block::Head;
use ss_frame::{Watched, put_frame};
use ss_journal::{Journal, Lossy};
use ss_live::{Engine, Settings, run_live};
use ss_message::Field;
use ss_octets::Bytes;
use std::alloc::Global;
use std::process::Abort;
use std::test::Fail;
use test_devices::{Paper, Pieces};

/// What the first life answers: frame after frame.
const FIRST: [&[u8]; 20] = [
    b"b 1796000000",
    b"r message",
    b"r message",
    b"r own",
    b"c 3",
    b"r event",
    b"w<110>1 - h a p - [ssign-cert VER=\"0121\" RSID=\"1796000000\" SG=\"0\" SPRI=\"0\" TPBL=\"8\" INDEX=\"1\" FLEN=\"5\" FRAG=\"- K M\"]",
    b"r busy",
    b"w<110>1 - h a p - [ssign-cert VER=\"0121\" RSID=\"1796000000\" SG=\"0\" SPRI=\"0\" TPBL=\"8\" INDEX=\"6\" FLEN=\"3\" FRAG=\"TIz\"]",
    b"w<110>1 - h a p - [ssign VER=\"0121\" RSID=\"1796000000\" SG=\"0\" SPRI=\"0\" GBC=\"0\" FMN=\"1\" CNT=\"2\" HB=\"mOTT1e2nPGyQvr/PZ3Oh0bBDwfsALEu2wzVcf3AWgaI= 63h2MTc5HHxeCBYWVymIFSefqv3zVmT/D7aROUlgRvY=\"]",
    b"r signature",
    b"w<110>1 - h a p - [ssign VER=\"0121\" RSID=\"1796000000\" SG=\"0\" SPRI=\"0\" GBC=\"1\" FMN=\"3\" CNT=\"2\" HB=\"JskLrv2/+kL4UcwlUhvcsU6TPZv3YXorET1gN88bEkE= rk4P1Sks8JyrLZBVj9epSMstU/WvEu+YUQn7SpKCQfQ=\"]",
    b"d 5 2",
    b"w<110>1 - h a p - [ssign VER=\"0121\" RSID=\"1796000000\" SG=\"0\" SPRI=\"0\" GBC=\"2\" FMN=\"5\" CNT=\"1\" HB=\"s/CjuwhzRrQD0OrEfeTjACaW9SoBWYMtEeZjml2DsBw=\"]",
    b"d 6 3",
    b"e 1796000000 06da9bb17cf1479e5cdf47d825fb431971e001bb657c7fc75434e71a73b8de31",
    b"b 1796000009",
    b"r nothing",
    b"c 4",
    b"c 4",
];

/// What the second life answers: frame after frame.
const SECOND: [&[u8]; 8] = [
    b"p 1796000009 1",
    b"w<110>1 - h a p - [ssign-cert VER=\"0121\" RSID=\"1796000019\" SG=\"0\" SPRI=\"0\" TPBL=\"8\" INDEX=\"1\" FLEN=\"5\" FRAG=\"- K M\"]",
    b"w<110>1 - h a p - [ssign-cert VER=\"0121\" RSID=\"1796000019\" SG=\"0\" SPRI=\"0\" TPBL=\"8\" INDEX=\"6\" FLEN=\"3\" FRAG=\"TIz\"]",
    b"w<110>1 - h a p - [ssign VER=\"0121\" RSID=\"1796000019\" SG=\"0\" SPRI=\"0\" GBC=\"0\" FMN=\"1\" CNT=\"2\" HB=\"0Ey4Yjtuzf5apDteK89uuQrXVYTnL2sfxDgT3UImpmE= yTcl4GeHelu0uCrwvvHDHLYU5b+8LZyNMU6yDZeaw+Y=\"]",
    b"d 3 1",
    b"e 1796000009 ff42e3c5e47193e1fdae79f47ab0bba944a8520c851b851f0669ac97cd5e57e6",
    b"b 1796000020",
    b"c 1",
];

/// Octets of a field.
fn field(alloc: Global, text: &[u8]) -> Result<Field, Fail> {
    Ok(Field::Text(Bytes::from_vec(Vec::from_slice(alloc, text)?)))
}

/// An engine over this disk.
pub(crate) fn engine_over(alloc: Global, disk: Lossy) -> Result<Option<Engine<Lossy>>, Fail> {
    let host = field(alloc, b"h")?;
    let app = field(alloc, b"a")?;
    let procid = field(alloc, b"p")?;
    let Some(head) = Head::new(110, host, app, procid, Field::Nil) else {
        return Ok(None);
    };
    let payload = Bytes::from_vec(Vec::from_slice(alloc, b"- K MTIz")?);
    let stem = Bytes::from_vec(Vec::from_slice(alloc, b"a")?);
    let Some(settings) = Settings::new(payload, 2, 5, stem) else {
        return Ok(None);
    };
    Ok(Some(Engine::new(Journal::new(alloc, disk, head), settings)))
}

/// These events as frames.
pub(crate) fn frames(alloc: Global, events: &[&[u8]]) -> Result<Vec<u8>, Fail> {
    let mut out = Vec::new(alloc);
    for event in events {
        put_frame(&mut out, event)?;
    }
    Ok(out)
}

/// A life over this disk: what it answers to these events, and the disk that it leaves.
fn life(
    rt: &impl Abort,
    alloc: Global,
    disk: Lossy,
    events: &[&[u8]],
    answers: &[&[u8]],
) -> Result<Option<Lossy>, Fail> {
    let Some(mut engine) = engine_over(alloc, disk)? else {
        return Ok(None);
    };
    let events = frames(alloc, events)?;
    let answers = frames(alloc, answers)?;
    let mut reader = Watched::new(Pieces::new(events.as_slice(), 4_096));
    let mut writer = Watched::new(Paper::new(1024));
    let end = run_live(alloc, &mut reader, &mut writer, &mut engine);
    let paper = writer.into_inner();
    assert_eq!(rt; paper.text(), answers.as_slice());
    assert!(rt; end.is_ok());
    let journal = engine.journal;
    Ok(Some(journal.disk))
}

#[test]
fn lives(rt: HostRuntime) -> Result<(), Fail> {
    let alloc = rt.alloc();
    let calls = Vec::new(alloc);
    let disk = Lossy { alloc, calls };
    let first = [
        b"b 1796000000 -".as_slice(),
        b"m<13>1 - - - - - - one",
        b"m",
        b"m\0",
        b"mtwo",
        b"oours",
        b"o<13>1 - h a p beat - 1",
        b"c",
        b"x",
        b"s -",
        b"s -",
        b"gcertificate",
        b"gcertificate",
        b"g",
        b"gblock",
        b"m<13>1 - h a p - - three",
        b"n 1796000009 -",
        b"gblock",
        b"s -",
        b"gblock",
        b"g",
        b"c",
        b"q",
    ];
    let left = life(&rt, alloc, disk, &first, &FIRST)?;
    assert!(rt; left.is_some());
    let Some(disk) = left else {
        return Ok(());
    };
    let second = [
        b"b 1796000020 2026-12-01T08:00:20Z".as_slice(),
        b"m<13>1 - - - - - - four",
        b"s -",
        b"gcertificate",
        b"gcertificate",
        b"gblock",
    ];
    let left = life(&rt, alloc, disk, &second, &SECOND)?;
    assert!(rt; left.is_some());
    Ok(())
}
