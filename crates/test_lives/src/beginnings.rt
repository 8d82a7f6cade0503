//! How runs begin and end: what begins none, and what breaks off.
use crate::lives::engine_over;
use ss_frame::Watched;
use ss_journal::Lossy;
use ss_live::{LiveFault, Settings, run_live};
use ss_octets::Bytes;
use std::alloc::Global;
use std::test::Fail;
use test_devices::{Paper, Pieces};

/// Input that begins no run: none, an end, a message, `b` without a stamp, and another file.
const NO_BEGINNINGS: [&[u8]; 5] = [
    b"",
    b"1 q",
    b"18 m<13>1 - - - - - -",
    b"12 b 1796000000",
    b"14 n 1796000000 -",
];

/// Input that breaks off in a frame after `b`, or is no frame there.
const BROKEN: [&[u8]; 3] = [
    b"14 b 1796000000 -2 c",
    b"14 b 1796000000 -1",
    b"14 b 1796000000 -c",
];

/// What these octets end a run over an empty disk with, and what it has written.
fn run(alloc: Global, input: &[u8]) -> Result<Option<(Result<(), LiveFault>, Paper)>, Fail> {
    let calls = Vec::new(alloc);
    let Some(mut engine) = engine_over(alloc, Lossy { alloc, calls })? else {
        return Ok(None);
    };
    let mut reader = Watched::new(Pieces::new(input, 4_096));
    let mut writer = Watched::new(Paper::new(1024));
    let end = run_live(alloc, &mut reader, &mut writer, &mut engine);
    Ok(Some((end, writer.into_inner())))
}

#[test]
fn no_beginning(rt: HostRuntime) -> Result<(), Fail> {
    for input in NO_BEGINNINGS {
        let ran = run(rt.alloc(), input)?;
        assert!(rt; ran.is_some());
        if let Some((end, paper)) = ran {
            assert_eq!(rt; end, Err(LiveFault::First));
            assert!(rt; paper.text().is_empty());
        }
    }
    Ok(())
}

#[test]
fn broken(rt: HostRuntime) -> Result<(), Fail> {
    for input in BROKEN {
        let ran = run(rt.alloc(), input)?;
        assert!(rt; ran.is_some());
        if let Some((end, paper)) = ran {
            let Err(fault) = end else {
                assert!(rt; false);
                return Ok(());
            };
            assert_eq!(rt; fault.code().name, "J2");
            assert_eq!(rt; paper.text(), b"12 b 1796000000".as_slice());
        }
    }
    Ok(())
}

/// Whether a signer may have a payload of so many octets, and this count and size of a fragment.
fn is_setting(alloc: Global, payload: usize, count: u8, frag: u16) -> Result<bool, Fail> {
    let mut octets = Vec::new(alloc);
    for _ in 0..payload {
        octets.push(b'-')?;
    }
    let stem = Bytes::from_vec(Vec::new(alloc));
    Ok(Settings::new(Bytes::from_vec(octets), count, frag, stem).is_some())
}

#[test]
fn settings(rt: HostRuntime) -> Result<(), Fail> {
    let alloc = rt.alloc();
    assert!(rt; is_setting(alloc, 1, 1, 1)?);
    assert!(rt; is_setting(alloc, 8, 99, 9_999)?);
    assert!(rt; !is_setting(alloc, 0, 1, 1)?);
    assert!(rt; !is_setting(alloc, 1, 0, 1)?);
    assert!(rt; !is_setting(alloc, 1, 100, 1)?);
    assert!(rt; !is_setting(alloc, 1, 1, 0)?);
    assert!(rt; !is_setting(alloc, 1, 1, 10_000)?);
    Ok(())
}
