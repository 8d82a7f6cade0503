//! The example of the README of `ss_live`, line by line.
use crate::lives::{engine_over, frames};
use ss_frame::Watched;
use ss_journal::Lossy;
use ss_live::run_live;
use std::test::Fail;
use test_devices::{Paper, Pieces};

#[test]
fn readme(rt: HostRuntime) -> Result<(), Fail> {
    let alloc = rt.alloc();
    let calls = Vec::new(alloc);
    let disk = Lossy { alloc, calls };
    let made = engine_over(alloc, disk)?;
    assert!(rt; made.is_some());
    let Some(mut engine) = made else {
        return Ok(());
    };
    let events = [
        b"b 1796000000 -".as_slice(),
        b"m<13>1 - - - - - - one",
        b"c",
    ];
    let events = frames(alloc, &events)?;
    let mut reader = Watched::new(Pieces::new(events.as_slice(), 4_096));
    let mut writer = Watched::new(Paper::new(1024));
    run_live(alloc, &mut reader, &mut writer, &mut engine)?;
    let paper = writer.into_inner();
    assert_eq!(rt; paper.text(), b"12 b 17960000003 c 13 c 1".as_slice());
    Ok(())
}
