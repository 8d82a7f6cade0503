//! The example of the README of `ss_salvage`, line by line.
use ss_frame::{FrameFault, Limits, Watched};
use ss_salvage::{SalvageReader, SalvageStep};
use std::alloc::{AllocError, Global};

/// What two calls answer.
type Steps = (
    Result<SalvageStep, FrameFault>,
    Result<SalvageStep, FrameFault>,
);

fn salvaged(alloc: Global) -> Result<Steps, AllocError> {
    let mut reader = Watched::new(b"7 <13>1 aX7 <13>1 b".as_slice());
    let mut salvage = SalvageReader::new(alloc, Limits::standard())?;
    let message = salvage.next_step(&mut reader);
    let damage = salvage.next_step(&mut reader);
    Ok((message, damage))
}

#[test]
fn readme(rt: HostRuntime) -> Result<(), AllocError> {
    let (message, damage) = salvaged(rt.alloc())?;
    match message {
        Ok(SalvageStep::Message(octets)) => {
            assert_eq!(rt; octets.as_slice(), b"<13>1 a".as_slice());
        }
        other => assert!(rt; false, "{other:?}"),
    }
    match damage {
        Ok(SalvageStep::Damaged { at, len }) => assert_eq!(rt; (at, len), (9, 1)),
        other => assert!(rt; false, "{other:?}"),
    }
    Ok(())
}
