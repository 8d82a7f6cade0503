//! The codes of an originator's refusals printed, each once.
use ss_octets::Code;
use ss_origin::OriginFault;
use std::alloc::AllocError;
use std::process::Abort;
use std::test::Fail;

/// The code is printed so.
fn prints(rt: &(impl Abort + AllocGlobal), code: &Code, text: &str) -> Result<(), AllocError> {
    let printed = format!(in rt.alloc(); "{code}")?;
    assert_eq!(rt; printed.as_str(), text);
    Ok(())
}

const REFUSALS: [(OriginFault, &str); 10] = [
    (OriginFault::BadConfig, "O1"),
    (OriginFault::NotSyslog, "O2"),
    (OriginFault::HasBlock, "O3"),
    (OriginFault::NotBegun, "O4"),
    (OriginFault::AlreadyBegun, "O5"),
    (OriginFault::SealRefused, "O6"),
    (OriginFault::SignatureLength, "O7"),
    (OriginFault::NumbersSpent, "O8"),
    (OriginFault::CounterSpent, "O9"),
    (OriginFault::Memory, "O10"),
];

#[test]
fn refusals(rt: HostRuntime) -> Result<(), Fail> {
    for (fault, code) in &REFUSALS {
        prints(&rt, &fault.code(), code)?;
    }
    Ok(())
}
