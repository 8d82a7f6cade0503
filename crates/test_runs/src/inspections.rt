//! Inspections of logs that cannot be read, over devices that fail, and where memory runs out: nothing is written then
//! but by a write that failed.
use ss_frame::{FrameFault, Limits, Watched};
use ss_report::{InspectionForm, ReadOptions, ReportForm, Run, RunFault, Verdict, run_inspect};
use std::alloc::Global;
use std::io::{ErrorKind, Read};
use std::process::Abort;
use std::test::Fail;
use test_devices::{Paper, Pieces, Refusal};

/// Two messages and their blocks, 373 octets.
pub const LOG: &[u8] =
    b"3 abc56 abcdbcdecdefdefgefghfghighijhijkijkljklmklmnlmnomnopnopq142 <110>1 - h s - - [ssign-cert VER=\"0111\" \
        RSID=\"1\" SG=\"0\" SPRI=\"0\" TPBL=\"27\" INDEX=\"1\" FLEN=\"27\" FRAG=\"2009-05-03T14:00:39Z K S0VZ\" \
        SIGN=\"AAAA\"]159 <110>1 - h s - - [ssign VER=\"0111\" RSID=\"1\" SG=\"0\" SPRI=\"0\" GBC=\"0\" FMN=\"1\" \
        CNT=\"2\" HB=\"qZk+NkcGgWq6PiVxeFDCbJzQ2J0= hJg+RBw70m66rkqh+VEp5eVGcPE=\" SIGN=\"AAAA\"]";

/// What an inspection writes of it, 102 octets.
const INSPECTION: &[u8] =
    b"unparsed 0 M1 0\nunparsed 1 M1 0\ncertificate 2 h s - 1 0 0 27 1 27\nsignature 3 h s - 1 0 0 0 1 2\nend 4\n";

/// A log, the most octets of a message and the most messages, and why a run stops.
pub const STOPS: [(&[u8], (u32, u32), FrameFault); 3] = [
    (
        b"3 abcx",
        (65_536, 10_000_000),
        FrameFault::BadLength { pos: 5 },
    ),
    (
        b"99999999999999999999",
        (65_536, 10_000_000),
        FrameFault::TooLong { pos: 4 },
    ),
    (
        b"1 a1 a1 a1 a1 a1 a",
        (3, 5),
        FrameFault::TooManyMessages { pos: 15 },
    ),
];

const REFUSALS: [Refusal; 3] = [
    Refusal::Error(ErrorKind::BrokenPipe),
    Refusal::Error(ErrorKind::Interrupted),
    Refusal::Nothing,
];

/// Inspects what `source` gives, and hands back both devices.
fn inspect_over<R: Read>(
    alloc: Global,
    source: R,
    paper: Paper,
    limits: Limits,
) -> (Result<Verdict, RunFault>, Watched<R>, Watched<Paper>) {
    let mut reader = Watched::new(source);
    let mut writer = Watched::new(paper);
    let run = Run {
        reader: &mut reader,
        writer: &mut writer,
        options: ReadOptions::undamaged(limits),
        known: None,
        alloc,
    };
    let form = InspectionForm {
        lines: ReportForm::Text,
        unwrap: false,
    };
    let said = run_inspect(run, form, None);
    (said, reader, writer)
}

/// A log that can't be read on.
fn stops_at_frame(rt: &(impl Abort + AllocGlobal), log: &[u8], limits: Limits, fault: FrameFault) {
    let (said, reader, writer) = inspect_over(rt.alloc(), log, Paper::new(1), limits);
    assert_eq!(rt; said, Err(RunFault::Frame(fault)));
    assert!(rt; !reader.failed() && !writer.failed(), "{fault:?}");
    assert_eq!(rt; writer.into_inner().writes, 0, "{fault:?}");
}

/// Octet by octet, the read of that number fails.
fn stops_at_read(rt: &(impl Abort + AllocGlobal), read: u64, kind: ErrorKind) {
    let source = Pieces::failing(LOG, 1, read, kind);
    let limits = Limits::standard();
    let (said, reader, writer) = inspect_over(rt.alloc(), source, Paper::new(1), limits);
    assert_eq!(rt; said, Err(RunFault::Frame(FrameFault::Read)), "at {read}");
    assert!(rt; reader.failed() && !writer.failed(), "at {read}");
    let done = (reader.into_inner().reads, writer.into_inner().writes);
    assert_eq!(rt; done, (read, 0), "at {read}");
}

/// Octet by octet, a write fails after so many of them.
fn stops_at_write(rt: &(impl Abort + AllocGlobal), before: usize, refusal: Refusal) {
    let write = (before as u64).saturating_add(1);
    let paper = Paper::refusing(1, write, refusal);
    let (said, reader, writer) = inspect_over(rt.alloc(), LOG, paper, Limits::standard());
    assert_eq!(rt; said, Err(RunFault::Write), "at {write}");
    assert!(rt; writer.failed() && !reader.failed(), "at {write}");
    let paper = writer.into_inner();
    assert_eq!(rt; Some(paper.text()), INSPECTION.get(..before));
    assert_eq!(rt; paper.writes, write);
}

/// All is written, and then the flush fails.
fn stops_at_flush(rt: &(impl Abort + AllocGlobal)) {
    let paper = Paper::failing_at_flush(1);
    let (said, reader, writer) = inspect_over(rt.alloc(), LOG, paper, Limits::standard());
    assert_eq!(rt; said, Err(RunFault::Write));
    assert!(rt; writer.failed() && !reader.failed());
    assert_eq!(rt; writer.into_inner().text(), INSPECTION);
}

/// A log can't be read. Then, octet by octet, each read and each write fails in turn, also the read of the log's end,
/// and the flush.
#[test]
fn stops_with_nothing_else_written(rt: HostRuntime) -> Result<(), Fail> {
    for (log, (max_len, max_messages), fault) in &STOPS {
        let limits = Limits::new(*max_len, *max_messages).ok_or("no limits")?;
        stops_at_frame(&rt, log, limits, *fault);
    }
    assert_eq!(rt; (LOG.len(), INSPECTION.len()), (373, 102));
    for kind in [ErrorKind::BrokenPipe, ErrorKind::Interrupted] {
        for read in 1..375 {
            stops_at_read(&rt, read, kind);
        }
    }
    for refusal in REFUSALS {
        for before in 0..INSPECTION.len() {
            stops_at_write(&rt, before, refusal);
        }
    }
    stops_at_flush(&rt);
    Ok(())
}

/// Inspects the log octet by octet. "Out of memory" is answered before anything is written, and by no device.
fn inspect(rt: &(impl Abort + AllocGlobal)) -> Result<Verdict, RunFault> {
    let source = Pieces::new(LOG, 1);
    let limits = Limits::standard();
    let (said, reader, writer) = inspect_over(rt.alloc(), source, Paper::new(1), limits);
    assert!(rt; !reader.failed() && !writer.failed(), "{said:?}");
    let paper = writer.into_inner();
    match said {
        Ok(_) => assert_eq!(rt; paper.text(), INSPECTION),
        Err(_) => assert_eq!(rt; paper.writes, 0),
    }
    said
}

/// `tests/memory.sh` refuses each allocation of this test in turn, and it passes each time: after "out of memory"
/// nothing is written, and the next call gives the output.
#[test]
fn wants_memory_or_says_what_there_is(rt: HostRuntime) {
    let mut said = inspect(&rt);
    if let Err(fault) = said {
        let memory = [RunFault::Memory, RunFault::Frame(FrameFault::Memory)];
        assert!(rt; memory.contains(&fault), "{fault:?}");
        said = inspect(&rt);
    }
    assert_eq!(rt; said, Ok(Verdict::Clean));
}
