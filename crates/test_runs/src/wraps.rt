//! Logs with wraps: what is extracted of them, and what an inspection writes of them, with wraps taken off and without.
use crate::book::Yes;
use ss_frame::{Form, Limits, Watched};
use ss_octets::put_number;
use ss_report::{
    ExtractFault, Extraction, InspectionForm, ReadOptions, ReportForm, Run, RunFault, Selection,
    Verdict, run_extract, run_inspect,
};
use ss_review::Places;
use std::alloc::{AllocError, Global};
use std::process::Abort;
use std::test::Fail;
use test_devices::Paper;

/// A message, the octets that are written of it with wraps taken off, and its line in an inspection then, with place 0.
const TEXTS: [(&[u8], &[u8], &[u8]); 14] = [
    (b"abc", b"abc", b"unparsed 0 M1 0\n"),
    (b"<34>1 - h s - - - m", b"<34>1 - h s - - - m", b"plain 0\n"),
    (
        b"<13>1 - h s - wrapped - |abc",
        b"abc",
        b"wrapped-unparsed 0 M1 0\n",
    ),
    (
        b"<13>1 - h s - wrapped - |",
        b"<13>1 - h s - wrapped - |",
        b"wrapped-unparsed 0 M1 0\n",
    ),
    (
        b"<34>1 - h s - wrapped - |<34>1 - h su - - - m",
        b"<34>1 - h su - - - m",
        b"wrapped-plain 0\n",
    ),
    (
        b"<34>1 - h s - wrapped - |<34>1 - i su - - [ssign] m",
        b"<34>1 - i su - - [ssign] m",
        b"wrapped-spoilt 0 S2\n",
    ),
    (
        b"<34>1 - h s - wrapped - |<34>1 2016-12-31T23:59:60Z h su - - - m",
        b"<34>1 2016-12-31T23:59:60Z h su - - - m",
        b"wrapped-unparsed 0 M3 6\n",
    ),
    // One wrap of two is taken off.
    (
        b"<13>1 - h s - wrapped - |<13>1 - h s - wrapped - |abc",
        b"<13>1 - h s - wrapped - |abc",
        b"wrapped-plain 0\n",
    ),
    (
        b"<13>1 - h s - wrapped - |\xEF\xBB\xBF\xFF\n\0",
        b"\xEF\xBB\xBF\xFF\n\0",
        b"wrapped-unparsed 0 M1 0\n",
    ),
    // Without one of the parts of a wrap.
    (
        b"<13>1 - h s - wrapped -",
        b"<13>1 - h s - wrapped -",
        b"plain 0\n",
    ),
    (
        b"<13>1 - h s - wrapped -  |abc",
        b"<13>1 - h s - wrapped -  |abc",
        b"plain 0\n",
    ),
    (
        b"<13>1 - h s - wrapped [a] |abc",
        b"<13>1 - h s - wrapped [a] |abc",
        b"plain 0\n",
    ),
    (
        b"<13>1 - h s - wrapped2 - |abc",
        b"<13>1 - h s - wrapped2 - |abc",
        b"plain 0\n",
    ),
    (
        b"<13>2 - h s - wrapped - |abc",
        b"<13>2 - h s - wrapped - |abc",
        b"unparsed 0 M2 4\n",
    ),
];

/// Blocks in wraps: the message, and its line.
const BLOCKS: [(&[u8], &[u8]); 2] = [
    (
        b"<13>1 - h s - wrapped - |<110>1 - i t 7 - [ssign-cert VER=\"0111\" RSID=\"1\" SG=\"0\" SPRI=\"0\" TPBL=\"27\" \
            INDEX=\"1\" FLEN=\"27\" FRAG=\"2009-05-03T14:00:39Z K S0VZ\" SIGN=\"AAAA\"]",
        b"wrapped-certificate 0 i t 7 1 0 0 27 1 27\n",
    ),
    (
        b"<13>1 - h s - wrapped - |<110>1 - i t 7 - [ssign VER=\"0111\" RSID=\"1\" SG=\"0\" SPRI=\"0\" GBC=\"0\" FMN=\"1\" \
            CNT=\"1\" HB=\"qZk+NkcGgWq6PiVxeFDCbJzQ2J0=\" SIGN=\"AAAA\"]",
        b"wrapped-signature 0 i t 7 1 0 0 0 1 1\n",
    ),
];

/// A log of these messages, as frames.
fn frames(alloc: Global, messages: &[&[u8]]) -> Result<Vec<u8>, AllocError> {
    let mut log = Vec::new(alloc);
    for message in messages {
        put_number(&mut log, message.len() as u64)?;
        log.push(b' ')?;
        log.extend_from_slice(message)?;
    }
    Ok(log)
}

/// The messages at these places.
fn at(alloc: Global, places: &[u32], form: Form, unwrap: bool) -> Result<Extraction, AllocError> {
    Ok(Extraction {
        selection: Selection::At(Places::from_vec(Vec::from_slice(alloc, places)?)),
        form,
        unwrap,
    })
}

/// Extracts from a log, and hands back what was written.
fn extract(
    alloc: Global,
    log: &[u8],
    extraction: Extraction,
) -> (Result<Verdict, RunFault>, Paper) {
    let mut reader = Watched::new(log);
    let mut writer = Watched::new(Paper::new(1024));
    let run = Run {
        reader: &mut reader,
        writer: &mut writer,
        options: ReadOptions::undamaged(Limits::standard()),
        known: None,
        alloc,
    };
    let said = run_extract(run, Yes, extraction);
    (said, writer.into_inner())
}

/// Inspects a log, and hands back what was written.
fn inspect(alloc: Global, log: &[u8], form: InspectionForm) -> (Result<Verdict, RunFault>, Paper) {
    let mut reader = Watched::new(log);
    let mut writer = Watched::new(Paper::new(1024));
    let run = Run {
        reader: &mut reader,
        writer: &mut writer,
        options: ReadOptions::undamaged(Limits::standard()),
        known: None,
        alloc,
    };
    let said = run_inspect(run, form, None);
    (said, writer.into_inner())
}

/// What is extracted of a log that has this message alone, with its wrap and without.
fn sees_extract(
    rt: &(impl Abort + AllocGlobal),
    message: &[u8],
    inner: &[u8],
) -> Result<(), AllocError> {
    let log = frames(rt.alloc(), &[message])?;
    let off = frames(rt.alloc(), &[inner])?;
    let (said, paper) = extract(
        rt.alloc(),
        log.as_slice(),
        at(rt.alloc(), &[0], Form::Frames, false)?,
    );
    assert_eq!(rt; said, Ok(Verdict::Clean));
    assert!(rt; paper.text() == log.as_slice());
    let (said, paper) = extract(
        rt.alloc(),
        log.as_slice(),
        at(rt.alloc(), &[0], Form::Frames, true)?,
    );
    assert_eq!(rt; said, Ok(Verdict::Clean));
    assert!(rt; paper.text() == off.as_slice());
    Ok(())
}

/// The first line of an inspection with wraps taken off, of a log that has this message alone.
fn sees_line(
    rt: &(impl Abort + AllocGlobal),
    message: &[u8],
    line: &[u8],
    lines: ReportForm,
) -> Result<(), AllocError> {
    let log = frames(rt.alloc(), &[message])?;
    let form = InspectionForm {
        lines,
        unwrap: true,
    };
    let (said, paper) = inspect(rt.alloc(), log.as_slice(), form);
    assert_eq!(rt; said, Ok(Verdict::Clean));
    let mut text = Vec::from_slice(rt.alloc(), line)?;
    text.extend_from_slice(b"end 1\n")?;
    assert!(rt; paper.text() == text.as_slice());
    Ok(())
}

#[test]
fn wraps_are_taken_off(rt: HostRuntime) -> Result<(), Fail> {
    for (message, inner, line) in &TEXTS {
        sees_extract(&rt, message, inner)?;
        sees_line(&rt, message, line, ReportForm::Text)?;
    }
    for (message, line) in &BLOCKS {
        sees_line(&rt, message, line, ReportForm::Text)?;
    }
    Ok(())
}

/// The findings leave out plain messages, and no wrap.
#[test]
fn wraps_stand_in_the_findings(rt: HostRuntime) -> Result<(), Fail> {
    for (message, _inner, line) in &TEXTS {
        let line = if line.starts_with(b"plain") {
            b"".as_slice()
        } else {
            line
        };
        sees_line(&rt, message, line, ReportForm::Findings)?;
    }
    Ok(())
}

/// The messages of a log: the second is a wrap with LF, the third LF itself, the last a wrap in a wrap.
const LOG: [&[u8]; 4] = [
    b"<13>1 - h s - wrapped - |a",
    b"<13>1 - h s - wrapped - |b\nc",
    b"d\ne",
    b"<13>1 - h s - wrapped - |<13>1 - h s - wrapped - |f",
];

/// As lines, E2 names the place of the first message that holds LF once it is out of its wrap. A place that is given
/// twice is taken out of one wrap each time.
#[test]
fn wraps_are_taken_off_lines(rt: HostRuntime) -> Result<(), Fail> {
    let log = frames(rt.alloc(), &LOG)?;
    let places = at(rt.alloc(), &[3, 0, 3], Form::Lines, true)?;
    let (said, paper) = extract(rt.alloc(), log.as_slice(), places);
    assert_eq!(rt; said, Ok(Verdict::Clean));
    let wanted = b"<13>1 - h s - wrapped - |f\na\n<13>1 - h s - wrapped - |f\n".as_slice();
    assert!(rt; paper.text() == wanted);
    for (given, place) in [([0u32, 1u32, 2u32], 1u32), ([3u32, 2u32, 1u32], 2u32)] {
        let places = at(rt.alloc(), given.as_slice(), Form::Lines, true)?;
        let (said, paper) = extract(rt.alloc(), log.as_slice(), places);
        assert_eq!(rt;
            said,
            Err(RunFault::Extract(ExtractFault::HoldsLf { place }))
        );
        assert_eq!(rt; paper.writes, 0);
    }
    let places = at(rt.alloc(), &[0, 4, 1], Form::Lines, true)?;
    let (said, _paper) = extract(rt.alloc(), log.as_slice(), places);
    assert_eq!(rt;
        said,
        Err(RunFault::Extract(ExtractFault::Absent { place: 4 }))
    );
    Ok(())
}

/// The wraps of `a` and of `b`, LF and `c`, as frames.
const TWO_WRAPS: &[u8] = b"26 <13>1 - h s - wrapped - |a28 <13>1 - h s - wrapped - |b\nc";

/// `tests/memory.sh` refuses each allocation of this test in turn, and it passes each time: after "out of memory"
/// nothing is written, and the next call gives the messages.
#[test]
fn wants_memory_or_takes_wraps_off(rt: HostRuntime) {
    let mut is_written = false;
    for _again in 0..2 {
        if let Ok(places) = at(rt.alloc(), &[0, 1], Form::Frames, true) {
            let (said, paper) = extract(rt.alloc(), TWO_WRAPS, places);
            if said.is_err() {
                assert_eq!(rt; paper.writes, 0);
            } else {
                assert!(rt; paper.text() == b"1 a3 b\nc".as_slice());
                is_written = true;
            }
        }
    }
    assert!(rt; is_written);
}
