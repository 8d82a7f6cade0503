//! Facts in the lines of an inspection: of each message, and of those at named places.
use ss_frame::{Limits, Watched};
use ss_octets::put_number;
use ss_report::{InspectionForm, ReadOptions, ReportForm, Run, RunFault, Verdict, run_inspect};
use ss_review::Places;
use std::alloc::{AllocError, Global};
use std::process::Abort;
use std::test::Fail;

/// The messages of a log. For each its line where its place isn't named, and where it is.
const TEXTS: [(&[u8], &[u8], &[u8]); 8] = [
    (
        b"<13>1 2016-12-31T23:59:59.5+01:00 h a - - - x",
        b"{\"line\":\"plain\",\"place\":0,\"octets\":45,\"timestamp\":\"2016-12-31T23:59:59.5+01:00\"}",
        b"{\"line\":\"plain\",\"place\":0,\"octets\":45,\"timestamp\":\"2016-12-31T23:59:59.5+01:00\",\"text\":\
            \"PDEzPjEgMjAxNi0xMi0zMVQyMzo1OTo1OS41KzAxOjAwIGggYSAtIC0gLSB4\"}",
    ),
    (
        b"abc d e",
        b"{\"line\":\"unparsed\",\"place\":1,\"part\":\"M1\",\"offset\":0,\"octets\":7}",
        b"{\"line\":\"unparsed\",\"place\":1,\"part\":\"M1\",\"offset\":0,\"octets\":7,\"text\":\"YWJjIGQgZQ==\"\
            }",
    ),
    (
        b"<13>1  h a - - - x",
        b"{\"line\":\"unparsed\",\"place\":2,\"part\":\"M3\",\"offset\":6,\"octets\":18}",
        b"{\"line\":\"unparsed\",\"place\":2,\"part\":\"M3\",\"offset\":6,\"octets\":18,\"text\":\"PDEzPjEgIGggY\
            SAtIC0gLSB4\"}",
    ),
    (
        b"<13>1 -  a - - - [ssign",
        b"{\"line\":\"unparsed\",\"place\":3,\"part\":\"M4\",\"offset\":8,\"octets\":23,\"timestamp\":\"-\",\"ma\
            rked\":1}",
        b"{\"line\":\"unparsed\",\"place\":3,\"part\":\"M4\",\"offset\":8,\"octets\":23,\"timestamp\":\"-\",\"ma\
            rked\":1,\"text\":\"PDEzPjEgLSAgYSAtIC0gLSBbc3NpZ24=\"}",
    ),
    (
        b"<13>1 - h s - wrapped - |ab",
        b"{\"line\":\"plain\",\"place\":4,\"octets\":27,\"timestamp\":\"-\"}",
        b"{\"line\":\"plain\",\"place\":4,\"octets\":27,\"timestamp\":\"-\",\"text\":\"PDEzPjEgLSBoIHMgLSB3cmFwc\
            GVkIC0gfGFi\",\"original\":\"YWI=\"}",
    ),
    (
        b"<110>1 - h s - - [ssign-cert VER=\"0121\" RSID=\"1\" SG=\"0\" SPRI=\"0\" TPBL=\"27\" INDEX=\"1\" FLEN=\
            \"27\" FRAG=\"2009-05-03T14:00:39Z K S0VZ\" SIGN=\"AAAA\"]",
        b"{\"line\":\"certificate\",\"place\":5,\"host\":\"h\",\"app\":\"s\",\"procid\":\"-\",\"rsid\":1,\"sg\":\
            0,\"spri\":0,\"total\":27,\"index\":1,\"length\":27,\"octets\":142,\"timestamp\":\"-\",\"marked\":1}",
        b"{\"line\":\"certificate\",\"place\":5,\"host\":\"h\",\"app\":\"s\",\"procid\":\"-\",\"rsid\":1,\"sg\":\
            0,\"spri\":0,\"total\":27,\"index\":1,\"length\":27,\"octets\":142,\"timestamp\":\"-\",\"marked\":1,\"te\
            xt\":\"PDExMD4xIC0gaCBzIC0gLSBbc3NpZ24tY2VydCBWRVI9IjAxMjEiIFJTSUQ9IjEiIFNHPSIwIiBTUFJJPSIwIiBUUEJMPSIyN\
            yIgSU5ERVg9IjEiIEZMRU49IjI3IiBGUkFHPSIyMDA5LTA1LTAzVDE0OjAwOjM5WiBLIFMwVloiIFNJR049IkFBQUEiXQ==\",\"frag\
            ment\":\"MjAwOS0wNS0wM1QxNDowMDozOVogSyBTMFZa\",\"ver\":\"0121\",\"signed\":\"PDExMD4xIC0gaCBzIC0gLSBbc3NpZ24tY2VydCBWRVI\
            9IjAxMjEiIFJTSUQ9IjEiIFNHPSIwIiBTUFJJPSIwIiBUUEJMPSIyNyIgSU5ERVg9IjEiIEZMRU49IjI3IiBGUkFHPSIyMDA5LTA1LTA\
            zVDE0OjAwOjM5WiBLIFMwVloiXQ==\",\"signature\":\"AAAA\"}",
    ),
    (
        b"<110>1 - h s - - [ssign VER=\"0111\" RSID=\"1\" SG=\"0\" SPRI=\"0\" GBC=\"0\" FMN=\"1\" CNT=\"2\" HB=\
            \"qZk+NkcGgWq6PiVxeFDCbJzQ2J0= hJg+RBw70m66rkqh+VEp5eVGcPE=\" SIGN=\"AAAA\"]",
        b"{\"line\":\"signature\",\"place\":6,\"host\":\"h\",\"app\":\"s\",\"procid\":\"-\",\"rsid\":1,\"sg\":0,\
            \"spri\":0,\"gbc\":0,\"first\":1,\"count\":2,\"octets\":159,\"timestamp\":\"-\",\"marked\":1}",
        b"{\"line\":\"signature\",\"place\":6,\"host\":\"h\",\"app\":\"s\",\"procid\":\"-\",\"rsid\":1,\"sg\":0,\
            \"spri\":0,\"gbc\":0,\"first\":1,\"count\":2,\"octets\":159,\"timestamp\":\"-\",\"marked\":1,\"text\":\"\
            PDExMD4xIC0gaCBzIC0gLSBbc3NpZ24gVkVSPSIwMTExIiBSU0lEPSIxIiBTRz0iMCIgU1BSST0iMCIgR0JDPSIwIiBGTU49IjEiIENO\
            VD0iMiIgSEI9InFaaytOa2NHZ1dxNlBpVnhlRkRDYkp6UTJKMD0gaEpnK1JCdzcwbTY2cmtxaCtWRXA1ZVZHY1BFPSIgU0lHTj0iQUFB\
            QSJd\",\"ver\":\"0111\",\"signed\":\"PDExMD4xIC0gaCBzIC0gLSBbc3NpZ24gVkVSPSIwMTExIiBSU0lEPSIxIiBTRz0iMCIgU1BSST0iMCIgR0JD\
            PSIwIiBGTU49IjEiIENOVD0iMiIgSEI9InFaaytOa2NHZ1dxNlBpVnhlRkRDYkp6UTJKMD0gaEpnK1JCdzcwbTY2cmtxaCtWRXA1ZVZH\
            Y1BFPSJd\",\"signature\":\"AAAA\"}",
    ),
    (
        b"<13>1 - h s - - [ssign x=\"y\"] m",
        b"{\"line\":\"spoilt\",\"place\":7,\"cause\":\"S2\",\"octets\":31,\"timestamp\":\"-\",\"marked\":1}",
        b"{\"line\":\"spoilt\",\"place\":7,\"cause\":\"S2\",\"octets\":31,\"timestamp\":\"-\",\"marked\":1,\"tex\
            t\":\"PDEzPjEgLSBoIHMgLSAtIFtzc2lnbiB4PSJ5Il0gbQ==\"}",
    ),
];

/// The place of the wrap, and its line with wraps taken off where its place is named.
const WRAP: (u32, &[u8]) = (
    4,
    b"{\"line\":\"wrapped-unparsed\",\"place\":4,\"part\":\"M1\",\"offset\":0,\"octets\":27,\"timestamp\":\"\
        -\",\"text\":\"PDEzPjEgLSBoIHMgLSB3cmFwcGVkIC0gfGFi\",\"original\":\"YWI=\"}",
);

/// The log, as octet-counted frames.
fn log(alloc: Global) -> Result<Vec<u8>, AllocError> {
    let mut log = Vec::new(alloc);
    for (message, _, _) in &TEXTS {
        put_number(&mut log, message.len() as u64)?;
        log.push(b' ')?;
        log.extend_from_slice(message)?;
    }
    Ok(log)
}

/// Inspects a log with facts, and hands back what was written.
fn inspect(
    alloc: Global,
    log: &[u8],
    form: InspectionForm,
    places: &[u32],
) -> Result<(Result<Verdict, RunFault>, Vec<u8>), AllocError> {
    let places = Places::from_vec(Vec::from_slice(alloc, places)?);
    let mut reader = Watched::new(log);
    let mut writer = Watched::new(Vec::new(alloc));
    let run = Run {
        reader: &mut reader,
        writer: &mut writer,
        options: ReadOptions::undamaged(Limits::standard()),
        known: None,
        alloc,
    };
    let said = run_inspect(run, form, Some(places));
    Ok((said, writer.into_inner()))
}

/// What is written of the log where these places are named.
fn lines(alloc: Global, places: &[u32]) -> Result<Vec<u8>, AllocError> {
    let mut text = Vec::new(alloc);
    for (place, (_, line, told)) in TEXTS.iter().enumerate() {
        let is_named = places.contains(&(place as u32));
        text.extend_from_slice(if is_named { told } else { line })?;
        text.push(b'\n')?;
    }
    text.extend_from_slice(b"{\"line\":\"end\",\"count\":8}\n")?;
    Ok(text)
}

/// Whether it is what is written.
fn sees(rt: &(impl Abort + AllocGlobal), places: &[u32]) -> Result<(), AllocError> {
    let log = log(rt.alloc())?;
    let form = InspectionForm {
        lines: ReportForm::Json,
        unwrap: false,
    };
    let (said, text) = inspect(rt.alloc(), log.as_slice(), form, places)?;
    assert_eq!(rt; said, Ok(Verdict::Clean));
    let wanted = lines(rt.alloc(), places)?;
    assert!(rt; text.as_slice() == wanted.as_slice(), "{places:?}");
    Ok(())
}

/// Places are named in any order, several times, and past the end of the log.
#[test]
fn facts_stand_in_the_lines(rt: HostRuntime) -> Result<(), Fail> {
    for places in [
        &[][..],
        &[0, 1, 2, 3, 4, 5, 6, 7],
        &[7, 0],
        &[5, 3, 5, 9, 4_294_967_295, 3],
        &[6, 2, 1],
        &[8],
    ] {
        sees(&rt, places)?;
    }
    Ok(())
}

/// The findings leave out plain messages, named or not. With wraps taken off, a wrap stands in them.
#[test]
fn facts_stand_in_the_findings(rt: HostRuntime) -> Result<(), Fail> {
    let log = log(rt.alloc())?;
    let form = InspectionForm {
        lines: ReportForm::JsonFindings,
        unwrap: true,
    };
    let (wrap, line) = WRAP;
    let (said, text) = inspect(rt.alloc(), log.as_slice(), form, &[0, wrap])?;
    assert_eq!(&rt; said, Ok(Verdict::Clean));
    let mut wanted = Vec::new(rt.alloc());
    for (place, (_, told, _)) in TEXTS.iter().enumerate() {
        if place == 0 {
            continue;
        }
        wanted.extend_from_slice(if place == 4 { line } else { told })?;
        wanted.push(b'\n')?;
    }
    wanted.extend_from_slice(b"{\"line\":\"end\",\"count\":8}\n")?;
    assert!(&rt; text.as_slice() == wanted.as_slice());
    Ok(())
}

/// How many octets a message has, and how many are written of it alone in its log: its text is cut after 16,384 octets,
/// which are 21,848 characters in base64.
const LENGTHS: [(u64, usize); 4] = [
    (16_383, 21_947),
    (16_384, 21_951),
    (16_385, 21_951),
    (20_000, 21_951),
];

#[test]
fn long_texts_are_cut(rt: HostRuntime) -> Result<(), Fail> {
    let form = InspectionForm {
        lines: ReportForm::Json,
        unwrap: false,
    };
    for (length, written) in LENGTHS {
        let mut log = Vec::new(rt.alloc());
        put_number(&mut log, length)?;
        log.push(b' ')?;
        for _ in 0..length {
            log.push(b'a')?;
        }
        let (said, text) = inspect(rt.alloc(), log.as_slice(), form, &[0])?;
        assert_eq!(&rt; said, Ok(Verdict::Clean));
        assert_eq!(&rt; text.len(), written);
    }
    Ok(())
}
