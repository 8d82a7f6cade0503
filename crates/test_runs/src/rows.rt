//! Small logs, whole, and what each run writes of them.
use crate::book::{Job, Who};
use crate::run::{Task, limits_of, run};
use crate::texts::{Text, log_of};
use ss_frame::{Buffered, Form};
use ss_report::Verdict;
use std::alloc::AllocError;
use std::io::Read;
use std::process::Abort;
use std::test::Fail;
use test_devices::{Paper, Pieces};

/// The report on a log of two messages and their blocks, 67 octets.
pub const REPORT: &[u8] =
    b"session h s - 1 joined\nok h s - 1 0 0 1 0\nok h s - 1 0 0 2 1\nend 4\n";

/// What is asked about it, 512 octets.
pub const QUESTIONS: &[u8] =
    b"trust? MjAwOS0wNS0wM1QxNDowMDozOVogSyBTMFZa\nyes? MjAwOS0wNS0wM1QxNDowMDozOVogSyBTMFZa \
        PDExMD4xIC0gaCBzIC0gLSBbc3NpZ24tY2VydCBWRVI9IjAxMTEiIFJTSUQ9IjEiIFNHPSIwIiBTUFJJPSIwIiBUUEJMPSIyNyIgSU5ERVg9IjE\
        iIEZMRU49IjI3IiBGUkFHPSIyMDA5LTA1LTAzVDE0OjAwOjM5WiBLIFMwVloiXQ== AAAA\nyes? \
        MjAwOS0wNS0wM1QxNDowMDozOVogSyBTMFZa PDExMD4xIC0gaCBzIC0gLSBbc3NpZ24gVkVSPSIwMTExIiBSU0lEPSIxIiBTRz0iMCIgU1BSST\
        0iMCIgR0JDPSIwIiBGTU49IjEiIENOVD0iMiIgSEI9InFaaytOa2NHZ1dxNlBpVnhlRkRDYkp6UTJKMD0gaEpnK1JCdzcwbTY2cmtxaCtWRXA1Z\
        VZHY1BFPSJd AAAA\n";

/// The same with the payload once.
pub const QUESTIONS_ONCE: &[u8] =
    b"payload 0 MjAwOS0wNS0wM1QxNDowMDozOVogSyBTMFZa\ntrust? 0\nyes? 0 PDExMD4xIC0gaCBzIC0gLSBbc3NpZ24tY2VydCBWRVI9IjAxM\
        TEiIFJTSUQ9IjEiIFNHPSIwIiBTUFJJPSIwIiBUUEJMPSIyNyIgSU5ERVg9IjEiIEZMRU49IjI3IiBGUkFHPSIyMDA5LTA1LTAzVDE0OjAwOjM\
        5WiBLIFMwVloiXQ== AAAA\nyes? 0 PDExMD4xIC0gaCBzIC0gLSBbc3NpZ24gVkVSPSIwMTExIiBSU0lEPSIxIiBTRz0iMCIgU1BSST0iMCIg\
        R0JDPSIwIiBGTU49IjEiIENOVD0iMiIgSEI9InFaaytOa2NHZ1dxNlBpVnhlRkRDYkp6UTJKMD0gaEpnK1JCdzcwbTY2cmtxaCtWRXA1ZVZHY1\
        BFPSJd AAAA\n";

/// The same as JSON.
const QUESTIONS_ONCE_JSON: &[u8] =
    b"{\"line\":\"payload\",\"payload_index\":0,\"payload\":\"MjAwOS0wNS0wM1QxNDowMDozOVogSyBTMFZa\"}\n\
        {\"line\":\"trust?\",\"payload_index\":0,\"host\":\"h\",\"app\":\"s\",\"procid\":\"-\",\"rsid\":1}\n\
        {\"line\":\"yes?\",\"payload_index\":0,\"octets\":\"PDExMD4xIC0gaCBzIC0gLSBbc3NpZ24tY2VydCBWRVI9IjAxMTEiIFJTSUQ\
        9IjEiIFNHPSIwIiBTUFJJPSIwIiBUUEJMPSIyNyIgSU5ERVg9IjEiIEZMRU49IjI3IiBGUkFHPSIyMDA5LTA1LTAzVDE0OjAwOjM5WiBLIFMwV\
        loiXQ==\",\"signature\":\"AAAA\",\"place\":2,\"host\":\"h\",\"app\":\"s\",\"procid\":\"-\",\"rsid\":1,\
        \"ver\":\"0111\",\"sg\":0,\"spri\":0,\"total\":27,\"index\":1,\"length\":27}\n{\"line\":\"yes?\",\
        \"payload_index\":0,\"octets\":\"PDExMD4xIC0gaCBzIC0gLSBbc3NpZ24gVkVSPSIwMTExIiBSU0lEPSIxIiBTRz0iMCIgU1BSST0iM\
        CIgR0JDPSIwIiBGTU49IjEiIENOVD0iMiIgSEI9InFaaytOa2NHZ1dxNlBpVnhlRkRDYkp6UTJKMD0gaEpnK1JCdzcwbTY2cmtxaCtWRXA1ZVZ\
        HY1BFPSJd\",\"signature\":\"AAAA\",\"place\":3,\"host\":\"h\",\"app\":\"s\",\"procid\":\"-\",\"rsid\":1,\
        \"ver\":\"0111\",\"sg\":0,\"spri\":0,\"gbc\":0,\"first\":1,\"count\":2}\n";

/// What is asked about a certificate block alone, as JSON.
const QUESTIONS_JSON: &[u8] =
    b"{\"line\":\"trust?\",\"payload\":\"MjAwOS0wNS0wM1QxNDowMDozOVogSyBTMFZa\",\"host\":\"h\",\"app\":\"s\",\
        \"procid\":\"-\",\"rsid\":1}\n{\"line\":\"yes?\",\"payload\":\"MjAwOS0wNS0wM1QxNDowMDozOVogSyBTMFZa\",\"octets\
        \":\"PDExMD4xIC0gaCBzIC0gLSBbc3NpZ24tY2VydCBWRVI9IjAxMTEiIFJTSUQ9IjEiIFNHPSIwIiBTUFJJPSIwIiBUUEJMPSIyNyIgSU5ER\
        Vg9IjEiIEZMRU49IjI3IiBGUkFHPSIyMDA5LTA1LTAzVDE0OjAwOjM5WiBLIFMwVloiXQ==\",\"signature\":\"AAAA\",\"place\":0,\
        \"host\":\"h\",\"app\":\"s\",\"procid\":\"-\",\"rsid\":1,\"ver\":\"0111\",\"sg\":0,\"spri\":0,\"total\":27,\
        \"index\":1,\"length\":27}\n";

/// What is extracted of it, 64 octets.
pub const EXTRACT: &[u8] = b"3 abc56 abcdbcdecdefdefgefghfghighijhijkijkljklmklmnlmnomnopnopq";

/// What is carried over of it to the next log, 146 octets.
pub const CARRIED: &[u8] =
    b"142 <110>1 - h s - - [ssign-cert VER=\"0111\" RSID=\"1\" SG=\"0\" SPRI=\"0\" TPBL=\"27\" INDEX=\"1\" FLEN=\"27\" \
        FRAG=\"2009-05-03T14:00:39Z K S0VZ\" SIGN=\"AAAA\"]";

/// A run over a log, who answers for its signatures, what is written, and the verdict.
#[derive(Clone, Copy)]
struct Row {
    name: &'static str,
    job: Job,
    log: &'static [Text],
    who: Who,
    text: &'static [u8],
    verdict: Verdict,
}

/// Rows for each run. tests/review_examples.py has those of many logs, which tests/reports.py has the built program run over.
const ROWS: [Row; 9] = [
    Row {
        name: "messages before their blocks",
        job: Job::Review,
        log: &[Text::Short, Text::Long, Text::Certificate, Text::Both],
        who: Who::All,
        text: REPORT,
        verdict: Verdict::Clean,
    },
    Row {
        name: "a missing message",
        job: Job::Review,
        log: &[Text::Short, Text::Certificate, Text::Both],
        who: Who::All,
        text: b"session h s - 1 joined\nok h s - 1 0 0 1 0\ngap h s - 1 0 0 2 lost\nend 3\n",
        verdict: Verdict::Findings,
    },
    Row {
        name: "the payload is not trusted",
        job: Job::Review,
        log: &[Text::Short, Text::Long, Text::Certificate, Text::Both],
        who: Who::NoPayload(Text::Certificate, Text::Both),
        text: b"session h s - 1 untrusted\nunlisted 0\nunlisted 1\nrefused 2\nrefused 3\nend 4\n",
        verdict: Verdict::Findings,
    },
    Row {
        name: "the questions of two blocks",
        job: Job::Questions,
        log: &[Text::Short, Text::Long, Text::Certificate, Text::Both],
        who: Who::All,
        text: QUESTIONS,
        verdict: Verdict::Clean,
    },
    Row {
        name: "the questions of two blocks, with the payload once",
        job: Job::QuestionsOnce,
        log: &[Text::Short, Text::Long, Text::Certificate, Text::Both],
        who: Who::All,
        text: QUESTIONS_ONCE,
        verdict: Verdict::Clean,
    },
    Row {
        name: "the same questions as JSON",
        job: Job::QuestionsOnceJson,
        log: &[Text::Short, Text::Long, Text::Certificate, Text::Both],
        who: Who::All,
        text: QUESTIONS_ONCE_JSON,
        verdict: Verdict::Clean,
    },
    Row {
        name: "the questions of a certificate block as JSON",
        job: Job::QuestionsJson,
        log: &[Text::Certificate],
        who: Who::All,
        text: QUESTIONS_JSON,
        verdict: Verdict::Clean,
    },
    Row {
        name: "an extract in the order of numbers",
        job: Job::Extract,
        log: &[Text::Both, Text::Certificate, Text::Short, Text::Long],
        who: Who::All,
        text: EXTRACT,
        verdict: Verdict::Clean,
    },
    Row {
        name: "the first certificate block of three is carried over",
        job: Job::Carry,
        log: &[
            Text::Short,
            Text::Certificate,
            Text::Certificate,
            Text::Long,
            Text::Both,
            Text::Certificate,
        ],
        who: Who::All,
        text: CARRIED,
        verdict: Verdict::Clean,
    },
];

/// The run of a row is the same over frames and over lines, octet by octet and through a buffer.
fn sees(rt: &(impl Abort + AllocGlobal), row: &Row, form: Form) -> Result<(), AllocError> {
    let log = log_of(rt.alloc(), row.log, form, b"")?;
    sees_run(rt, row, form, Pieces::new(&log, 1), Paper::new(1))?;
    let fast = Buffered::new(rt.alloc(), log.as_slice())?;
    sees_run(rt, row, form, fast, Paper::new(1024))
}

/// What the run of a row writes on this paper.
fn sees_run<R: Read + Drop>(
    rt: &(impl Abort + AllocGlobal),
    row: &Row,
    form: Form,
    source: R,
    paper: Paper,
) -> Result<(), AllocError> {
    let task = Task {
        job: row.job,
        who: row.who,
        limits: limits_of(form),
    };
    let done = run(rt.alloc(), task, source, paper)?;
    assert_eq!(rt; done.said, Ok(row.verdict), "{}", row.name);
    assert_eq!(rt; done.paper.text(), row.text, "{}", row.name);
    Ok(())
}

#[test]
fn rows(rt: HostRuntime) -> Result<(), Fail> {
    for row in &ROWS {
        sees(&rt, row, Form::Frames)?;
        sees(&rt, row, Form::Lines)?;
    }
    Ok(())
}
