//! Which lines stand in front of a report, and which lines it has in brief.
use crate::book::Yes;
use ss_frame::{Limits, Watched};
use ss_report::{
    Beside, Detail, Listing, ReadOptions, ReportForm, Run, RunFault, Verdict, run_review_as,
};
use std::alloc::Global;
use std::io::Read;
use std::process::Abort;
use std::test::Fail;

/// Six numbers by SHA-1, of which the second and the third are lost.
const GAPS: &str = "\
    <110>1 - h s - - [ssign-cert VER=\"0111\" RSID=\"1\" SG=\"0\" SPRI=\"0\" TPBL=\"27\" \
    INDEX=\"1\" FLEN=\"27\" FRAG=\"2009-05-03T14:00:39Z K S0VZ\" SIGN=\"AAAA\"]\n\
    <34>1 - h s - - - a\n\
    <110>1 - h s - - [ssign VER=\"0111\" RSID=\"1\" SG=\"0\" SPRI=\"0\" GBC=\"0\" FMN=\"1\" \
    CNT=\"6\" HB=\"HO45jJucAej+OEwlxZxTi2Xw/SM= GaNIilCwi18C4EkgrIkmQ6txWk4= \
    +/yIy8758HWn1iDf+x86j2DLPWs= JkH0MKDmz0PL68HepW64GBWvzbU= F6JL5rpeyPew1H6v2P7MTogV88Y= \
    HfWmW77CYHAK4z10lBKaKxNRwgA=\" SIGN=\"AAAA\"]\n\
    <34>1 - h s - - - b\n\
    <34>1 - h s - - - c\n\
    <34>1 - h s - - - d\n\
    ";

/// One number by SHA-256, and its message.
const SHA_256: &str = "\
    <110>1 - h s - - [ssign-cert VER=\"0121\" RSID=\"1\" SG=\"0\" SPRI=\"0\" TPBL=\"27\" \
    INDEX=\"1\" FLEN=\"27\" FRAG=\"2009-05-03T14:00:39Z K S0VZ\" SIGN=\"AAAA\"]\n\
    <34>1 - h s - - - a\n\
    <110>1 - h s - - [ssign VER=\"0121\" RSID=\"1\" SG=\"0\" SPRI=\"0\" GBC=\"0\" FMN=\"1\" \
    CNT=\"1\" HB=\"ND7HNeMBasNkT2n+g4ghRHEw99fzioYhLtcjTJzuJvk=\" SIGN=\"AAAA\"]\n\
    ";

/// One number by SHA-1, and its message.
const SHA_1: &str = "\
    <110>1 - h s - - [ssign-cert VER=\"0111\" RSID=\"1\" SG=\"0\" SPRI=\"0\" TPBL=\"27\" \
    INDEX=\"1\" FLEN=\"27\" FRAG=\"2009-05-03T14:00:39Z K S0VZ\" SIGN=\"AAAA\"]\n\
    <34>1 - h s - - - a\n\
    <110>1 - h s - - [ssign VER=\"0111\" RSID=\"1\" SG=\"0\" SPRI=\"0\" GBC=\"0\" FMN=\"1\" \
    CNT=\"1\" HB=\"HO45jJucAej+OEwlxZxTi2Xw/SM=\" SIGN=\"AAAA\"]\n\
    ";

/// A number whose message is lost, and a block of a session without a payload.
const NONE: &str = "\
    <110>1 - h s - - [ssign-cert VER=\"0111\" RSID=\"1\" SG=\"0\" SPRI=\"0\" TPBL=\"27\" \
    INDEX=\"1\" FLEN=\"27\" FRAG=\"2009-05-03T14:00:39Z K S0VZ\" SIGN=\"AAAA\"]\n\
    <110>1 - h s - - [ssign VER=\"0111\" RSID=\"1\" SG=\"0\" SPRI=\"0\" GBC=\"0\" FMN=\"1\" \
    CNT=\"1\" HB=\"GaNIilCwi18C4EkgrIkmQ6txWk4=\" SIGN=\"AAAA\"]\n\
    <110>1 - h s - - [ssign VER=\"0111\" RSID=\"2\" SG=\"0\" SPRI=\"0\" GBC=\"0\" FMN=\"1\" \
    CNT=\"1\" HB=\"HO45jJucAej+OEwlxZxTi2Xw/SM=\" SIGN=\"AAAA\"]\n\
    ";

/// A block of a session without a payload, and its message.
const UNVERIFIED: &str = "\
    <110>1 - h s - - [ssign VER=\"0111\" RSID=\"2\" SG=\"0\" SPRI=\"0\" GBC=\"0\" FMN=\"1\" \
    CNT=\"1\" HB=\"HO45jJucAej+OEwlxZxTi2Xw/SM=\" SIGN=\"AAAA\"]\n\
    <34>1 - h s - - - a\n\
    ";

/// No message.
const EMPTY: &str = "";

/// A log of lines, what of it is reported, and the text that is written.
struct Row {
    name: &'static str,
    log: &'static str,
    detail: Detail,
    text: &'static str,
    verdict: Verdict,
}

/// Each item, and no finding besides.
const EACH: Detail = Detail {
    listing: Listing::Itemized,
    in_order: false,
    not_empty: false,
    some_listed: false,
    no_sha1: false,
    ignore_strangers: false,
    blocks: false,
};

const ROWS: [Row; 11] = [
    Row {
        name: "each listed message has a line",
        log: GAPS,
        detail: EACH,
        text: "\
            session h s - 1 joined\n\
            ok h s - 1 0 0 1 1\n\
            gap h s - 1 0 0 2 lost\n\
            gap h s - 1 0 0 3 lost\n\
            ok h s - 1 0 0 4 3\n\
            ok h s - 1 0 0 5 4\n\
            ok h s - 1 0 0 6 5\n\
            end 6\n\
            ",
        verdict: Verdict::Findings,
    },
    Row {
        name: "in brief, listed messages beside a gap, the last one, and counts",
        log: GAPS,
        detail: Detail {
            listing: Listing::Brief,
            ..EACH
        },
        text: "\
            session h s - 1 joined\n\
            ok h s - 1 0 0 1 1\n\
            gap h s - 1 0 0 2 lost\n\
            gap h s - 1 0 0 3 lost\n\
            ok h s - 1 0 0 4 3\n\
            ok h s - 1 0 0 6 5\n\
            tally h s - 1 0 0 4 2 0 0 1 6\n\
            end 6\n\
            ",
        verdict: Verdict::Findings,
    },
    Row {
        name: "in brief, of a group without a gap the last one, and counts",
        log: SHA_256,
        detail: Detail {
            listing: Listing::Brief,
            ..EACH
        },
        text: "\
            session h s - 1 joined\n\
            ok h s - 1 0 0 1 1\n\
            tally h s - 1 0 0 1 0 0 0 1 1\n\
            end 3\n\
            ",
        verdict: Verdict::Clean,
    },
    Row {
        name: "blocks stand in front",
        log: GAPS,
        detail: Detail {
            blocks: true,
            ..EACH
        },
        text: "\
            certificate-block 0 yes h s - 1 0111 0 0 27 1 27\n\
            signature-block 2 yes h s - 1 0111 0 0 0 1 6\n\
            session h s - 1 joined\n\
            ok h s - 1 0 0 1 1\n\
            gap h s - 1 0 0 2 lost\n\
            gap h s - 1 0 0 3 lost\n\
            ok h s - 1 0 0 4 3\n\
            ok h s - 1 0 0 5 4\n\
            ok h s - 1 0 0 6 5\n\
            end 6\n\
            ",
        verdict: Verdict::Findings,
    },
    Row {
        name: "verified blocks are no finding",
        log: SHA_256,
        detail: Detail {
            some_listed: true,
            no_sha1: true,
            blocks: true,
            ..EACH
        },
        text: "\
            certificate-block 0 yes h s - 1 0121 0 0 27 1 27\n\
            signature-block 2 yes h s - 1 0121 0 0 0 1 1\n\
            session h s - 1 joined\n\
            ok h s - 1 0 0 1 1\n\
            end 3\n\
            ",
        verdict: Verdict::Clean,
    },
    Row {
        name: "SHA-1 alone is no finding, if it is not asked for",
        log: SHA_1,
        detail: Detail {
            some_listed: true,
            ..EACH
        },
        text: "\
            session h s - 1 joined\n\
            ok h s - 1 0 0 1 1\n\
            end 3\n\
            ",
        verdict: Verdict::Clean,
    },
    Row {
        name: "SHA-1 alone is a finding, if it is asked for",
        log: SHA_1,
        detail: Detail {
            no_sha1: true,
            ..EACH
        },
        text: "\
            sha1 2\n\
            session h s - 1 joined\n\
            ok h s - 1 0 0 1 1\n\
            end 3\n\
            ",
        verdict: Verdict::Findings,
    },
    Row {
        name: "SHA-1 stands before tallies",
        log: GAPS,
        detail: Detail {
            listing: Listing::Tally,
            no_sha1: true,
            ..EACH
        },
        text: "\
            sha1 2\n\
            session h s - 1 joined\n\
            tally h s - 1 0 0 4 2 0 0 1 6\n\
            unlisted-count 0\n\
            refused-count 0\n\
            spoilt-count 0\n\
            end 6\n\
            ",
        verdict: Verdict::Findings,
    },
    Row {
        name: "nothing listed is a finding, and an unverified block has no",
        log: NONE,
        detail: Detail {
            listing: Listing::Brief,
            some_listed: true,
            no_sha1: true,
            blocks: true,
            ..EACH
        },
        text: "\
            certificate-block 0 yes h s - 1 0111 0 0 27 1 27\n\
            signature-block 1 yes h s - 1 0111 0 0 0 1 1\n\
            signature-block 2 no h s - 2 0111 0 0 0 1 1\n\
            sha1 1\n\
            none-listed\n\
            session h s - 1 joined\n\
            gap h s - 1 0 0 1 lost\n\
            tally h s - 1 0 0 0 1 0 0 1 1\n\
            session h s - 2 incomplete\n\
            refused 2\n\
            end 3\n\
            ",
        verdict: Verdict::Findings,
    },
    Row {
        name: "SHA-1 of an unverified block is no finding",
        log: UNVERIFIED,
        detail: Detail {
            some_listed: true,
            no_sha1: true,
            ..EACH
        },
        text: "\
            none-listed\n\
            session h s - 2 incomplete\n\
            unlisted 1\n\
            refused 0\n\
            end 2\n\
            ",
        verdict: Verdict::Findings,
    },
    Row {
        name: "no message, so none is listed",
        log: EMPTY,
        detail: Detail {
            some_listed: true,
            no_sha1: true,
            blocks: true,
            ..EACH
        },
        text: "\
            none-listed\n\
            end 0\n\
            ",
        verdict: Verdict::Findings,
    },
];

/// The report in plain text on a log of lines whose payloads are all trusted, and whose signatures are all valid.
fn reports<R: Read + Drop>(
    alloc: Global,
    source: R,
    detail: Detail,
) -> Result<(Verdict, Vec<u8>), RunFault> {
    let mut reader = Watched::new(source);
    let mut writer = Watched::new(Vec::new(alloc));
    let run = Run {
        reader: &mut reader,
        writer: &mut writer,
        options: ReadOptions::undamaged(Limits::standard().lines()),
        known: None,
        alloc,
    };
    let verdict = run_review_as(run, &Yes, ReportForm::Text, detail, Beside::Nothing)?;
    Ok((verdict, writer.into_inner()))
}

fn sees(rt: &(impl Abort + AllocGlobal), row: &Row) -> Result<(), RunFault> {
    let (verdict, text) = reports(rt.alloc(), row.log.as_bytes(), row.detail)?;
    assert_eq!(rt; verdict, row.verdict, "{}", row.name);
    assert_eq!(rt; text.as_slice(), row.text.as_bytes(), "{}", row.name);
    Ok(())
}

#[test]
fn details(rt: HostRuntime) -> Result<(), Fail> {
    for row in &ROWS {
        sees(&rt, row)?;
    }
    Ok(())
}
