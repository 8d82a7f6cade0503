//! Which refused blocks are findings, where those of strangers are to be ignored.
ghost use Rattle.std.specs.Prelude.{true};
ghost use Rattle.std.specs.Str.{bytes_eq};

use crate::book::SIGN;
use ss_frame::{Limits, Watched};
use ss_report::{
    Beside, Detail, Listing, ReadOptions, ReportForm, Run, RunFault, Verdict, run_review_as,
};
use ss_review::Judge;
use std::alloc::Global;
use std::io::Read;
use std::process::Abort;
use std::test::Fail;

/// Trusts each payload, and says yes to one signature alone.
#[derive(Drop)]
struct OneSignature<'s> {
    signature: &'s [u8],
}

impl<'s> Judge for OneSignature<'s> {
    ghost sound = { λ _. Unit {0} };

    ghost askable = { λ _ _. Unit {0} };

    ghost trusted = { λ _ _. true };

    ghost valid = { λ one _ _ s. bytes_eq s one.signature.now };

    fn trusts(&self, _payload: &[u8]) -> bool {
        true
    }

    fn accepts(&self, _payload: &[u8], _octets: &[u8], signature: &[u8]) -> bool {
        signature == self.signature
    }
}

/// The report in plain text, with what is missing, on a log of lines in which the signature `AAAA` alone is valid.
fn reports<R: Read + Drop>(
    alloc: Global,
    source: R,
    detail: Detail,
) -> Result<(Verdict, Vec<u8>), RunFault> {
    let mut reader = Watched::new(source);
    let mut writer = Watched::new(Vec::new(alloc));
    let run = Run {
        reader: &mut reader,
        writer: &mut writer,
        options: ReadOptions::undamaged(Limits::standard().lines()),
        known: None,
        alloc,
    };
    let judge = OneSignature { signature: SIGN };
    let beside = Beside::Missing { up_to: None };
    let verdict = run_review_as(run, &judge, ReportForm::Text, detail, beside)?;
    Ok((verdict, writer.into_inner()))
}

/// A refused block that repeats a GBC and a number.
const KNOWN: &str = "\
    <110>1 - h s - - [ssign-cert VER=\"0111\" RSID=\"1\" SG=\"0\" SPRI=\"0\" TPBL=\"27\" \
    INDEX=\"1\" FLEN=\"27\" FRAG=\"2009-05-03T14:00:39Z K S0VZ\" SIGN=\"AAAA\"]\n\
    <34>1 - h s - - - a\n\
    <110>1 - h s - - [ssign VER=\"0111\" RSID=\"1\" SG=\"0\" SPRI=\"0\" GBC=\"0\" FMN=\"1\" \
    CNT=\"1\" HB=\"HO45jJucAej+OEwlxZxTi2Xw/SM=\" SIGN=\"AAAA\"]\n\
    <110>1 - h s - - [ssign VER=\"0111\" RSID=\"1\" SG=\"0\" SPRI=\"0\" GBC=\"0\" FMN=\"1\" \
    CNT=\"1\" HB=\"JkH0MKDmz0PL68HepW64GBWvzbU=\" SIGN=\"BBBB\"]\n\
    ";

/// The same, and a message that is listed nowhere.
const UNLISTED: &str = "\
    <110>1 - h s - - [ssign-cert VER=\"0111\" RSID=\"1\" SG=\"0\" SPRI=\"0\" TPBL=\"27\" \
    INDEX=\"1\" FLEN=\"27\" FRAG=\"2009-05-03T14:00:39Z K S0VZ\" SIGN=\"AAAA\"]\n\
    <34>1 - h s - - - a\n\
    <110>1 - h s - - [ssign VER=\"0111\" RSID=\"1\" SG=\"0\" SPRI=\"0\" GBC=\"0\" FMN=\"1\" \
    CNT=\"1\" HB=\"HO45jJucAej+OEwlxZxTi2Xw/SM=\" SIGN=\"AAAA\"]\n\
    <110>1 - h s - - [ssign VER=\"0111\" RSID=\"1\" SG=\"0\" SPRI=\"0\" GBC=\"0\" FMN=\"1\" \
    CNT=\"1\" HB=\"JkH0MKDmz0PL68HepW64GBWvzbU=\" SIGN=\"BBBB\"]\n\
    <34>1 - h s - - - b\n\
    ";

/// Refused blocks with a greater GBC, with a greater last number, and of a group that no verified block announces.
const LATE: &str = "\
    <110>1 - h s - - [ssign-cert VER=\"0111\" RSID=\"1\" SG=\"0\" SPRI=\"0\" TPBL=\"27\" \
    INDEX=\"1\" FLEN=\"27\" FRAG=\"2009-05-03T14:00:39Z K S0VZ\" SIGN=\"AAAA\"]\n\
    <34>1 - h s - - - a\n\
    <110>1 - h s - - [ssign VER=\"0111\" RSID=\"1\" SG=\"0\" SPRI=\"0\" GBC=\"0\" FMN=\"1\" \
    CNT=\"1\" HB=\"HO45jJucAej+OEwlxZxTi2Xw/SM=\" SIGN=\"AAAA\"]\n\
    <110>1 - h s - - [ssign VER=\"0111\" RSID=\"1\" SG=\"0\" SPRI=\"0\" GBC=\"1\" FMN=\"1\" \
    CNT=\"1\" HB=\"JkH0MKDmz0PL68HepW64GBWvzbU=\" SIGN=\"BBBB\"]\n\
    <110>1 - h s - - [ssign VER=\"0111\" RSID=\"1\" SG=\"0\" SPRI=\"0\" GBC=\"0\" FMN=\"1\" \
    CNT=\"2\" HB=\"JkH0MKDmz0PL68HepW64GBWvzbU= JkH0MKDmz0PL68HepW64GBWvzbU=\" SIGN=\"BBBB\"]\n\
    <110>1 - h s - - [ssign VER=\"0111\" RSID=\"1\" SG=\"1\" SPRI=\"34\" GBC=\"0\" FMN=\"1\" \
    CNT=\"1\" HB=\"JkH0MKDmz0PL68HepW64GBWvzbU=\" SIGN=\"BBBB\"]\n\
    ";

/// A refused block that repeats a GBC and a number of its session, and a later session of its originator that reaches
/// less.
const OTHER: &str = "\
    <110>1 - h s - - [ssign-cert VER=\"0111\" RSID=\"1\" SG=\"0\" SPRI=\"0\" TPBL=\"27\" \
    INDEX=\"1\" FLEN=\"27\" FRAG=\"2009-05-03T14:00:39Z K S0VZ\" SIGN=\"AAAA\"]\n\
    <34>1 - h s - - - a\n\
    <110>1 - h s - - [ssign VER=\"0111\" RSID=\"1\" SG=\"0\" SPRI=\"0\" GBC=\"0\" FMN=\"1\" \
    CNT=\"1\" HB=\"HO45jJucAej+OEwlxZxTi2Xw/SM=\" SIGN=\"AAAA\"]\n\
    <110>1 - h s - - [ssign VER=\"0111\" RSID=\"1\" SG=\"0\" SPRI=\"0\" GBC=\"0\" FMN=\"1\" \
    CNT=\"1\" HB=\"JkH0MKDmz0PL68HepW64GBWvzbU=\" SIGN=\"BBBB\"]\n\
    <110>1 - h s - - [ssign-cert VER=\"0111\" RSID=\"2\" SG=\"0\" SPRI=\"0\" TPBL=\"27\" \
    INDEX=\"1\" FLEN=\"27\" FRAG=\"2009-05-03T14:00:39Z K S0VZ\" SIGN=\"AAAA\"]\n\
    ";

/// The same, where that session is of another originator, and one of the same isn't joined.
const APART: &str = "\
    <110>1 - h s - - [ssign-cert VER=\"0111\" RSID=\"1\" SG=\"0\" SPRI=\"0\" TPBL=\"27\" \
    INDEX=\"1\" FLEN=\"27\" FRAG=\"2009-05-03T14:00:39Z K S0VZ\" SIGN=\"AAAA\"]\n\
    <34>1 - h s - - - a\n\
    <110>1 - h s - - [ssign VER=\"0111\" RSID=\"1\" SG=\"0\" SPRI=\"0\" GBC=\"0\" FMN=\"1\" \
    CNT=\"1\" HB=\"HO45jJucAej+OEwlxZxTi2Xw/SM=\" SIGN=\"AAAA\"]\n\
    <110>1 - h s - - [ssign VER=\"0111\" RSID=\"1\" SG=\"0\" SPRI=\"0\" GBC=\"0\" FMN=\"1\" \
    CNT=\"1\" HB=\"JkH0MKDmz0PL68HepW64GBWvzbU=\" SIGN=\"BBBB\"]\n\
    <110>1 - h t - - [ssign-cert VER=\"0111\" RSID=\"1\" SG=\"0\" SPRI=\"0\" TPBL=\"27\" \
    INDEX=\"1\" FLEN=\"27\" FRAG=\"2009-05-03T14:00:39Z K S0VZ\" SIGN=\"AAAA\"]\n\
    <110>1 - h s - - [ssign VER=\"0111\" RSID=\"2\" SG=\"0\" SPRI=\"0\" GBC=\"0\" FMN=\"1\" \
    CNT=\"1\" HB=\"HO45jJucAej+OEwlxZxTi2Xw/SM=\" SIGN=\"BBBB\"]\n\
    ";

/// A refused certificate block, with the fragment of the verified one, and no signature block.
const CERTIFICATE: &str = "\
    <110>1 - h s - - [ssign-cert VER=\"0111\" RSID=\"1\" SG=\"0\" SPRI=\"0\" TPBL=\"27\" \
    INDEX=\"1\" FLEN=\"27\" FRAG=\"2009-05-03T14:00:39Z K S0VZ\" SIGN=\"AAAA\"]\n\
    <110>1 - h s - - [ssign-cert VER=\"0111\" RSID=\"1\" SG=\"0\" SPRI=\"0\" TPBL=\"27\" \
    INDEX=\"1\" FLEN=\"27\" FRAG=\"2009-05-03T14:00:39Z K S0VZ\" SIGN=\"BBBB\"]\n\
    ";

/// A log of lines, what of it is reported, and the text that is written.
struct Row {
    name: &'static str,
    log: &'static str,
    detail: Detail,
    text: &'static str,
    verdict: Verdict,
}

/// Each item, and refused blocks that are no finding.
const IGNORING: Detail = Detail {
    listing: Listing::Itemized,
    in_order: false,
    not_empty: false,
    some_listed: false,
    no_sha1: false,
    ignore_strangers: true,
    blocks: false,
};

const ROWS: [Row; 8] = [
    Row {
        name: "a refused block is a finding",
        log: KNOWN,
        detail: Detail {
            ignore_strangers: false,
            ..IGNORING
        },
        text: "\
            session h s - 1 joined\n\
            ok h s - 1 0 0 1 1\n\
            refused 3\n\
            end 4\n\
            ",
        verdict: Verdict::Findings,
    },
    Row {
        name: "one that announces what is known is ignored",
        log: KNOWN,
        detail: IGNORING,
        text: "\
            session h s - 1 joined\n\
            ok h s - 1 0 0 1 1\n\
            refused 3\n\
            end 4\n\
            ",
        verdict: Verdict::Clean,
    },
    Row {
        name: "a message that is listed nowhere isn't ignored",
        log: UNLISTED,
        detail: IGNORING,
        text: "\
            session h s - 1 joined\n\
            ok h s - 1 0 0 1 1\n\
            unlisted 4\n\
            refused 3\n\
            end 5\n\
            ",
        verdict: Verdict::Findings,
    },
    Row {
        name: "one may be the last of its signer, by GBC, by its numbers, or by its group",
        log: LATE,
        detail: Detail {
            listing: Listing::Tally,
            blocks: true,
            ..IGNORING
        },
        text: "\
            certificate-block 0 yes h s - 1 0111 0 0 27 1 27\n\
            signature-block 2 yes h s - 1 0111 0 0 0 1 1\n\
            signature-block 3 no h s - 1 0111 0 0 1 1 1\n\
            signature-block 4 no h s - 1 0111 0 0 0 1 2\n\
            signature-block 5 no h s - 1 0111 1 34 0 1 1\n\
            not-ignored 3 late\n\
            not-ignored 4 late\n\
            not-ignored 5 late\n\
            session h s - 1 joined\n\
            tally h s - 1 0 0 1 0 0 0 1 1\n\
            unlisted-count 0\n\
            refused-count 3\n\
            spoilt-count 0\n\
            end 6\n\
            ",
        verdict: Verdict::Findings,
    },
    Row {
        name: "or by the reach of another session of its originator",
        log: OTHER,
        detail: IGNORING,
        text: "\
            not-ignored 3 late\n\
            session h s - 1 joined\n\
            ok h s - 1 0 0 1 1\n\
            session h s - 2 joined\n\
            refused 3\n\
            end 5\n\
            ",
        verdict: Verdict::Findings,
    },
    Row {
        name: "but not by that of another originator, nor by that of a session that isn't joined",
        log: APART,
        detail: IGNORING,
        text: "\
            not-ignored 5 unjoined\n\
            session h s - 1 joined\n\
            ok h s - 1 0 0 1 1\n\
            session h s - 2 incomplete\n\
            session h t - 1 joined\n\
            refused 3\n\
            refused 5\n\
            end 6\n\
            ",
        verdict: Verdict::Findings,
    },
    Row {
        name: "a certificate block is ignored",
        log: CERTIFICATE,
        detail: IGNORING,
        text: "\
            session h s - 1 joined\n\
            refused 1\n\
            end 2\n\
            ",
        verdict: Verdict::Clean,
    },
    Row {
        name: "but not that nothing is listed, or that a session rests on SHA-1",
        log: OTHER,
        detail: Detail {
            listing: Listing::Brief,
            some_listed: true,
            no_sha1: true,
            ..IGNORING
        },
        text: "\
            sha1 2\n\
            not-ignored 3 late\n\
            session h s - 1 joined\n\
            ok h s - 1 0 0 1 1\n\
            tally h s - 1 0 0 1 0 0 0 1 1\n\
            session h s - 2 joined\n\
            refused 3\n\
            end 5\n\
            ",
        verdict: Verdict::Findings,
    },
];

fn sees(rt: &(impl Abort + AllocGlobal), row: &Row) -> Result<(), RunFault> {
    let (verdict, text) = reports(rt.alloc(), row.log.as_bytes(), row.detail)?;
    assert_eq!(rt; verdict, row.verdict, "{}", row.name);
    assert_eq!(rt; text.as_slice(), row.text.as_bytes(), "{}", row.name);
    Ok(())
}

#[test]
fn strangers(rt: HostRuntime) -> Result<(), Fail> {
    for row in &ROWS {
        sees(&rt, row)?;
    }
    Ok(())
}
