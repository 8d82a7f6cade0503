//! Logs with damaged octets, by hand, and what each run writes of them when reading goes on.
use crate::book::{Yes, no_counters};
use ss_frame::{Form, FrameFault, Limits, Watched};
use ss_report::{
    Beside, Detail, Extraction, InspectionForm, Listing, Notation, Payloads, ReadOptions,
    ReportForm, Run, RunFault, Selection, Verdict, run_counters, run_extract, run_inspect,
    run_questions, run_review_as,
};
use ss_review::{Counter, Places};
use std::alloc::{AllocError, Global};
use std::process::Abort;
use std::test::Fail;
use test_devices::{Paper, Pieces};

/// Which run.
#[derive(Clone, Copy, Debug)]
enum Job {
    Review(ReportForm, Listing),
    Whole,
    Night,
    Questions,
    Selected,
    At(u32),
    Counters,
    Inspection(ReportForm),
}

/// Two messages of RFC 5424, and an octet between them that makes no frame.
const ONE_BETWEEN: &[u8] = b"19 <13>1 - - - - - - aX19 <13>1 - - - - - - b";

/// Logs, and the lines of their inspection.
const LOGS: [(&[u8], &[u8]); 8] = [
    (ONE_BETWEEN, b"plain 0\nplain 1\ndamaged 1 22 1\nend 2\n"),
    (b"X", b"damaged 0 0 1\nend 0\n"),
    (
        b"X19 <13>1 - - - - - - a",
        b"plain 0\ndamaged 0 0 1\nend 1\n",
    ),
    (
        b"19 <13>1 - - - - - - aXY",
        b"plain 0\ndamaged 1 22 2\nend 1\n",
    ),
    (
        b"X19 <13>1 - - - - - - a19 <13>1 - - - - - - bYZ19 <13>1 - - - - - - c",
        b"plain 0\nplain 1\nplain 2\ndamaged 0 0 1\ndamaged 2 45 2\nend 3\n",
    ),
    (
        // After damage reading goes on only at a frame after which a length stands, or the log ends.
        b"X19 <13>1 - - - - - - aYZ19 <13>1 - - - - - - b",
        b"plain 0\ndamaged 0 0 25\nend 1\n",
    ),
    (
        // A log that breaks off is torn only if nothing is damaged before.
        b"19 <13>1 - - - - - - a19 <13>1",
        b"plain 0\ntorn 22\nend 1\n",
    ),
    (
        b"X19 <13>1 - - - - - - a19 <13>1",
        b"plain 0\ndamaged 0 0 1\ndamaged 1 23 8\nend 1\n",
    ),
];

/// Runs over `ONE_BETWEEN`, and what they write.
const RUNS: [(Job, &[u8]); 15] = [
    (
        Job::Review(ReportForm::Text, Listing::Itemized),
        b"unlisted 0\nunlisted 1\ndamaged 1 22 1\nend 2\n",
    ),
    (
        Job::Review(ReportForm::Findings, Listing::Itemized),
        b"unlisted 0\nunlisted 1\ndamaged 1 22 1\nend 2\n",
    ),
    (
        Job::Review(ReportForm::Json, Listing::Itemized),
        b"{\"line\":\"unlisted\",\"place\":0}\n{\"line\":\"unlisted\",\"place\":1}\n\
          {\"line\":\"damaged\",\"place\":1,\"offset\":22,\"length\":1}\n{\"line\":\"end\",\"count\":2}\n",
    ),
    (
        Job::Review(ReportForm::Text, Listing::Tally),
        b"unlisted-count 2\nrefused-count 0\nspoilt-count 0\ndamaged-count 1 1\nend 2\n",
    ),
    (
        Job::Review(ReportForm::Json, Listing::Tally),
        b"{\"line\":\"unlisted-count\",\"count\":2}\n{\"line\":\"refused-count\",\"count\":0}\n\
          {\"line\":\"spoilt-count\",\"count\":0}\n{\"line\":\"damaged-count\",\"count\":1,\"octets\":1}\n\
          {\"line\":\"end\",\"count\":2}\n",
    ),
    (
        Job::Whole,
        b"unlisted 0\nunlisted 1\ndamaged 1 22 1\nend 2\n",
    ),
    (
        Job::Night,
        b"unlisted 0\nunlisted 1\ndamaged 1 22 1\nend 2\n",
    ),
    (Job::Questions, b""),
    (
        Job::Selected,
        b"19 <13>1 - - - - - - a19 <13>1 - - - - - - b",
    ),
    (Job::At(0), b"19 <13>1 - - - - - - a"),
    (Job::At(1), b"19 <13>1 - - - - - - b"),
    (Job::Counters, b"end 0\n"),
    (
        Job::Inspection(ReportForm::Findings),
        b"damaged 1 22 1\nend 2\n",
    ),
    (
        Job::Inspection(ReportForm::Json),
        b"{\"line\":\"plain\",\"place\":0}\n{\"line\":\"plain\",\"place\":1}\n\
          {\"line\":\"damaged\",\"place\":1,\"offset\":22,\"length\":1}\n{\"line\":\"end\",\"count\":2}\n",
    ),
    (
        Job::Inspection(ReportForm::JsonFindings),
        b"{\"line\":\"damaged\",\"place\":1,\"offset\":22,\"length\":1}\n{\"line\":\"end\",\"count\":2}\n",
    ),
];

/// The messages of a selection, as frames.
fn extraction(selection: Selection) -> Extraction {
    Extraction {
        selection,
        form: Form::Frames,
        unwrap: false,
    }
}

/// The message at a place.
fn at(alloc: Global, place: u32) -> Result<Extraction, AllocError> {
    let places = Vec::from_slice(alloc, &[place])?;
    Ok(extraction(Selection::At(Places::from_vec(places))))
}

/// An inspection in a form, with wraps as they stand.
fn as_it_stands(lines: ReportForm) -> InspectionForm {
    InspectionForm {
        lines,
        unwrap: false,
    }
}

/// The night between these counters.
fn night<'c>(first: &'c [Counter], second: Option<&'c [Counter]>) -> Beside<'c> {
    Beside::Night { first, second }
}

/// Makes a run over a log octet by octet, and hands back what was written.
fn make(
    alloc: Global,
    log: &[u8],
    job: Job,
    options: ReadOptions,
) -> Result<(Result<Verdict, RunFault>, Paper), AllocError> {
    let mut reader = Watched::new(Pieces::new(log, 1));
    let mut writer = Watched::new(Paper::new(1024));
    let run = Run {
        reader: &mut reader,
        writer: &mut writer,
        options,
        known: None,
        alloc,
    };
    let text = ReportForm::Text;
    let each = Detail::of(Listing::Itemized);
    let said = match job {
        Job::Review(form, listing) => {
            run_review_as(run, Yes, form, Detail::of(listing), Beside::Nothing)
        }
        Job::Whole => {
            let up_to = None;
            run_review_as(run, Yes, text, each, Beside::Missing { up_to })
        }
        Job::Night => {
            let beside = night(no_counters(), None);
            run_review_as(run, Yes, text, each, beside)
        }
        Job::Questions => run_questions(run, Notation::Plain, Payloads::InEach),
        Job::Selected => run_extract(run, Yes, extraction(Selection::Unlisted)),
        Job::At(place) => run_extract(run, Yes, at(alloc, place)?),
        Job::Counters => run_counters(run, Yes, Notation::Plain),
        Job::Inspection(lines) => run_inspect(run, as_it_stands(lines), None),
    };
    Ok((said, writer.into_inner()))
}

/// The run writes that, and has findings.
fn sees(
    rt: &(impl Abort + AllocGlobal),
    log: &[u8],
    job: Job,
    wanted: &[u8],
) -> Result<(), AllocError> {
    let options = ReadOptions {
        limits: Limits::standard(),
        salvage: true,
    };
    let (said, paper) = make(rt.alloc(), log, job, options)?;
    assert_eq!(rt; said, Ok(Verdict::Findings), "{job:?}");
    assert!(rt; paper.text() == wanted, "{job:?}");
    Ok(())
}

#[test]
fn reading_goes_on_after_damage(rt: HostRuntime) -> Result<(), Fail> {
    for (log, lines) in &LOGS {
        sees(&rt, log, Job::Inspection(ReportForm::Text), lines)?;
    }
    for (job, wanted) in &RUNS {
        sees(&rt, ONE_BETWEEN, *job, wanted)?;
    }
    Ok(())
}

/// The run is refused with this fault, and writes nothing.
fn is_refused(
    rt: &(impl Abort + AllocGlobal),
    options: ReadOptions,
    fault: FrameFault,
) -> Result<(), AllocError> {
    let job = Job::Inspection(ReportForm::Text);
    let (said, paper) = make(rt.alloc(), ONE_BETWEEN, job, options)?;
    assert_eq!(rt; said, Err(RunFault::Frame(fault)));
    assert_eq!(rt; paper.writes, 0);
    Ok(())
}

/// Without the option the octet is refused. With it, messages alone are counted, but any octet after the last one is a
/// message too many.
#[test]
fn limits_hold_after_damage(rt: HostRuntime) -> Result<(), Fail> {
    let bad = FrameFault::BadLength { pos: 22 };
    is_refused(&rt, ReadOptions::undamaged(Limits::standard()), bad)?;
    let limits = Limits::new(65_536, 1).ok_or("no limits")?;
    let many = FrameFault::TooManyMessages { pos: 22 };
    let options = ReadOptions {
        limits,
        salvage: true,
    };
    is_refused(&rt, options, many)?;
    Ok(())
}
