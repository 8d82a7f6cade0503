//! The examples of the READMEs of `ss_review`, `ss_between` and `ss_report`, line by line.
use crate::book::Yes;
use ss_between::{Bounds, entry_left};
use ss_block::{Group, Session};
use ss_frame::{Limits, Watched};
use ss_message::Field;
use ss_octets::NoMemory;
use ss_report::{RunFault, Verdict, run_review};
use ss_review::{Counter, Counts, Entry, Report, ReviewFault, Reviewer};
use std::alloc::Global;
use std::test::Fail;

fn reviews(alloc: Global, messages: &[&[u8]], judge: &Yes) -> Result<Report, ReviewFault> {
    let mut reviewer = Reviewer::new(alloc, 1_000_000);
    for message in messages {
        reviewer.feed(message)?;
    }
    let report = reviewer.finish(judge)?;
    Ok(report)
}

fn left_of(
    alloc: Global,
    counters: &[Counter],
    session: &Session,
    group: Group,
    entry: Entry,
) -> Result<Option<Entry>, NoMemory> {
    let night = Bounds::of(alloc, counters)?;
    let number = night.number(session, group);
    let left = entry_left(number, entry);
    Ok(left)
}

fn unnamed_session() -> Session {
    Session {
        host: Field::Nil,
        app: Field::Nil,
        procid: Field::Nil,
        rsid: 1,
    }
}

fn reports(alloc: Global, log: &[u8], judge: &Yes) -> Result<(Verdict, Vec<u8>), RunFault> {
    let mut reader = Watched::new(log);
    let mut writer = Watched::new(Vec::new(alloc));
    let limits = Limits::standard().lines();
    let verdict = run_review(alloc, &mut reader, &mut writer, judge, limits)?;
    let text = writer.into_inner();
    Ok((verdict, text))
}

#[test]
fn plain_messages_are_unlisted(rt: HostRuntime) -> Result<(), Fail> {
    let first = b"<34>1 - h su - ID47 - hello".as_slice();
    let second = b"<34>1 - h su - ID47 - again".as_slice();
    let report = reviews(rt.alloc(), &[first, second], &Yes)?;
    assert_eq!(rt; report.unlisted.as_slice(), [0u32, 1u32].as_slice());
    Ok(())
}

#[test]
fn a_hole_is_cut_at_the_counter(rt: HostRuntime) -> Result<(), Fail> {
    let group = Group { sg: 0, spri: 0 };
    let mut counters = Vec::new(rt.alloc());
    counters.push(Counter {
        session: unnamed_session(),
        counts: Counts::Messages(group),
        next: 5,
    })?;
    let hole = Entry::Hole { first: 3, last: 8 };
    let left = left_of(
        rt.alloc(),
        counters.as_slice(),
        &unnamed_session(),
        group,
        hole,
    )?;
    assert_eq!(rt; left, Some(Entry::Hole { first: 5, last: 8 }));
    Ok(())
}

#[test]
fn a_log_without_messages_is_clean(rt: HostRuntime) -> Result<(), Fail> {
    let (verdict, text) = reports(rt.alloc(), b"", &Yes)?;
    assert_eq!(rt; verdict, Verdict::Clean);
    assert_eq!(rt; text.as_slice(), b"end 0\n".as_slice());
    Ok(())
}
