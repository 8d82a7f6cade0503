//! What is missing of sessions up to counters that somebody kept.
use ss_block::{Group, Session};
use ss_message::Field;
use ss_octets::NoMemory;
use ss_review::{
    CountedSession, Counter, Counts, Entries, Entry, Gbcs, GroupReport, GroupReports, GroupTail,
    LogShortfalls, MissingRun, SessionReport, SessionState, Shortfall, Why, log_shortfalls,
};
use std::alloc::Global;
use std::process::Abort;
use std::test::Fail;

/// What a counter counts.
#[derive(Clone, Copy)]
enum What {
    Blocks,
    Reported,
    Other,
}

/// What is missing of a session: the first and the last number of its tails, and those of its runs of blocks.
struct Missing {
    rsid: u64,
    tails: &'static [(What, u64, u64)],
    blocks: &'static [(u64, u64)],
}

/// Counters, each with the RSID of its session, and what is missing of the session of the report and of others.
struct Row {
    counters: &'static [(u64, What, u64)],
    known: Missing,
    absent: &'static [Missing],
}

/// The session of the report has the RSID 1. The message 1 is listed and the message 2 lost, and the blocks with the
/// GBC 1 and 3 are there.
const ROWS: [Row; 6] = [
    Row {
        counters: &[],
        known: Missing {
            rsid: 1,
            tails: &[],
            blocks: &[(0, 0), (2, 2)],
        },
        absent: &[],
    },
    Row {
        counters: &[(1, What::Blocks, 6), (1, What::Reported, 5)],
        known: Missing {
            rsid: 1,
            tails: &[(What::Reported, 3, 4)],
            blocks: &[(0, 0), (2, 2), (4, 5)],
        },
        absent: &[],
    },
    Row {
        counters: &[(1, What::Other, 4)],
        known: Missing {
            rsid: 1,
            tails: &[(What::Other, 1, 3)],
            blocks: &[(0, 0), (2, 2)],
        },
        absent: &[],
    },
    Row {
        counters: &[(2, What::Reported, 3), (2, What::Blocks, 2)],
        known: Missing {
            rsid: 1,
            tails: &[],
            blocks: &[(0, 0), (2, 2)],
        },
        absent: &[Missing {
            rsid: 2,
            tails: &[(What::Reported, 1, 2)],
            blocks: &[(0, 1)],
        }],
    },
    Row {
        counters: &[(1, What::Blocks, 3), (1, What::Reported, 2)],
        known: Missing {
            rsid: 1,
            tails: &[],
            blocks: &[(0, 0), (2, 2)],
        },
        absent: &[],
    },
    Row {
        counters: &[
            (1, What::Reported, 6),
            (1, What::Blocks, 2),
            (1, What::Reported, 4),
        ],
        known: Missing {
            rsid: 1,
            tails: &[(What::Reported, 3, 5)],
            blocks: &[(0, 0), (2, 2)],
        },
        absent: &[],
    },
];

fn session(rsid: u64) -> Session {
    Session {
        host: Field::Nil,
        app: Field::Nil,
        procid: Field::Nil,
        rsid,
    }
}

fn group_of(what: What) -> Group {
    match what {
        What::Blocks | What::Reported => Group { sg: 0, spri: 0 },
        What::Other => Group { sg: 1, spri: 13 },
    }
}

fn counts_of(what: What) -> Counts {
    match what {
        What::Blocks => Counts::Blocks,
        What::Reported | What::Other => Counts::Messages(group_of(what)),
    }
}

fn counters_of(alloc: Global, row: &Row) -> Result<Vec<Counter>, NoMemory> {
    let mut counters = Vec::new(alloc);
    for (rsid, what, next) in row.counters {
        counters.push(Counter {
            session: session(*rsid),
            counts: counts_of(*what),
            next: *next,
        })?;
    }
    Ok(counters)
}

/// What a review reports of the group.
fn group_reported(alloc: Global) -> Result<GroupReport, NoMemory> {
    let mut entries = Vec::new(alloc);
    entries.push(Entry::Listed {
        number: 1,
        place: 0,
    })?;
    entries.push(Entry::Gap {
        number: 2,
        why: Why::Lost,
    })?;
    Ok(GroupReport {
        group: group_of(What::Reported),
        entries: Entries::from_vec(entries),
    })
}

/// What a review reports of the session.
fn reported(alloc: Global) -> Result<Vec<SessionReport>, NoMemory> {
    let mut groups = Vec::new(alloc);
    groups.push(group_reported(alloc)?)?;
    let mut sessions = Vec::new(alloc);
    sessions.push(SessionReport {
        session: session(1),
        state: SessionState::Joined,
        groups: GroupReports::from_vec(groups),
    })?;
    Ok(sessions)
}

/// The GBC of its verified signature blocks.
fn counted(alloc: Global) -> Result<Vec<CountedSession>, NoMemory> {
    let mut gbcs = Vec::new(alloc);
    gbcs.push(1)?;
    gbcs.push(3)?;
    let mut counted = Vec::new(alloc);
    counted.push(CountedSession {
        session: session(1),
        gbcs: Gbcs::from_vec(gbcs),
    })?;
    Ok(counted)
}

fn sees_tails(rt: &impl Abort, tails: &[GroupTail], wants: &[(What, u64, u64)]) {
    assert_eq!(rt; tails.len(), wants.len());
    for (tail, (what, first, last)) in tails.iter().zip(wants) {
        let want = GroupTail {
            group: group_of(*what),
            first: *first,
            last: *last,
        };
        assert_eq!(rt; *tail, want);
    }
}

fn sees_blocks(rt: &impl Abort, blocks: &[MissingRun], wants: &[(u64, u64)]) {
    assert_eq!(rt; blocks.len(), wants.len());
    for (run, (first, last)) in blocks.iter().zip(wants) {
        let want = MissingRun {
            first: *first,
            last: *last,
        };
        assert_eq!(rt; *run, want);
    }
}

/// The shortfall is that one.
fn sees(rt: &(impl Abort + AllocGlobal), shortfall: &Shortfall, missing: &Missing) {
    assert!(rt; shortfall.session == session(missing.rsid));
    sees_tails(rt, shortfall.tails.as_slice(), missing.tails);
    sees_blocks(rt, shortfall.blocks.as_slice(), missing.blocks);
}

fn sees_known(rt: &(impl Abort + AllocGlobal), known: &[Shortfall], missing: &Missing) {
    assert_eq!(rt; known.len(), 1);
    for shortfall in known {
        sees(rt, shortfall, missing);
    }
}

fn sees_absent(rt: &(impl Abort + AllocGlobal), absent: &[Shortfall], missing: &[Missing]) {
    assert_eq!(rt; absent.len(), missing.len());
    for (shortfall, missing) in absent.iter().zip(missing) {
        sees(rt, shortfall, missing);
    }
}

/// What is missing up to these counters.
fn shortfalls_of(alloc: Global, counters: &[Counter]) -> Result<LogShortfalls, NoMemory> {
    let sessions = reported(alloc)?;
    let counted = counted(alloc)?;
    log_shortfalls(alloc, counters, sessions.as_slice(), counted.as_slice())
}

fn sees_row(rt: &(impl Abort + AllocGlobal), row: &Row) -> Result<(), NoMemory> {
    let counters = counters_of(rt.alloc(), row)?;
    let all = shortfalls_of(rt.alloc(), counters.as_slice())?;
    sees_known(rt, all.known.as_slice(), &row.known);
    sees_absent(rt, all.absent.as_slice(), row.absent);
    Ok(())
}

#[test]
fn shortfalls(rt: HostRuntime) -> Result<(), Fail> {
    for row in &ROWS {
        sees_row(&rt, row)?;
    }
    Ok(())
}
