//! Prints what a review reports, as lines.
use ss_block::Spoil;
use ss_message::Field;
use ss_review::{Entry, Question, Questions, Report, SessionReport, SessionState, Why};
use std::io;

/// Prints a report.
pub(crate) fn print_report<R: Print + AllocGlobal>(rt: &R, report: &Report) -> io::Result<()> {
    for session in report.sessions.as_slice() {
        print_session(rt, session)?;
    }
    for place in report.unlisted.as_slice() {
        println!(rt; "unlisted {place}")?;
    }
    for place in report.refused.as_slice() {
        println!(rt; "refused {place}")?;
    }
    for spoilt in report.spoilt.as_slice() {
        println!(rt; "spoilt {} S{}", spoilt.place, number_of(spoilt.cause))?;
    }
    println!(rt; "count {}", report.count)?;
    Ok(())
}

fn print_session<R: Print + AllocGlobal>(rt: &R, report: &SessionReport) -> io::Result<()> {
    print!(rt; "session ")?;
    print_field(rt, &report.session.host)?;
    print_field(rt, &report.session.app)?;
    print_field(rt, &report.session.procid)?;
    println!(rt; "{} {}", report.session.rsid, state_name(report.state))?;
    for group in report.groups.as_slice() {
        println!(rt; "group {} {}", group.group.sg, group.group.spri)?;
        for entry in group.entries.as_slice() {
            print_entry(rt, entry)?;
        }
    }
    Ok(())
}

/// Prints a field and a space after it.
fn print_field<R: Print + AllocGlobal>(rt: &R, field: &Field) -> io::Result<()> {
    match field {
        Field::Nil => print!(rt; "- ")?,
        Field::Text(text) => {
            let text = hex::encode(rt.alloc(), text.as_slice())?;
            print!(rt; "{text} ")?;
        }
    }
    Ok(())
}

fn print_entry<R: Print>(rt: &R, entry: &Entry) -> io::Result<()> {
    match entry {
        Entry::Listed { number, place } => println!(rt; "listed {number} {place}")?,
        Entry::Gap {
            number,
            why: Why::Lost,
        } => println!(rt; "gap {number} lost")?,
        Entry::Gap {
            number,
            why: Why::Disputed,
        } => println!(rt; "gap {number} disputed")?,
        Entry::Hole { first, last } => println!(rt; "hole {first} {last}")?,
    }
    Ok(())
}

fn state_name(state: SessionState) -> &'static str {
    match state {
        SessionState::Joined => "joined",
        SessionState::Disputed => "disputed",
        SessionState::Incomplete => "incomplete",
        SessionState::Malformed => "malformed",
        SessionState::Untrusted => "untrusted",
        SessionState::Unaccepted => "unaccepted",
    }
}

fn number_of(cause: Spoil) -> u8 {
    match cause {
        Spoil::BothBlocks => 1,
        Spoil::Names => 2,
        Spoil::Version => 3,
        Spoil::Number => 4,
        Spoil::HashCount => 5,
        Spoil::Hash => 6,
        Spoil::Sign => 7,
        Spoil::Fragment => 8,
        Spoil::LastNumber => 9,
    }
}

/// Prints questions.
pub(crate) fn print_questions<R: Print + AllocGlobal>(
    rt: &R,
    questions: &Questions,
) -> io::Result<()> {
    for question in questions.as_slice() {
        match question {
            Question::Trust(payload) => {
                let payload = hex::encode(rt.alloc(), payload.as_slice())?;
                println!(rt; "trust {payload}")?;
            }
            Question::Yes(payload, octets, signature) => {
                let payload = hex::encode(rt.alloc(), payload.as_slice())?;
                let octets = hex::encode(rt.alloc(), octets.as_slice())?;
                let signature = hex::encode(rt.alloc(), signature.as_slice())?;
                println!(rt; "yes {payload} {octets} {signature}")?;
            }
        }
    }
    Ok(())
}
