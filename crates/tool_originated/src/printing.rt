//! Prints what comes of calls, as lines.
use crate::signer::Signer;
use ss_message::Field;
use ss_origin::{Counters, Emitted, Originator};
use std::io;

/// Prints each message that is to be sent.
pub(crate) fn print_emitted<R: Print + AllocGlobal>(rt: &R, emitted: &Emitted) -> io::Result<()> {
    for message in emitted.as_slice() {
        let message = hex::encode(rt.alloc(), message.as_slice())?;
        println!(rt; "sent {message}")?;
    }
    Ok(())
}

fn print_field<R: Print + AllocGlobal>(rt: &R, field: &Field) -> io::Result<()> {
    match field {
        Field::Nil => print!(rt; "- ")?,
        Field::Text(text) => {
            let text = hex::encode(rt.alloc(), text.as_slice())?;
            print!(rt; "{text} ")?;
        }
    }
    Ok(())
}

/// Prints the session of an originator.
pub(crate) fn print_session<R: Print + AllocGlobal>(
    rt: &R,
    originator: &Originator<Signer<'_>>,
) -> io::Result<()> {
    let Ok(session) = originator.session() else {
        println!(rt; "no memory")?;
        return Ok(());
    };
    print!(rt; "session ")?;
    print_field(rt, &session.host)?;
    print_field(rt, &session.app)?;
    print_field(rt, &session.procid)?;
    println!(rt; "{}", session.rsid)?;
    Ok(())
}

fn print_numbers<R: Print>(rt: &R, counters: &Counters) -> io::Result<()> {
    print!(rt; "counters {}", counters.gbc)?;
    for next in counters.groups.as_slice() {
        print!(rt; " {}:{}", next.spri, next.number)?;
    }
    println!(rt; "")?;
    Ok(())
}

/// Prints the counters of the originator, if there is one.
pub(crate) fn print_counters<R: Print>(
    rt: &R,
    originator: &Option<Originator<Signer<'_>>>,
) -> io::Result<()> {
    let Some(originator) = originator else {
        return Ok(());
    };
    match originator.counters() {
        Ok(counters) => print_numbers(rt, &counters),
        Err(_) => {
            println!(rt; "no memory")?;
            Ok(())
        }
    }
}
