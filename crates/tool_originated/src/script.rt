//! A script that is played, call by call.
use crate::printing::{print_counters, print_emitted, print_session};
use crate::setting::{config_of, counters_of, payload_of, word};
use crate::signer::{Desk, Signer};
use ss_message::Stamp;
use ss_origin::{Config, Counters, Emitted, OriginFault, Originator};
use std::alloc::{AllocError, Global};
use std::io;

/// The line that configures, and the originator, if there is one.
#[derive(Drop)]
pub struct Script<'d, 't> {
    desk: &'d Desk,
    config: &'t str,
    originator: Option<Originator<Signer<'d>>>,
}

impl<'d, 't> Script<'d, 't> {
    pub(crate) fn new(desk: &'d Desk) -> Script<'d, 't> {
        Script {
            desk,
            config: "",
            originator: None,
        }
    }

    /// The configuration and the sealer; none where no line gave them.
    fn setting(&self, alloc: Global) -> Result<Option<(Config, Signer<'d>)>, AllocError> {
        let Some(config) = config_of(alloc, self.config)? else {
            return Ok(None);
        };
        let Some(payload) = payload_of(alloc, word(self.config, 12)) else {
            return Ok(None);
        };
        let desk = self.desk;
        Ok(Some((config, Signer { desk, payload })))
    }
}

/// Makes an originator, after these counters where there are any.
fn start<'d, 't, R: Print + AllocGlobal>(
    rt: &R,
    script: &mut Script<'d, 't>,
    counters: &Option<Counters>,
) -> io::Result<()> {
    let Some((config, signer)) = script.setting(rt.alloc())? else {
        println!(rt; "unread")?;
        return Ok(());
    };
    let made = match counters {
        None => Originator::new(rt.alloc(), config, signer),
        Some(counters) => Originator::resume(rt.alloc(), config, signer, counters),
    };
    match made {
        Ok(originator) => {
            print_session(rt, &originator)?;
            script.originator = Some(originator);
        }
        Err(not_started) => println!(rt; "{}", not_started.fault.code())?,
    }
    Ok(())
}

/// The counters of the originator, if there is one.
fn own_counters(script: &Script<'_, '_>) -> Option<Counters> {
    match &script.originator {
        Some(originator) => originator.counters().ok(),
        None => None,
    }
}

/// Makes a call: the words are its name, its stamp, what the sealer has to do, and the message.
fn call(
    alloc: Global,
    originator: &mut Originator<Signer<'_>>,
    line: &str,
) -> Result<Emitted, OriginFault> {
    let stamp = Stamp::parse(word(line, 1).as_bytes());
    match word(line, 0) {
        "begin" => originator.begin(stamp),
        "flush" => originator.flush(stamp),
        _ => match hex::decode(alloc, word(line, 4)) {
            Ok(message) => originator.submit(message.as_slice(), stamp),
            Err(_) => Err(OriginFault::Memory),
        },
    }
}

/// Orders what the sealer has to do, makes the call, and prints what came of it.
fn print_call<R: Print + AllocGlobal>(
    rt: &R,
    script: &mut Script<'_, '_>,
    line: &str,
) -> io::Result<()> {
    let count = word(line, 2).parse::<u64>().unwrap_or(0);
    let then = word(line, 3).bytes().next().unwrap_or(b'r');
    script.desk.order(count, then);
    let Some(originator) = &mut script.originator else {
        println!(rt; "none")?;
        return Ok(());
    };
    match call(rt.alloc(), originator, line) {
        Ok(emitted) => print_emitted(rt, &emitted)?,
        Err(fault) => println!(rt; "{}", fault.code())?,
    }
    println!(rt; "asked {}", script.desk.asked())?;
    Ok(())
}

/// Plays a line.
pub(crate) fn play<'d, 't, R: Print + AllocGlobal>(
    rt: &R,
    script: &mut Script<'d, 't>,
    line: &'t str,
) -> io::Result<()> {
    match word(line, 0) {
        "." => {
            script.originator = None;
            println!(rt; "end")?;
            return Ok(());
        }
        "config" => {
            script.config = line;
            return Ok(());
        }
        "new" => start(rt, script, &None)?,
        "resume" => start(rt, script, &Some(counters_of(rt.alloc(), line)?))?,
        "behind" => {
            let counters = own_counters(script);
            start(rt, script, &counters)?;
        }
        _ => print_call(rt, script, line)?,
    }
    print_counters(rt, &script.originator)
}
