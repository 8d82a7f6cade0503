//! Plays each script of standard input to an originator, and prints what comes of it. A script of `tests/` compares it
//! with a second originator. A line is a call, its words separated by SP, and octets are hexadecimal:
//!
//! - `config PRI HOST APP PROCID MSGID VER RSID GROUPS PER_BLOCK COPIES FRAG PAYLOAD`: of the originators that are made
//!   next. GROUPS is `one:SPRI`, `pri`, or `ranges:` and bounds joined by `,`; PAYLOAD is the text of a payload block.
//! - `new`, or `resume GBC SPRI:NUMBER ..`: an originator, which takes the place of the one before where it is made.
//! - `behind`: one that is resumed at the counters of the one before.
//! - `begin STAMP COUNT THEN`, `flush STAMP COUNT THEN`, `submit STAMP COUNT THEN MESSAGE`: the sealer signs so many
//!   times in the call with 32 octets. Each further time it answers as the letter says (`signer.rt` lists them).
//! - `.`: the end of a script. The next begins without an originator.
//!
//! A call is answered by the messages that are sent or the number of its refusal, and how often the sealer was asked;
//! what makes an originator, by the session or the number. Then the counters follow. A call without an originator is
//! answered by `none`, the end by `end`, and `config` by nothing.
#![tactic(auto)]

mod printing;
mod script;
mod setting;
mod signer;

use script::{Script, play};
use signer::Desk;
use std::io;
use std::io::Read;

/// Plays each script of a text.
fn run<R: Print + AllocGlobal>(rt: &R, text: &str) -> io::Result<()> {
    let desk = Desk::new();
    let mut script = Script::new(&desk);
    for line in text.lines() {
        play(rt, &mut script, line)?;
    }
    Ok(())
}

fn main(rt: HostRuntime) -> io::Result<()> {
    let mut input = Vec::new(rt.alloc());
    rt.reader().read_to_end(&mut input)?;
    match str::from_utf8(input.as_slice()) {
        Ok(text) => run(&rt, text),
        Err(_) => Ok(()),
    }
}
