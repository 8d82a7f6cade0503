//! Runs one part of the libraries over its input, so that the scripts of `bench/` can time that part and nothing else.
//! Its words:
//!
//! - `frames`, `lines`: reads the messages of standard input in that form.
//! - `messages`: reads each line of standard input as a message; with the word `scan` it finds the lines alone.
//! - `joining ORDER COUNT`: joins so many fragments of one octet each, in the order `rising`, `falling`, `shuffled`,
//!   `whole` or `joiners` (`joining.rt`).
//! - `review`: reviews the frames of standard input under a scheme that says yes to everything; with the word `feed` it
//!   feeds them to the reviewer alone.
//!
//! Without a word it does a little of each, the frames from standard input.
#![tactic(auto)]

mod frames;
mod joining;
mod messages;
mod reviewing;

use joining::Order;
use ss_frame::Limits;
use std::alloc::AllocError;
use std::rt::Env;
use std::{env, io};

/// The words that the program was given, its own name first.
fn words<R: Env + AllocGlobal>(rt: &R) -> io::Result<Vec<String>> {
    let mut words = Vec::new(rt.alloc());
    for word in env::args(rt)? {
        words.push(word).map_err(AllocError::from)?;
    }
    Ok(words)
}

/// The word at a place, or an empty one.
fn word(words: &[String], place: usize) -> &str {
    match words.get(place) {
        Some(word) => word.as_str(),
        None => "",
    }
}

fn main(rt: HostRuntime) -> io::Result<()> {
    let words = words(&rt)?;
    let detail = word(&words, 2);
    match word(&words, 1) {
        "frames" => frames::run(&rt, Limits::standard()),
        "lines" => frames::run(&rt, Limits::standard().lines()),
        "messages" => messages::run(&rt, detail == "scan"),
        "review" => reviewing::run(&rt, Limits::standard(), detail != "feed"),
        "joining" => {
            let count = word(&words, 3).parse::<u32>().unwrap_or(1_000);
            joining::run(&rt, Order::named(detail), count)
        }
        _ => {
            frames::run(&rt, Limits::standard())?;
            messages::print(&rt, b"<0>1 - - - - - -\nx", false)?;
            joining::run(&rt, Order::Shuffled, 1_000)
        }
    }
}
