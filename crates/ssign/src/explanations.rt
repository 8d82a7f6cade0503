//! What the codes and the words of the program's output mean, in five tables. The documents have those that the
//! program prints, in the same order: refusals, lines and words, and faults.
mod faults;
mod lines;
mod refusals;
mod unprinted;
mod words;

use faults::FAULTS;
use lines::LINES;
use refusals::REFUSALS;
use unprinted::UNPRINTED;
use words::WORDS;

/// What a code or a word of the output means.
#[derive(Clone, Copy, Debug)]
pub struct Explanation {
    /// The code or word, as it is printed.
    pub code: &'static str,
    /// What it means, how it comes about and what to do: a paragraph, without a line feed.
    pub text: &'static str,
}

/// Tables of explanations, in the order in which a code is looked for in them.
#[derive(Clone, Copy)]
pub struct Tables<'t> {
    /// Of refusals.
    pub refusals: &'t [Explanation],
    /// Of words of a verdict, and of lines of a report.
    pub lines: &'t [Explanation],
    /// Of other words of the output.
    pub words: &'t [Explanation],
    /// Of what is wrong with a message.
    pub faults: &'t [Explanation],
    /// Of codes that the program never prints.
    pub unprinted: &'t [Explanation],
}

/// The tables of the program.
pub fn all_tables() -> Tables<'static> {
    Tables {
        refusals: &REFUSALS,
        lines: &LINES,
        words: &WORDS,
        faults: &FAULTS,
        unprinted: &UNPRINTED,
    }
}
