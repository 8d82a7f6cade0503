//! The codes of faults, for programs.
ghost use Rattle.std.specs.Prelude.{Some};
ghost use Rattle.ss_octets.specs.Code.{code_text};

use std::fmt;

/// The code by which programs know a fault. It is printed as its name; if it has a place, a space and the place follow.
#[derive(Clone, Copy, Debug, PartialEq, Eq)]
pub struct Code {
    /// A letter, and a number that stays the same: `F2`.
    pub name: &'static str,
    /// Where the fault is, for a fault that has a place: an octet or a message, counted from 0, or a line, counted from
    /// 1. Each fault says which.
    pub place: Option<u64>,
}

impl fmt::Display for Code {
    ghost output = { λ code. Some (code_text (code.name.now, code.place)) };

    fn fmt<W: fmt::Write>(&self, f: &mut fmt::Formatter<W>) -> fmt::Result {
        match self.place {
            None => f.write_str(self.name),
            Some(place) => write!(f, "{} {place}", self.name),
        }
    }
}
