//! Why not all lines are answered.
ghost use Rattle.ss_octets.specs.Code.{IsCode};
ghost use Rattle.ss_spelled.specs.FaultCode.{spell_fault_code};

use ss_octets::Code;

/// Why not all lines are answered. All lines before were, unless a write failed.
#[derive(Clone, Copy, Debug, PartialEq, Eq)]
pub enum SpellFault {
    /// G1: the line of this number, from 1, is of another form, too long, or not ended by LF.
    Line {
        /// Its number.
        number: u64,
    },
    /// F3: a read failed.
    Read,
    /// W1: a write or a flush failed.
    Write,
    /// W2: out of memory.
    Memory,
}

impl SpellFault {
    /// Its code, for programs.
    pub fn code(self) -> Code
        ensures { IsCode result (spell_fault_code self) }
    {
        let (name, place) = match self {
            SpellFault::Line { number } => ("G1", Some(number)),
            SpellFault::Read => ("F3", None),
            SpellFault::Write => ("W1", None),
            SpellFault::Memory => ("W2", None),
        };
        Code { name, place }
    }
}
