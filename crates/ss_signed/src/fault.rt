//! Why not all lines are answered.
ghost use Rattle.ss_octets.specs.Code.{IsCode};
ghost use Rattle.ss_signed.specs.FaultCode.{describe_fault_code};

use ss_octets::Code;

/// Why not all lines are answered. All lines before were, unless a write failed.
#[derive(Clone, Copy, Debug, PartialEq, Eq)]
pub enum DescribeFault {
    /// D1: the line of this number, from 1, is of another form, too long, or not ended by LF.
    Line {
        /// Its number.
        number: u64,
    },
    /// F3: a read failed.
    Read,
    /// W1: a write or a flush failed.
    Write,
    /// W2: out of memory.
    Memory,
}

impl DescribeFault {
    /// Its code, for programs.
    pub fn code(self) -> Code
        ensures { IsCode result (describe_fault_code self) }
    {
        let (name, place) = match self {
            DescribeFault::Line { number } => ("D1", Some(number)),
            DescribeFault::Read => ("F3", None),
            DescribeFault::Write => ("W1", None),
            DescribeFault::Memory => ("W2", None),
        };
        Code { name, place }
    }
}
