//! Why counters weren't read.
ghost use Rattle.ss_octets.specs.Code.{IsCode};
ghost use Rattle.ss_answers.specs.FaultCode.{counter_fault_code};

use crate::input::InputFault;
use ss_octets::Code;

/// Why a file of counters wasn't read.
#[derive(Clone, Copy, Debug, Drop, PartialEq, Eq)]
pub enum CounterFault {
    /// C1: a line that neither is a counter nor ends a part, an empty one too.
    BadLine {
        /// The number of the first such line, counted from 1.
        line: u32,
    },
    /// C2: a read failed, or the file couldn't be opened.
    Read,
    /// C3: there are more octets than were allowed.
    TooBig,
    /// C3 too: a part has no end, or has another number of counters than its end says.
    NotWhole,
    /// C4: out of memory.
    Memory,
}

impl CounterFault {
    /// Its code, for programs. The place is the number of the line.
    pub fn code(self) -> Code
        ensures { IsCode result (counter_fault_code self) }
    {
        let (name, place) = match self {
            CounterFault::BadLine { line } => ("C1", Some(line as u64)),
            CounterFault::Read => ("C2", None),
            CounterFault::TooBig | CounterFault::NotWhole => ("C3", None),
            CounterFault::Memory => ("C4", None),
        };
        Code { name, place }
    }
}

impl From<InputFault> for CounterFault {
    ghost use Rattle.std.specs.Prelude.{◌≡◌};
    ghost use Rattle.ss_answers.specs.CounterInput.{counter_fault};

    ghost from_gives = { λ f e. e ≡ counter_fault f };

    fn from(fault: InputFault) -> CounterFault {
        match fault {
            InputFault::Read => CounterFault::Read,
            InputFault::TooBig => CounterFault::TooBig,
            InputFault::Memory => CounterFault::Memory,
        }
    }
}
