//! Why places weren't read.
ghost use Rattle.ss_octets.specs.Code.{IsCode};
ghost use Rattle.ss_answers.specs.FaultCode.{place_fault_code};

use crate::input::InputFault;
use ss_octets::Code;

/// Why a file of places wasn't read.
#[derive(Clone, Copy, Debug, Drop, PartialEq, Eq)]
pub enum PlaceFault {
    /// N1: a line that isn't a place, an empty one too.
    BadLine {
        /// The number of the first such line, counted from 1.
        line: u32,
    },
    /// N2: a read failed, or the file couldn't be opened.
    Read,
    /// N3: there are more octets than were allowed.
    TooBig,
    /// N3 too: there are more than 10,000,000 lines.
    TooMany,
    /// N3 too: the last line isn't ended by a line feed.
    NotWhole,
    /// N4: out of memory.
    Memory,
}

impl PlaceFault {
    /// Its code, for programs. The place is the number of the line.
    pub fn code(self) -> Code
        ensures { IsCode result (place_fault_code self) }
    {
        let (name, place) = match self {
            PlaceFault::BadLine { line } => ("N1", Some(line as u64)),
            PlaceFault::Read => ("N2", None),
            PlaceFault::TooBig | PlaceFault::TooMany | PlaceFault::NotWhole => ("N3", None),
            PlaceFault::Memory => ("N4", None),
        };
        Code { name, place }
    }
}

impl From<InputFault> for PlaceFault {
    ghost use Rattle.std.specs.Prelude.{◌≡◌};
    ghost use Rattle.ss_answers.specs.PlaceInput.{place_fault};

    ghost from_gives = { λ f e. e ≡ place_fault f };

    fn from(fault: InputFault) -> PlaceFault {
        match fault {
            InputFault::Read => PlaceFault::Read,
            InputFault::TooBig => PlaceFault::TooBig,
            InputFault::Memory => PlaceFault::Memory,
        }
    }
}
