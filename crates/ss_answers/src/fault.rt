//! Why answers weren't read.
ghost use Rattle.ss_octets.specs.Code.{IsCode};
ghost use Rattle.ss_answers.specs.FaultCode.{answer_fault_code};

use crate::input::InputFault;
use ss_octets::Code;

/// Why a file of answers wasn't read.
#[derive(Clone, Copy, Debug, Drop, PartialEq, Eq)]
pub enum AnswerFault {
    /// A1: a line that isn't an answer, an empty one too.
    BadLine {
        /// The number of the first such line, counted from 1.
        line: u32,
    },
    /// A2: a read failed, or the file couldn't be opened.
    Read,
    /// A3: there are more octets than were allowed.
    TooBig,
    /// A4: out of memory.
    Memory,
}

impl AnswerFault {
    /// Its code, for programs. The place is the number of the line.
    pub fn code(self) -> Code
        ensures { IsCode result (answer_fault_code self) }
    {
        let (name, place) = match self {
            AnswerFault::BadLine { line } => ("A1", Some(line as u64)),
            AnswerFault::Read => ("A2", None),
            AnswerFault::TooBig => ("A3", None),
            AnswerFault::Memory => ("A4", None),
        };
        Code { name, place }
    }
}

impl From<InputFault> for AnswerFault {
    ghost use Rattle.std.specs.Prelude.{◌≡◌};
    ghost use Rattle.ss_answers.specs.AnswerInput.{answer_fault};

    ghost from_gives = { λ f e. e ≡ answer_fault f };

    fn from(fault: InputFault) -> AnswerFault {
        match fault {
            InputFault::Read => AnswerFault::Read,
            InputFault::TooBig => AnswerFault::TooBig,
            InputFault::Memory => AnswerFault::Memory,
        }
    }
}
