//! Why a file of questions isn't written.
ghost use Rattle.ss_octets.specs.Code.{IsCode};
ghost use Rattle.ssign.specs.FaultCode.{questions_fault_code};

use ss_octets::Code;

/// Why the questions of a review weren't written to their file.
#[derive(Clone, Copy, Debug, PartialEq, Eq)]
pub enum QuestionsFault {
    /// Q1: the file can't be made or opened, or a write or a flush of it failed.
    File,
    /// W2: out of memory. No question was written.
    Memory,
}

impl QuestionsFault {
    /// Its code, for programs.
    pub fn code(self) -> Code
        ensures { IsCode result (questions_fault_code self) }
    {
        let name = match self {
            QuestionsFault::File => "Q1",
            QuestionsFault::Memory => "W2",
        };
        Code { name, place: None }
    }
}
