//! Why counters don't show where an originator goes on.
ghost use Rattle.std.specs.Prelude.{◌≡◌};
ghost use Rattle.ss_octets.specs.Code.{IsCode};
ghost use Rattle.ss_answers.specs.FaultCode.{start_fault_code};
ghost use Rattle.ss_answers.specs.declared.counters.start_fault.StartFault.TheVariants.{Memory};

use ss_octets::{Code, NoMemory};

/// Why no originator goes on at these counters.
#[derive(Clone, Copy, Debug, Drop, PartialEq, Eq)]
pub enum StartFault {
    /// C5: none is of the session's signature blocks.
    NoSession,
    /// C6: one is of the session, and of a group that the grouping hasn't.
    OtherGroup {
        /// The number of the first such counter in the file, counted from 1.
        counter: u64,
    },
    /// C4: out of memory.
    Memory,
}

impl StartFault {
    /// Its code, for programs. The place is the number of the counter.
    pub fn code(self) -> Code
        ensures { IsCode result (start_fault_code self) }
    {
        let (name, place) = match self {
            StartFault::NoSession => ("C5", None),
            StartFault::OtherGroup { counter } => ("C6", Some(counter)),
            StartFault::Memory => ("C4", None),
        };
        Code { name, place }
    }
}

impl From<NoMemory> for StartFault {
    ghost from_gives = { λ _ e. e ≡ Memory };

    fn from(_e: NoMemory) -> StartFault {
        StartFault::Memory
    }
}
