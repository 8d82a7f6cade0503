//! Why a run over a log gave no output.
ghost use Rattle.std.specs.Prelude.{◌≡◌};
ghost use Rattle.ss_octets.specs.Code.{IsCode};
ghost use Rattle.ss_report.specs.FaultCode.{run_fault_code};
ghost use Rattle.ss_report.specs.declared.fault.RunFault.TheVariants.{Extract, Frame, Memory, Review};

use crate::runs::extraction::ExtractFault;
use ss_frame::FrameFault;
use ss_octets::{Code, NoMemory};
use ss_review::ReviewFault;
use std::alloc::{AllocError, AllocFailed};

/// Why a run gave no output. But for a failed write, nothing was written.
#[derive(Clone, Copy, Debug, PartialEq, Eq)]
pub enum RunFault {
    /// The log couldn't be read to its end: F1 to F5, or F9.
    Frame(FrameFault),
    /// The messages couldn't be reviewed: V1, out of memory. V2 is never answered, because the log is refused with F5
    /// before a message too many is reviewed.
    Review(ReviewFault),
    /// The messages couldn't be extracted: E1 or E2.
    Extract(ExtractFault),
    /// W1: a write or a flush failed. What was written is a prefix of the output.
    Write,
    /// W2: out of memory.
    Memory,
}

impl RunFault {
    /// Its code, for programs. A fault of a lower layer keeps the code that it has there.
    pub fn code(self) -> Code
        ensures { IsCode result (run_fault_code self) }
    {
        let name = match self {
            RunFault::Frame(fault) => return fault.code(),
            RunFault::Review(fault) => return fault.code(),
            RunFault::Extract(fault) => return fault.code(),
            RunFault::Write => "W1",
            RunFault::Memory => "W2",
        };
        Code { name, place: None }
    }
}

impl From<FrameFault> for RunFault {
    ghost from_gives = { λ f e. e ≡ Frame f };

    fn from(fault: FrameFault) -> RunFault {
        RunFault::Frame(fault)
    }
}

impl From<ReviewFault> for RunFault {
    ghost from_gives = { λ f e. e ≡ Review f };

    fn from(fault: ReviewFault) -> RunFault {
        RunFault::Review(fault)
    }
}

impl From<ExtractFault> for RunFault {
    ghost from_gives = { λ f e. e ≡ Extract f };

    fn from(fault: ExtractFault) -> RunFault {
        RunFault::Extract(fault)
    }
}

impl From<AllocError> for RunFault {
    ghost from_gives = { λ _ e. e ≡ Memory };

    fn from(_e: AllocError) -> RunFault {
        RunFault::Memory
    }
}

impl<T: Drop> From<AllocFailed<T>> for RunFault {
    ghost from_gives = { λ _ e. e ≡ Memory };

    fn from(_e: AllocFailed<T>) -> RunFault {
        RunFault::Memory
    }
}

impl From<NoMemory> for RunFault {
    ghost from_gives = { λ _ e. e ≡ Memory };

    fn from(_e: NoMemory) -> RunFault {
        RunFault::Memory
    }
}
