//! Why a reviewer gives no answer.
ghost use Rattle.std.specs.Prelude.{◌≡◌};
ghost use Rattle.ss_octets.specs.Code.{IsCode};
ghost use Rattle.ss_review.specs.FaultCode.{review_fault_code};
ghost use Rattle.ss_review.specs.declared.fault.ReviewFault.TheVariants.{Memory};

use ss_octets::{Code, NoMemory};
use std::alloc::{AllocError, AllocFailed};

/// Why a reviewer gives no answer. It is unchanged then.
#[derive(Clone, Copy, Debug, PartialEq, Eq)]
pub enum ReviewFault {
    /// V1: out of memory.
    Memory,
    /// V2: as many messages were fed as the reviewer takes.
    TooManyMessages,
}

impl ReviewFault {
    /// Its code, for programs.
    pub fn code(self) -> Code
        ensures { IsCode result (review_fault_code self) }
    {
        let name = match self {
            ReviewFault::Memory => "V1",
            ReviewFault::TooManyMessages => "V2",
        };
        Code { name, place: None }
    }
}

impl From<NoMemory> for ReviewFault {
    ghost from_gives = { λ _ e. e ≡ Memory };

    fn from(_e: NoMemory) -> ReviewFault {
        ReviewFault::Memory
    }
}

impl From<AllocError> for ReviewFault {
    ghost from_gives = { λ _ e. e ≡ Memory };

    fn from(_e: AllocError) -> ReviewFault {
        ReviewFault::Memory
    }
}

impl<T: Drop> From<AllocFailed<T>> for ReviewFault {
    ghost from_gives = { λ _ e. e ≡ Memory };

    fn from(_e: AllocFailed<T>) -> ReviewFault {
        ReviewFault::Memory
    }
}
