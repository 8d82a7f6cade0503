//! Why a log was neither planned nor signed.
ghost use Rattle.std.specs.Prelude.{◌≡◌, None};
ghost use Rattle.ss_octets.specs.Code.{IsCode};
ghost use Rattle.ss_signing.specs.declared.fault.SignFault.TheVariants.{Run, Origin};
ghost use Rattle.ss_signing.specs.FaultCode.{sign_fault_code};
ghost use Rattle.ss_report.specs.declared.fault.RunFault.TheVariants.{Memory};

use ss_octets::{Code, NoMemory};
use ss_origin::{NotStarted, OriginFault, Seals};
use ss_report::RunFault;

/// Why nothing was planned or signed. But for a failed write, nothing was written.
#[derive(Clone, Copy, Debug, PartialEq, Eq)]
pub enum SignFault {
    /// The log couldn't be read to its end (F1 to F5, F9), a message can't be written as a line (E2), a write or a flush
    /// failed (W1), or memory ran out (W2).
    Run(RunFault),
    /// P1: the log ends inside a frame or line, whose first octet is at `pos`, counted from 0.
    TornInput {
        pos: u64,
    },
    /// O11: the wrap of a message would be longer than a message may be.
    LongWrap {
        /// The place in the log of the first such message, counted from 0.
        place: u32,
    },
    /// O1 to O10: the originator wasn't made, or refused a call.
    Origin {
        /// Why.
        fault: OriginFault,
        /// The place in the log of the message that was refused, counted from 0; none where the originator wasn't
        /// made, and for its first and its last block messages.
        place: Option<u32>,
    },
}

impl SignFault {
    /// Its code, for programs. A fault of a lower layer keeps the code that it has there. The place is that of the
    /// octet after P1, and that of the message after O1 to O11.
    pub fn code(self) -> Code
        ensures { IsCode result (sign_fault_code self) }
    {
        match self {
            SignFault::Run(fault) => fault.code(),
            SignFault::TornInput { pos } => Code {
                name: "P1",
                place: Some(pos),
            },
            SignFault::LongWrap { place } => Code {
                name: "O11",
                place: Some(place as u64),
            },
            SignFault::Origin { fault, place } => Code {
                name: fault.code().name,
                place: place.map(|place| place as u64),
            },
        }
    }
}

impl From<NoMemory> for SignFault {
    ghost from_gives = { λ _ e. e ≡ Run Memory };

    fn from(_e: NoMemory) -> SignFault {
        SignFault::Run(RunFault::Memory)
    }
}

impl From<RunFault> for SignFault {
    ghost from_gives = { λ f e. e ≡ Run f };

    fn from(fault: RunFault) -> SignFault {
        SignFault::Run(fault)
    }
}

impl<J: Seals> From<NotStarted<J>> for SignFault {
    ghost from_gives = { λ n e. e ≡ Origin n.fault None };

    fn from(n: NotStarted<J>) -> SignFault {
        SignFault::Origin {
            fault: n.fault,
            place: None,
        }
    }
}
