//! Why an originator isn't made, or refuses a call.
ghost use Rattle.std.specs.Prelude.{◌≡◌};
ghost use Rattle.ss_octets.specs.Code.{IsCode};
ghost use Rattle.ss_origin.specs.FaultCode.{origin_fault_code};
ghost use Rattle.ss_origin.specs.declared.fault.OriginFault.TheVariants.{Memory};

use ss_octets::{Code, NoMemory};
use std::alloc::{AllocError, AllocFailed};

/// Why an originator isn't made, or refuses a call. It then emitted nothing and is unchanged, except that its sealer
/// may know that it was asked.
#[derive(Clone, Copy, Debug, PartialEq, Eq)]
pub enum OriginFault {
    /// O1: the configuration or the counters aren't allowed, or the payload's text is too long.
    BadConfig,
    /// O2: what was submitted is no message of RFC 5424.
    NotSyslog,
    /// O3: the message has an element `ssign` or `ssign-cert`.
    HasBlock,
    /// O4: `begin` wasn't accepted yet.
    NotBegun,
    /// O5: `begin` was accepted before, or the originator goes on after another one.
    AlreadyBegun,
    /// O6: the sealer refused to sign a block message that is due.
    SealRefused,
    /// O7: the sealer gave a signature without an octet, or of more than 1,024.
    SignatureLength,
    /// O8: the message's number in its group would be 10,000,000,000.
    NumbersSpent,
    /// O9: a signature block that is due would have the GBC 10,000,000,000.
    CounterSpent,
    /// O10: memory ran out, in the sealer or elsewhere.
    Memory,
}

impl OriginFault {
    /// Its code, for programs.
    pub fn code(self) -> Code
        ensures { IsCode result (origin_fault_code self) }
    {
        let name = match self {
            OriginFault::BadConfig => "O1",
            OriginFault::NotSyslog => "O2",
            OriginFault::HasBlock => "O3",
            OriginFault::NotBegun => "O4",
            OriginFault::AlreadyBegun => "O5",
            OriginFault::SealRefused => "O6",
            OriginFault::SignatureLength => "O7",
            OriginFault::NumbersSpent => "O8",
            OriginFault::CounterSpent => "O9",
            OriginFault::Memory => "O10",
        };
        Code { name, place: None }
    }
}

impl From<NoMemory> for OriginFault {
    ghost from_gives = { λ _ e. e ≡ Memory };

    fn from(_e: NoMemory) -> OriginFault {
        OriginFault::Memory
    }
}

impl From<AllocError> for OriginFault {
    ghost from_gives = { λ _ e. e ≡ Memory };

    fn from(_e: AllocError) -> OriginFault {
        OriginFault::Memory
    }
}

impl<T: Drop> From<AllocFailed<T>> for OriginFault {
    ghost from_gives = { λ _ e. e ≡ Memory };

    fn from(_e: AllocFailed<T>) -> OriginFault {
        OriginFault::Memory
    }
}
