//! The codes of what ends a run.
ghost use Rattle.std.specs.Prelude.{◌≡◌};
ghost use Rattle.ss_octets.specs.Code.{IsCode};
ghost use Rattle.ss_live.specs.FaultCode.{frame_name, journal_name, live_fault_code};

use crate::run::LiveFault;
use ss_frame::FrameFault;
use ss_journal::JournalError;
use ss_octets::Code;

/// The code where an event couldn't be read.
fn frame_name(fault: FrameFault) -> &'static str
    ensures { result.now ≡ frame_name fault }
{
    match fault {
        FrameFault::Read => "F3",
        FrameFault::Memory => "W2",
        FrameFault::BadLength { .. }
        | FrameFault::TooLong { .. }
        | FrameFault::TooManyMessages { .. }
        | FrameFault::EmptyLine { .. }
        | FrameFault::Failed => "J2",
    }
}

/// The code where the files can't be written any more.
fn journal_name(fault: JournalError) -> &'static str
    ensures { result.now ≡ journal_name fault }
{
    match fault {
        JournalError::Memory => "W2",
        JournalError::Failed => "J3",
        JournalError::Full => "J4",
        JournalError::Odd => "J5",
        JournalError::Refused => "J6",
    }
}

impl LiveFault {
    /// Its code, for programs. It has no place.
    pub fn code(self) -> Code
        ensures { IsCode result (live_fault_code self) }
    {
        let name = match self {
            LiveFault::Frame(fault) => frame_name(fault),
            LiveFault::Torn => "J2",
            LiveFault::First => "J1",
            LiveFault::Journal(fault) => journal_name(fault),
            LiveFault::Write => "W1",
            LiveFault::Memory => "W2",
        };
        Code { name, place: None }
    }
}
