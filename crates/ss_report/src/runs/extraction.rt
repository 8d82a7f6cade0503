//! What an extract writes.
ghost use Rattle.ss_octets.specs.Code.{IsCode};
ghost use Rattle.ss_report.specs.FaultCode.{extract_fault_code};

use ss_frame::Form;
use ss_octets::Code;
use ss_review::Places;

/// Which messages of a log an extract writes.
#[derive(Debug, Drop)]
pub enum Selection {
    /// Those that the report lists, in its order.
    Listed,
    /// The ordinary messages that the report doesn't list, by rising place.
    Unlisted,
    /// What is carried over to the next log, where sessions go on from log to log, by rising place. These are all
    /// blocks of sessions that aren't joined, and the unlisted messages. Of joined sessions they are the certificate
    /// blocks, the signature blocks with a gap, and the messages that are listed under the numbers of the latter.
    Carried,
    /// Those at these places, of any kind and in this order. No review is made.
    At(Places),
}

/// Which messages of a log an extract writes, in which form, and whether they are taken out of their wraps.
#[derive(Debug, Drop)]
pub struct Extraction {
    /// Which messages.
    pub selection: Selection,
    /// As octet-counted frames (RFC 6587, section 3.4.1), or one message a line, each ended by LF.
    pub form: Form,
    /// Whether the octets in a wrap are written in place of the wrap (`original` of `ss_wrap`).
    pub unwrap: bool,
}

/// Why an extract isn't written. Places count its messages from 0.
#[derive(Clone, Copy, Debug, PartialEq, Eq)]
pub enum ExtractFault {
    /// E1: the first of the given places that the log hasn't.
    Absent {
        /// That place.
        place: u32,
    },
    /// E2: the first message to be written as a line that holds LF, out of its wrap if that is asked for.
    HoldsLf {
        /// Its place.
        place: u32,
    },
}

impl ExtractFault {
    /// Its code, for programs. The place is the message's.
    pub fn code(self) -> Code
        ensures { IsCode result (extract_fault_code self) }
    {
        let (name, place) = match self {
            ExtractFault::Absent { place } => ("E1", place),
            ExtractFault::HoldsLf { place } => ("E2", place),
        };
        Code {
            name,
            place: Some(place as u64),
        }
    }
}
