//! Why a log most likely can't be read, by its first octets.
ghost use Rattle.std.specs.Prelude.{◌≡◌};
ghost use Rattle.ssign.specs.LikelyCause.{cause_in, is_of_form, run_cause, signing_cause};

use ss_frame::{Form, FrameFault};
use ss_report::RunFault;
use ss_signing::SignFault;
use std::fmt;

/// Why a log can't be read, most likely.
#[derive(Clone, Copy, Debug, PartialEq, Eq)]
pub enum LikelyCause {
    /// It is compressed by gzip.
    Gzip,
    /// It is compressed by xz.
    Xz,
    /// It is compressed by zstd.
    Zstd,
    /// It begins with a byte order mark.
    ByteOrderMark,
    /// It is read as frames, and has one message a line.
    Unframed,
    /// It is read as lines, and has frames.
    Framed,
}

impl fmt::Display for LikelyCause {
    fn fmt<W: fmt::Write>(&self, f: &mut fmt::Formatter<W>) -> fmt::Result {
        f.write_str(match self {
            LikelyCause::Gzip => {
                "The log is compressed by gzip: hand over its contents, as in zcat FILE | ssign .."
            }
            LikelyCause::Xz => {
                "The log is compressed by xz: hand over its contents, as in xzcat FILE | ssign .."
            }
            LikelyCause::Zstd => {
                "The log is compressed by zstd: hand over its contents, as in zstdcat FILE | ssign .."
            }
            LikelyCause::ByteOrderMark => {
                "The log begins with a byte order mark, which is no part of a message: leave it out, as in \
                    tail -c +4 FILE | ssign .."
            }
            LikelyCause::Unframed => "The log has one message a line: say --lines.",
            LikelyCause::Framed => "The log has octet-counted frames: leave --lines out.",
        })
    }
}

/// The likely cause by the first octets of a log that is read in this form.
fn cause_in(form: Form, octets: &[u8]) -> Option<LikelyCause>
    ensures { result ≡ cause_in form octets.now }
{
    match octets {
        [0x1F, 0x8B, ..] => Some(LikelyCause::Gzip),
        [0xFD, b'7', b'z', b'X', b'Z', 0, ..] => Some(LikelyCause::Xz),
        [0x28, 0xB5, 0x2F, 0xFD, ..] => Some(LikelyCause::Zstd),
        [0xEF, 0xBB, 0xBF, ..] => Some(LikelyCause::ByteOrderMark),
        [b'<', ..] if form == Form::Frames => Some(LikelyCause::Unframed),
        [b'0'..=b'9', ..] if form == Form::Lines => Some(LikelyCause::Framed),
        _ => None,
    }
}

/// Whether the form of the log is what was refused: F1, F2, F5 or F9.
fn is_of_form(fault: &FrameFault) -> bool
    ensures { result ≡ is_of_form fault.now }
{
    match fault {
        FrameFault::BadLength { .. }
        | FrameFault::TooLong { .. }
        | FrameFault::TooManyMessages { .. }
        | FrameFault::EmptyLine { .. } => true,
        FrameFault::Read | FrameFault::Memory | FrameFault::Failed => false,
    }
}

/// The likely cause of a run's refusal, by the first octets of the log, which was read in this form.
pub fn run_cause(fault: &RunFault, form: Form, octets: &[u8]) -> Option<LikelyCause>
    ensures { result ≡ run_cause fault.now form octets.now }
{
    match fault {
        RunFault::Frame(fault) if is_of_form(fault) => cause_in(form, octets),
        _ => None,
    }
}

/// The same of a run that signs, where the log may also be torn (P1).
pub fn signing_cause(fault: &SignFault, form: Form, octets: &[u8]) -> Option<LikelyCause>
    ensures { result ≡ signing_cause fault.now form octets.now }
{
    match fault {
        SignFault::Run(fault) => run_cause(fault, form, octets),
        SignFault::TornInput { .. } => cause_in(form, octets),
        SignFault::LongWrap { .. } | SignFault::Origin { .. } => None,
    }
}
