//! Laws of the definitions that contracts cite. Each is the contract of a function that does nothing.
ghost use Rattle.ss_signing.specs.GoingOn.{RunsGoOn};
ghost use Rattle.ss_signing.specs.LineLaws.{LinesAreRead, LinesHoldNoLf};
ghost use Rattle.ss_signing.specs.PlanLaws.{PlansTellWhatIsSigned};
ghost use Rattle.ss_signing.specs.WrapLaws.{AheadTakesEach, MessagesComeBack, PlanningTakesEach, SigningTakesEach};

use ss_origin::Seals;

/// A plan's lines have, in order, the signed octets of the block messages that `run_sign` emits for the same messages.
/// Start, stamp, configuration and payload are the same. Each block counts once: `run_sign` sends it `copies`
/// times in a row, and a plan has one line for it, whatever `copies` is.
pub fn plans_tell_what_is_signed()
    ensures { PlansTellWhatIsSigned }
{}

/// Runs of one setting, of which the first is new and each other one goes on at the counters that `run_ahead` writes for the
/// one before, or at greater ones, are the lives of a chain that goes on ahead. So the laws of `ss_origin::laws::ahead` hold
/// of what they write: no number is given twice.
pub fn runs_go_on()
    ensures { RunsGoOn }
{}

/// Where messages are wrapped, no message of a log is refused as none of RFC 5424 (O2) or for a block element (O3), whatever
/// its octets are.
pub fn each_message_is_taken<J: Seals>()
    ensures signed { SigningTakesEach J.answers }
    ensures planned { PlanningTakesEach }
    ensures ahead { AheadTakesEach }
{}

/// Where messages are wrapped, what is signed for the messages of a log gives back exactly these messages.
pub fn messages_come_back()
    ensures { MessagesComeBack }
{}

/// Where a signed log is written as lines, no message of it holds LF: neither one of the log, nor a wrap, nor a block message.
pub fn lines_hold_no_lf<J: Seals>()
    ensures { LinesHoldNoLf J.answers }
{}

/// So whoever reads these lines, under limits that allow their lengths and their number, reads exactly the messages that were
/// emitted.
pub fn lines_are_read<J: Seals>()
    ensures { LinesAreRead J.answers }
{}
