//! What the program makes of a log that is to be signed.
ghost use Rattle.std.specs.Prelude.{◌≡◌, ◌≢◌, false, IfOk, IfErr};
ghost use Rattle.ss_frame.specs.Watched.{has_failed, source_of, sink_of};
ghost use Rattle.ss_signing.specs.Accepted.{started};
ghost use Rattle.ss_signing.specs.Run.{Signs, Stops};
ghost use Rattle.ssign.specs.Signing.{signing_job};

use crate::settings::Settings;
use ss_answers::{Answers, GivenSeals};
use ss_frame::{Form, Limits, Watched};
use ss_origin::Counters;
use ss_report::RunFault;
use ss_signing::{SendRequest, SignFault, run_ahead, run_plan_from, run_sign_from};
use std::alloc::Global;
use std::io::{Read, Write};

/// What is made of a log that is to be signed.
#[derive(Clone, Copy, Debug, PartialEq, Eq)]
pub enum Signing {
    /// Lines that say which octets need a signature.
    Plan,
    /// The log with its blocks.
    Sign,
}

/// How a log is signed beside its settings.
#[derive(Clone, Copy, Debug, PartialEq, Eq)]
pub struct Sending {
    /// Whether of a plan the counters are wanted with which the signed log will end.
    pub ahead: bool,
    /// Whether a message that can't be signed is signed in a wrap.
    pub wrap: bool,
    /// In which form a signed log is written.
    pub out: Form,
}

/// What is asked of a log that is to be signed.
#[derive(Drop)]
pub struct SigningRequest {
    /// What is made of it.
    pub signing: Signing,
    /// How it is signed.
    pub settings: Settings,
    /// How beside that.
    pub sending: Sending,
    /// The counters at which the originator goes on, unless it is new.
    pub start: Option<Counters>,
    /// The answers file, if there is one.
    pub answers: Option<Answers>,
    /// In which form the log is stored, and how long it and its messages may be.
    pub limits: Limits,
}

/// Reads a log of messages to its end, and writes what is made of it, with the signatures of an answers file. A plan
/// asks for none.
///
/// Nothing is written before the whole output is made. `Run` with `RunFault::Write` exactly where a call of the writer
/// failed; what was written then is a prefix of the output. After any other fault nothing was written: `Run` where the
/// log can't be read to its end, if a message can't be a line (E2), or if it runs out of memory; `TornInput` where it is
/// torn; `LongWrap` where a wrap is too long; `Origin` where the originator refuses a message or has no signature.
pub fn run_signing<R: Read, W: Write>(
    alloc: Global,
    reader: &mut Watched<R>,
    writer: &mut Watched<W>,
    request: SigningRequest,
) -> Result<(), SignFault>
    requires reader { has_failed reader.old ≡ false }
    requires writer { has_failed writer.old ≡ false }
    ensures signed { IfOk result (λ _.
        Signs (signing_job request.signing request.sending (started request.start) request.settings request.answers)
        request.limits
        (source_of R.remaining reader.old) (source_of R.remaining reader.new)
        (sink_of W.contents writer.old) (sink_of W.contents writer.new)) }
    ensures stopped { IfErr result
        (Stops (signing_job request.signing request.sending (started request.start) request.settings request.answers)
        request.limits
        (source_of R.remaining reader.old) (source_of R.remaining reader.new)
        (sink_of W.contents writer.old) (sink_of W.contents writer.new)) }
    ensures untouched { IfErr result (λ fault. fault ≢ SignFault.Run RunFault.Write → writer.new ≡ writer.old) }
{
    let SigningRequest {
        signing,
        settings,
        sending,
        start,
        answers,
        limits,
    } = request;
    let Settings {
        config,
        payload,
        stamp,
    } = settings;
    let Sending { ahead, wrap, out } = sending;
    let sent = SendRequest {
        config,
        start,
        stamp,
        out,
        wrap,
        limits,
    };
    match signing {
        Signing::Plan => {
            if ahead {
                run_ahead(alloc, reader, writer, payload, sent)
            } else {
                run_plan_from(alloc, reader, writer, payload, sent)
            }
        }
        Signing::Sign => {
            let sealer = GivenSeals::new(answers, payload);
            run_sign_from(alloc, reader, writer, sealer, sent).result
        }
    }
}
