//! What is signed for the messages of a log.
ghost use Rattle.std.specs.Prelude.{◌≡◌, ◌≤◌, None, false, length, map, IfOk, MatchResult, vec_len};
ghost use Rattle.std.specs.List.{position};
ghost use Rattle.ss_frame.specs.Limits.{most_messages};
ghost use Rattle.ss_frame.specs.Watched.{has_failed, source_of};
ghost use Rattle.ss_wrap.specs.Wrap.{prepared};
ghost use Rattle.ss_signing.specs.Prepared.{first_long, first_no_line, has_lf, is_long, prepared_for};
ghost use Rattle.ss_signing.specs.Preparing.{ReadsPrepared, StopsPreparing};

use crate::fault::SignFault;
use crate::log::read_whole;
use crate::request::SendRequest;
use ss_block::Head;
use ss_frame::{Form, Watched};
use ss_message::Stamp;
use ss_octets::{Bytes, NoMemory};
use ss_report::{ExtractFault, RunFault};
use ss_wrap::{needs_wrap, wrap};
use std::alloc::Global;
use std::io::Read;

/// Reads a log to its end, which has to be clean. If the request asks for wraps, each message that needs one is then
/// replaced by it. `form` is that in which messages will be written.
///
/// `SignFault::Run` where the log can't be read to its end, or memory runs out; `TornInput` where its end is torn. Then
/// `RunFault::Extract` (E2) at the first message that can't be written in the form, and then `LongWrap` (O11) at the
/// first whose wrap would be longer than a message may be.
pub(crate) fn read_prepared<R: Read>(
    alloc: Global,
    reader: &mut Watched<R>,
    request: &SendRequest,
    form: Form,
) -> Result<Vec<Bytes>, SignFault>
    requires { has_failed reader.old ≡ false }
    ensures few { IfOk result (λ messages. vec_len messages ≤ most_messages) }
    ensures read { MatchResult result
        (λ messages. ReadsPrepared form request.now.wrap request.now.config.head request.now.stamp request.now.limits
        (source_of R.remaining reader.old) (source_of R.remaining reader.new) messages.items)
        (StopsPreparing form request.now.wrap request.now.config.head request.now.stamp request.now.limits
        (source_of R.remaining reader.old) (source_of R.remaining reader.new)) }
{
    let mut messages = read_whole(alloc, reader, request.limits)?;
    if let Some(place) = first_no_line(form, messages.as_slice()) {
        let fault = ExtractFault::HoldsLf { place };
        return Err(SignFault::Run(RunFault::Extract(fault)));
    }
    match wrap_as_requested(alloc, &mut messages, request)? {
        Some(place) => Err(SignFault::LongWrap { place }),
        None => Ok(messages),
    }
}

/// The place of the first message that can't be written in this form: as a line, one that holds LF.
fn first_no_line(form: Form, messages: &[Bytes]) -> Option<u32>
    requires few { length messages.now ≤ most_messages }
    ensures { result ≡ first_no_line form messages.now }
{
    match form {
        Form::Frames => None,
        Form::Lines => first_with_lf(messages),
    }
}

/// The place of the first message that holds LF.
fn first_with_lf(messages: &[Bytes]) -> Option<u32>
    requires few { length messages.now ≤ most_messages }
    ensures { result ≡ position has_lf messages.now }
{
    let mut place: u32 = 0;
    for message in messages {
        if has_lf(message.as_slice()) {
            return Some(place);
        }
        place += 1;
    }
    None
}

/// Whether the message holds LF.
fn has_lf(message: &[u8]) -> bool
    ensures { result ≡ has_lf message.now }
{
    message.contains(&b'\n')
}

/// If the request asks for wraps, replaces each message that needs one by it. It gives the place of the first message
/// whose wrap would be too long, and stops there.
fn wrap_as_requested(
    alloc: Global,
    messages: &mut Vec<Bytes>,
    request: &SendRequest,
) -> Result<Option<u32>, NoMemory>
    requires few { vec_len messages.old ≤ most_messages }
    ensures long { IfOk result (λ long. long ≡ first_long request.now.wrap request.now.config.head request.now.stamp
        request.now.limits.max_len messages.old.items) }
    ensures prepared { IfOk result (λ long. long ≡ None → messages.new.items
        ≡ prepared_for request.now.wrap request.now.config.head request.now.stamp messages.old.items) }
    ensures few { vec_len messages.new ≡ vec_len messages.old }
{
    if !request.wrap {
        return Ok(None);
    }
    let wraps = Wraps {
        head: &request.config.head,
        stamp: request.stamp,
        max_len: request.limits.max_len(),
    };
    wrap_all(alloc, messages, &wraps)
}

/// How messages are wrapped.
#[derive(Clone, Copy)]
struct Wraps<'a> {
    /// HOSTNAME, APP-NAME and PROCID of each wrap.
    head: &'a Head,
    /// TIMESTAMP of each wrap.
    stamp: Option<Stamp>,
    /// The most octets that a wrap may have.
    max_len: u32,
}

/// Replaces each message that needs a wrap by it, and frees the message. It gives the place of the first message whose
/// wrap would be too long, and stops there.
fn wrap_all(
    alloc: Global,
    messages: &mut Vec<Bytes>,
    wraps: &Wraps<'_>,
) -> Result<Option<u32>, NoMemory>
    requires few { vec_len messages.old ≤ most_messages }
    ensures long { IfOk result (λ long. long
        ≡ position (is_long wraps.now.head.now wraps.now.stamp wraps.now.max_len) messages.old.items) }
    ensures prepared { IfOk result (λ long. long ≡ None
        → messages.new.items ≡ map (prepared wraps.now.head.now wraps.now.stamp) messages.old.items) }
    ensures few { vec_len messages.new ≡ vec_len messages.old }
{
    let mut place: u32 = 0;
    for message in messages.iter_mut() {
        if is_long_when_prepared(alloc, message, wraps)? {
            return Ok(Some(place));
        }
        place += 1;
    }
    Ok(None)
}

/// Replaces a message by its wrap if it needs one, unless that would be too long, and gives whether it would be.
#[tactic(auto, unfolding(ss_wrap::specs::Wrap::prepared))]
fn is_long_when_prepared(
    alloc: Global,
    message: &mut Bytes,
    wraps: &Wraps<'_>,
) -> Result<bool, NoMemory>
    ensures long { IfOk result (λ long. long
        ≡ is_long wraps.now.head.now wraps.now.stamp wraps.now.max_len message.old) }
    ensures prepared { IfOk result (λ long. long ≡ false
        → message.new ≡ prepared wraps.now.head.now wraps.now.stamp message.old) }
{
    if !needs_wrap(alloc, message.as_slice())? {
        return Ok(false);
    }
    let wrapped = wrap(alloc, wraps.head, wraps.stamp, message.as_slice())?;
    if wrapped.as_slice().len() > wraps.max_len as usize {
        return Ok(true);
    }
    *message = wrapped;
    Ok(false)
}
