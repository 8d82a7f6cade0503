//! The messages of an extract out of their wraps.
ghost use Rattle.std.specs.Prelude.{◌≡◌, ◌<◌, [], length, get_or, map, slice_set, IfOk, OnOk};
ghost use Rattle.ss_report.specs.runs.Extraction.{out_of_wrap, shown};

use crate::log::held::Held;
use ss_octets::{Bytes, NoMemory};
use ss_wrap::original;
use std::alloc::Global;

/// Takes each message out of its wrap, if that is asked for.
///
/// Errs only if it runs out of memory.
pub(crate) fn show(alloc: Global, messages: &mut [Bytes], unwrap: bool) -> Result<(), NoMemory>
    ensures { OnOk result (messages.new ≡ shown unwrap messages.old) }
{
    if unwrap {
        unwrap_all(alloc, messages)
    } else {
        Ok(())
    }
}

/// The messages, each out of its wrap, if that is asked for.
///
/// Errs only if it runs out of memory.
pub(crate) fn shown(
    alloc: Global,
    messages: Vec<Bytes>,
    unwrap: bool,
) -> Result<Vec<Bytes>, NoMemory>
    ensures { IfOk result (λ v. v.items ≡ shown unwrap messages.items) }
{
    let mut messages = messages;
    show(alloc, messages.as_mut_slice(), unwrap)?;
    Ok(messages)
}

/// Takes each message out of its wrap, if it has the form of one.
fn unwrap_all(alloc: Global, messages: &mut [Bytes]) -> Result<(), NoMemory>
    ensures { OnOk result (messages.new ≡ map out_of_wrap messages.old) }
{
    for message in messages.iter_mut() {
        unwrap(alloc, message)?;
    }
    Ok(())
}

/// Takes a message out of its wrap, if it has the form of one: it becomes the octets in it. The wrap of no octet stays,
/// because neither a frame nor a line is empty.
#[tactic(auto, unfolding(crate::specs::runs::Extraction::out_of_wrap))]
fn unwrap(alloc: Global, message: &mut Bytes) -> Result<(), NoMemory>
    ensures { OnOk result (message.new ≡ out_of_wrap message.old) }
{
    let Some(octets) = original(alloc, message.as_slice())? else {
        return Ok(());
    };
    if octets.is_empty() {
        return Ok(());
    }
    let octets = Vec::from_slice(alloc, octets)?;
    *message = Bytes::from_vec(octets);
    Ok(())
}

/// Takes each held message out of its wrap, if that is asked for. It takes no memory for what is in a wrap.
///
/// Errs only if it runs out of memory.
pub(crate) fn show_held(alloc: Global, messages: &mut Held, unwrap: bool) -> Result<(), NoMemory>
    ensures { OnOk result (messages.new ≡ shown unwrap messages.old) }
{
    if !unwrap {
        return Ok(());
    }
    unwrap_held(alloc, messages)
}

/// Takes each held message out of its wrap, if it has the form of one.
fn unwrap_held(alloc: Global, messages: &mut Held) -> Result<(), NoMemory>
    ensures { OnOk result (messages.new ≡ map out_of_wrap messages.old) }
{
    for place in 0..messages.len() {
        unwrap_at(alloc, messages, place)?;
    }
    Ok(())
}

/// Takes the message at this place out of its wrap, if it has the form of one: the octets in it are its last.
fn unwrap_at(alloc: Global, messages: &mut Held, place: usize) -> Result<(), NoMemory>
    requires { place < length messages.old }
    ensures { OnOk result (messages.new
        ≡ slice_set messages.old place (out_of_wrap (get_or messages.old place []))) }
{
    let Some(message) = messages.get(place) else {
        return Ok(());
    };
    let Some(inner) = original(alloc, message)? else {
        return Ok(());
    };
    if inner.is_empty() {
        return Ok(());
    }
    let count = inner.len();
    messages.keep_last(place, count);
    Ok(())
}
