//! What keeps messages from being written.
ghost use Rattle.std.specs.Prelude.{◌≡◌, ◌==◌, ℕ, List, None, Some, nat_le, find, slice_get, MatchResult};
ghost use Rattle.std.specs.List.{list_any, position};
ghost use Rattle.ss_octets.specs.Ascii.{lf};
ghost use Rattle.ss_report.specs.log.Picked.{AreAt};
ghost use Rattle.ss_report.specs.runs.Extraction.{absent, holds_lf, no_line};
ghost use Rattle.ss_report.specs.declared.runs.extraction.Selection.TheVariants.{At};

use crate::log::held::Held;
use crate::runs::extraction::ExtractFault;
use ss_frame::Form;
use ss_octets::Bytes;

/// Refuses the first of the places that a log of so many messages hasn't (E1).
pub(crate) fn refuse_past(places: &[u32], count: usize) -> Result<(), ExtractFault>
    ensures { MatchResult result (λ _. absent (At places.now) count ≡ None) (λ fault.
        absent (At places.now) count ≡ Some fault) }
{
    match first_past(places, count) {
        Some(place) => Err(ExtractFault::Absent { place }),
        None => Ok(()),
    }
}

/// The first of the places that isn't below `count`.
fn first_past(places: &[u32], count: usize) -> Option<u32>
    ensures { result ≡ find (λ place. nat_le count place) places.now }
{
    places
        .iter()
        .copied()
        .find(|place| count <= *place as usize)
}

/// Refuses the first of the messages at these places that isn't one of the form (E2).
pub(crate) fn refuse_no_line(
    form: Form,
    messages: &Held,
    places: &[u32],
) -> Result<(), ExtractFault>
    ensures { MatchResult result (λ _. no_line form messages.now places.now ≡ None)
        (λ fault. no_line form messages.now places.now ≡ Some fault) }
{
    match form {
        Form::Frames => Ok(()),
        Form::Lines => match first_with_lf(messages, places) {
            Some(place) => Err(ExtractFault::HoldsLf { place }),
            None => Ok(()),
        },
    }
}

/// The first of the places whose message holds LF.
fn first_with_lf(messages: &Held, places: &[u32]) -> Option<u32>
    ensures { result ≡ find (holds_lf messages.now) places.now }
{
    places
        .iter()
        .copied()
        .find(|place| holds_lf(messages, *place))
}

/// Refuses the first of the messages, which are those at these places, that isn't one of the form (E2).
pub(crate) fn refuse_no_line_picked(
    form: Form,
    picked: &[Bytes],
    places: &[u32],
) -> Result<(), ExtractFault>
    ensures { (messages : List (List ℕ))
        → AreAt messages places.now picked.now
        → MatchResult result (λ _. no_line form messages places.now ≡ None)
        (λ fault. no_line form messages places.now ≡ Some fault) }
{
    match form {
        Form::Frames => Ok(()),
        Form::Lines => match place_with_lf(picked, places) {
            Some(place) => Err(ExtractFault::HoldsLf { place }),
            None => Ok(()),
        },
    }
}

/// The place of the first of the messages that holds LF.
fn place_with_lf(picked: &[Bytes], places: &[u32]) -> Option<u32>
    ensures { (messages : List (List ℕ))
        → AreAt messages places.now picked.now
        → result ≡ find (holds_lf messages) places.now }
{
    match index_with_lf(picked) {
        Some(index) => place_at(places, index),
        None => None,
    }
}

/// The place at the index, if one is there.
fn place_at(places: &[u32], index: usize) -> Option<u32>
    ensures { result ≡ slice_get places.now index }
{
    places.get(index).copied()
}

/// The first of the messages that holds LF.
fn index_with_lf(picked: &[Bytes]) -> Option<usize>
    ensures { result ≡ position (list_any (λ octet. octet == lf)) picked.now }
{
    picked
        .iter()
        .position(|message| message.as_slice().contains(&b'\n'))
}

/// Whether the message at the place holds LF.
fn holds_lf(messages: &Held, place: u32) -> bool
    ensures { result ≡ holds_lf messages.now place }
{
    match messages.get(place as usize) {
        Some(message) => message.contains(&b'\n'),
        None => false,
    }
}
