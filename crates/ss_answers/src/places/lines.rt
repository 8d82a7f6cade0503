//! The lines of a file of places.
ghost use Rattle.std.specs.Prelude.{IfOk, IfErr};
ghost use Rattle.ss_answers.specs.PlaceFile.{HasPlaces};
ghost use Rattle.ss_answers.specs.PlaceInput.{IsPlacesTextFault};

use crate::cut::cut_ended_line;
use crate::places::fault::PlaceFault;
use ss_octets::number_of;
use std::alloc::Global;

/// The most places that a file may have: a log has at most so many messages.
const MOST_PLACES: usize = 10_000_000;

/// The greatest place.
const LAST_PLACE: u64 = 9_999_999;

/// The places of a text, a line each, in their order.
///
/// # Errors
///
/// The first that the text shows: `BadLine` with the number, from 1, of a line that isn't a place; `NotWhole` where the
/// last line isn't ended by a line feed; `TooMany` where something follows 10,000,000 places; `Memory`.
pub fn read_place_lines(alloc: Global, text: &[u8]) -> Result<Vec<u32>, PlaceFault>
    ensures ok { IfOk result (λ places. HasPlaces text.now places.items) }
    ensures err { IfErr result (λ fault. IsPlacesTextFault text.now fault) }
{
    let mut places = Vec::new(alloc);
    let mut rest = text;
    while !rest.is_empty() {
        if places.len() == MOST_PLACES {
            return Err(PlaceFault::TooMany);
        }
        let Some((line, after)) = cut_ended_line(rest) else {
            return Err(PlaceFault::NotWhole);
        };
        let Some(place) = number_of(0, LAST_PLACE, line) else {
            return Err(PlaceFault::BadLine {
                line: places.len() as u32 + 1,
            });
        };
        if places.push(place as u32).is_err() {
            return Err(PlaceFault::Memory);
        }
        rest = after;
    }
    Ok(places)
}
