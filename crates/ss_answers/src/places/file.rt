//! Reading a file of places.
ghost use Rattle.std.specs.Prelude.{◌≡◌, false, Err, IfOk, IfErr, MatchBool, MatchResult};
ghost use Rattle.ss_frame.specs.Watched.{has_failed, inner_of};
ghost use Rattle.ss_answers.specs.PlaceInput.{AreHeldPlaces, ArePlaces, ArePlacesOfFile, IsHeldPlaceFault};
ghost use Rattle.ss_answers.specs.PlaceInput.{IsPlaceFault, IsPlacesFileFault, has_failed_read, is_longer};

use crate::input::{known_length, read_all};
use crate::places::fault::PlaceFault;
use crate::places::lines::read_place_lines;
use ss_frame::Watched;
use ss_octets::List;
use ss_review::Places;
use std::alloc::Global;
use std::io::Read;
use std::rt::Files;
use std::{fs, io};

/// The most octets that a file may have: 10,000,000 lines of the longest.
const MOST_OCTETS: u32 = 80_000_000;

/// The places that a reader gives, in at most `max` octets, in their order. They count the messages of a log from 0, and
/// one may stand there more than once. All is read before a line is looked at, at most one octet more than `max`, and the
/// reader is one that hasn't failed yet.
///
/// # Errors
///
/// `Read` exactly where a read failed in the call, an interrupted one too; `TooBig` where there are more than
/// `max` octets; else the first that the text shows: `BadLine` with the number, from 1, of a line that isn't 0 to
/// 9,999,999 in decimal, `NotWhole` or `TooMany`; `Memory`.
pub fn read_places<R: Read>(
    alloc: Global,
    reader: &mut Watched<R>,
    max: u32,
) -> Result<Places, PlaceFault>
    requires { has_failed reader.old ≡ false }
    ensures ok { IfOk result (λ places. ArePlaces (R.remaining (inner_of reader.old))
        (R.remaining (inner_of reader.new)) max places) }
    ensures err { IfErr result (λ fault. IsPlaceFault (R.remaining (inner_of reader.old))
        (R.remaining (inner_of reader.new)) max fault) }
    ensures failed { has_failed reader.new ≡ has_failed_read result }
{
    let text = read_all(alloc, reader, max)?;
    let places = read_place_lines(alloc, &text)?;
    Ok(List::from_vec(places))
}

/// The places of a file, of at most 80,000,000 octets, in their order.
///
/// # Errors
///
/// `Read` where the file can't be opened, is a folder or can't be read; the others as `read_places`. `TooBig` comes
/// before anything is read where the size of the file is known.
pub fn open_places<R: Files + AllocGlobal>(rt: &R, path: &str) -> Result<Places, PlaceFault>
    ensures ok { IfOk result ArePlacesOfFile }
    ensures err { IfErr result IsPlacesFileFault }
{
    let opened = fs::open(rt, path);
    let length = known_length(&opened);
    places_from(rt.alloc(), opened, length)
}

/// The places of a file that was opened or couldn't be, as `open_places` gives them. `length` is how many octets it has,
/// where that is known: a file that is too long isn't read.
pub fn places_from<F: Read + Drop>(
    alloc: Global,
    opened: io::Result<F>,
    length: Option<u64>,
) -> Result<Places, PlaceFault>
    ensures unopened { IfErr opened (λ _. result ≡ Err PlaceFault.Read) }
    ensures opened { IfOk opened (λ file. MatchBool (is_longer length)
        (result ≡ Err PlaceFault.TooBig)
        (MatchResult result (AreHeldPlaces (F.remaining file)) (IsHeldPlaceFault (F.remaining file)))) }
{
    let Ok(file) = opened else {
        return Err(PlaceFault::Read);
    };
    if let Some(length) = length
        && length > MOST_OCTETS as u64
    {
        return Err(PlaceFault::TooBig);
    }
    let mut reader = Watched::new(file);
    read_file(alloc, &mut reader)
}

/// The places that a file gives.
fn read_file<R: Read>(alloc: Global, reader: &mut Watched<R>) -> Result<Places, PlaceFault>
    requires { has_failed reader.old ≡ false }
    ensures ok { IfOk result (λ places. ArePlaces (R.remaining (inner_of reader.old))
        (R.remaining (inner_of reader.new)) 80000000 places) }
    ensures err { IfErr result (λ fault. IsPlaceFault (R.remaining (inner_of reader.old))
        (R.remaining (inner_of reader.new)) 80000000 fault) }
{
    read_places(alloc, reader, MOST_OCTETS)
}
