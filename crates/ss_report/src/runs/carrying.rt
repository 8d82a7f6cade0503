//! What is carried over from a log to the next one, where sessions go on from log to log.
ghost use Rattle.std.specs.Prelude.{◌≡◌, ◌≤◌, ◌++◌, ◌∷◌, [], ℕ, true, List, length, IfOk, OnOk, if◌then◌else◌};
ghost use Rattle.std.specs.List.{cons_option};
ghost use Rattle.std.specs.BTreeSet.{Updates, contains};
ghost use Rattle.ss_frame.specs.Limits.{most_messages};
ghost use Rattle.ss_review.specs.keep.BlockMessage.{BlockMessage, Hashes, Fragment};
ghost use Rattle.ss_review.specs.keep.Notes.{note, notes};
ghost use Rattle.ss_review.specs.keep.Contents.{block_at, block_with, blocks, said_in};
ghost use Rattle.ss_review.specs.report.Meaning.{IsInOrder};
ghost use Rattle.ss_review.specs.declared.report.report.Report.{Report};
ghost use Rattle.ss_report.specs.runs.Carrying.{carried_by, is_verified_in};
ghost use Rattle.ss_report.specs.runs.CarriedSoFar.{KnowsExtents, carried_at, carried_numbers, carried_verified};
ghost use Rattle.ss_report.specs.runs.CarriedSoFar.{carried_with, extent_cmp};

use crate::log::held::Held;
use crate::runs::lookups::{entries_under, has_gap, is_refused, joined_session};
use crate::runs::places::{add_of_entries, put_in_order};
use ss_block::{CertBlock, FullReading, Reading, Session, SigBlock, may_hold_block, read_fully};
use ss_octets::NoMemory;
use ss_review::{Entry, Places, Report};
use std::alloc::Global;
use std::collections::BTreeSet;

/// Where the fragment of a certificate block stands in the payload of its session: INDEX and FLEN (RFC 5848, section
/// 5.3.2).
#[derive(Clone, Copy, PartialEq, Eq, PartialOrd, Ord)]
struct Extent<'a> {
    session: &'a Session,
    index: u32,
    length: usize,
}

/// The places of what is carried over, and the extents of the verified certificate blocks that were passed.
#[derive(Drop)]
struct Carried<'a> {
    places: Vec<u32>,
    known: BTreeSet<Extent<'a>>,
}

/// The places of the messages that are carried over, each once, rising. The report is that on these messages.
pub(crate) fn carried_places(
    alloc: Global,
    report: &Report,
    messages: &Held,
) -> Result<Places, NoMemory>
    requires rising { IsInOrder report.now }
    requires few { length messages.now ≤ most_messages }
    ensures { IfOk result (λ places. places ≡ carried_by report.now (blocks (notes messages.now))) }
{
    let places = Vec::from_slice(alloc, report.unlisted.as_slice())?;
    let known = BTreeSet::new(alloc);
    let mut carried = Carried { places, known };
    let mut place = 0;
    while let Some(text) = messages.get(place as usize) {
        carry_message(alloc, &mut carried, report, place, text)?;
        place += 1;
    }
    let mut places = carried.places;
    put_in_order(&mut places);
    Ok(Places::from_vec(places))
}

/// Adds what is carried for the message at this place, if it is a block.
fn carry_message<'a>(
    alloc: Global,
    carried: &mut Carried<'a>,
    report: &'a Report,
    place: u32,
    text: &[u8],
) -> Result<(), NoMemory>
    requires { IsInOrder report.now }
    ensures carried { (before : List BlockMessage)
        → KnowsExtents report.now before carried.old.known
        → OnOk result (carried.new.places.items ≡ carried.old.places.items
        ++ carried_at report.now before (block_at place (note text.now))) }
    ensures known { (before : List BlockMessage)
        → KnowsExtents report.now before carried.old.known
        → OnOk result (KnowsExtents report.now (before ++ cons_option (block_at place (note text.now)) [])
        carried.new.known) }
{
    if !may_hold_block(text) {
        return Ok(());
    }
    let read = read_fully(alloc, text)?;
    carry_read(carried, report, place, &read)
}

/// Adds what is carried for the message at this place that was read as this, if it is a block.
fn carry_read<'a>(
    carried: &mut Carried<'a>,
    report: &'a Report,
    place: u32,
    read: &FullReading,
) -> Result<(), NoMemory>
    requires { IsInOrder report.now }
    ensures carried { (before : List BlockMessage)
        → KnowsExtents report.now before carried.old.known
        → OnOk result (carried.new.places.items ≡ carried.old.places.items
        ++ carried_at report.now before
        (block_with place (said_in read.now.reading) read.now.session read.now.signed)) }
    ensures known { (before : List BlockMessage)
        → KnowsExtents report.now before carried.old.known
        → OnOk result (KnowsExtents report.now
        (before ++ cons_option (block_with place (said_in read.now.reading) read.now.session read.now.signed) [])
        carried.new.known) }
{
    let Some(session) = &read.session else {
        return Ok(());
    };
    let Some(_) = &read.signed else {
        return Ok(());
    };
    match &read.reading {
        Reading::Signature(block) => {
            carry_signature(&mut carried.places, report, place, session, block)
        }
        Reading::Certificate(block) => carry_certificate(carried, report, place, session, block),
        Reading::Plain | Reading::Unparsed { .. } | Reading::Spoilt(_) => Ok(()),
    }
}

/// Adds what is carried for a signature block.
fn carry_signature(
    places: &mut Vec<u32>,
    report: &Report,
    place: u32,
    session: &Session,
    block: &SigBlock,
) -> Result<(), NoMemory>
    requires { IsInOrder report.now }
    ensures { (before : List BlockMessage) (octets : List ℕ)
        → OnOk result (places.new.items ≡ places.old.items ++ carried_with report.now before (record {
          place = place;
          count = length block.now.hashes;
          session = session.now;
          said = Hashes block.now;
          signed = octets;
        })) }
{
    let Some(reported) = joined_session(report, session) else {
        places.push(place)?;
        return Ok(());
    };
    let refused = is_refused(report, place);
    if refused {
        return Ok(());
    }
    carry_numbers(places, place, entries_under(reported, block))
}

/// Adds the place of a verified signature block whose numbers have these entries, if one of them is a gap. The messages
/// that the entries list are added too.
fn carry_numbers(places: &mut Vec<u32>, place: u32, entries: &[Entry]) -> Result<(), NoMemory>
    ensures { OnOk result (places.new.items ≡ places.old.items ++ carried_numbers entries.now place) }
{
    if !has_gap(entries) {
        return Ok(());
    }
    places.push(place)?;
    add_of_entries(places, entries)?;
    Ok(())
}

/// Adds what is carried for a certificate block.
fn carry_certificate<'a>(
    carried: &mut Carried<'a>,
    report: &'a Report,
    place: u32,
    session: &Session,
    block: &CertBlock,
) -> Result<(), NoMemory>
    requires { IsInOrder report.now }
    ensures carried { (before : List BlockMessage) (octets : List ℕ)
        → KnowsExtents report.now before carried.old.known
        → OnOk result (carried.new.places.items ≡ carried.old.places.items ++ carried_with report.now before (record {
          place = place;
          count = 0;
          session = session.now;
          said = Fragment block.now;
          signed = octets;
        })) }
    ensures known { (before : List BlockMessage) (octets : List ℕ)
        → KnowsExtents report.now before carried.old.known
        → OnOk result (KnowsExtents report.now (before ++ record {
          place = place;
          count = 0;
          session = session.now;
          said = Fragment block.now;
          signed = octets;
        } ∷ []) carried.new.known) }
{
    let Some(reported) = joined_session(report, session) else {
        carried.places.push(place)?;
        return Ok(());
    };
    if is_refused(report, place) {
        return Ok(());
    }
    carry_verified(carried, place, &reported.session, block)
}

/// Adds the place of a verified certificate block of this session, if no verified one before has its extent.
fn carry_verified<'a>(
    carried: &mut Carried<'a>,
    place: u32,
    session: &'a Session,
    block: &CertBlock,
) -> Result<(), NoMemory>
    ensures carried { (r : Report) (before : List BlockMessage) (b : BlockMessage)
        → KnowsExtents r before carried.old.known
        → b.place ≡ place → b.session ≡ session.now → b.said ≡ Fragment block.now
        → OnOk result (carried.new.places.items ≡ carried.old.places.items ++ carried_verified r before b b.said) }
    ensures known { (r : Report) (before : List BlockMessage) (b : BlockMessage)
        → KnowsExtents r before carried.old.known
        → b.session ≡ session.now → b.said ≡ Fragment block.now → is_verified_in r b ≡ true
        → OnOk result (KnowsExtents r (before ++ b ∷ []) carried.new.known) }
{
    let extent = Extent {
        session,
        index: block.index(),
        length: block.fragment().as_slice().len(),
    };
    carry_first(carried, place, extent)
}

/// Adds the place of a verified certificate block, if it is the first of its extent.
fn carry_first<'a>(
    carried: &mut Carried<'a>,
    place: u32,
    extent: Extent<'a>,
) -> Result<(), NoMemory>
    ensures carried { OnOk result (carried.new.places.items
        ≡ carried.old.places.items ++ (if contains extent_cmp carried.old.known extent.entry then [] else place ∷ [])) }
    ensures known { OnOk result (Updates extent_cmp carried.old.known carried.new.known extent.entry true) }
{
    if carried.known.insert(extent)? {
        carried.places.push(place)?;
    }
    Ok(())
}
