//! The refused blocks that aren't to be ignored.
ghost use Rattle.std.specs.Prelude.{◌≡◌, ◌&&◌, ◌++◌, [], List, filter, IfOk, OnOk};
ghost use Rattle.ss_review.specs.declared.keep.log_blocks.LogBlock.{LogBlock};
ghost use Rattle.ss_review.specs.declared.report.session_report.SessionReport.{SessionReport};
ghost use Rattle.ss_block.specs.declared.session.Session.{Session};
ghost use Rattle.ss_review.specs.report.Meaning.{IsInOrder};
ghost use Rattle.std.specs.Prelude.{ℕ};
ghost use Rattle.ss_report.specs.strangers.Strangers.{is_reached, same_names, suspect_at, suspects, suspicion_of};
ghost use Rattle.ss_report.specs.strangers.Reaches.{HasReaches, KnowsLeast, is_below};
ghost use Rattle.std.specs.List.{cons_option};

use crate::lines::front::is_verified;
use crate::strangers::fellows::{Known, is_below, is_joined_in, known_least, of_names};
use crate::strangers::reach::{Reaches, reaches_of};
use ss_octets::{List, NoMemory};
use ss_review::{AskedParameters, LogBlock, Report, SessionReport};
use std::alloc::Global;
use std::collections::BTreeMap;

/// Why a refused block isn't to be ignored.
#[derive(Clone, Copy, Debug, PartialEq, Eq)]
pub(crate) enum Suspicion {
    /// The session that it claims isn't joined.
    Unjoined,
    /// It may be its signer's last signature block, changed: a joined session with its HOSTNAME, APP-NAME and PROCID
    /// isn't known up to its GBC, or up to its last number.
    Late,
}

/// A refused block that isn't to be ignored.
#[derive(Clone, Copy, Debug, PartialEq, Eq)]
pub(crate) struct Suspect {
    /// Its place in the log, from 0.
    pub(crate) place: u32,
    /// Why it isn't to be ignored.
    pub(crate) suspicion: Suspicion,
}

/// Refused blocks that aren't to be ignored, by rising place. Contracts see the list alone.
pub(crate) type Suspects = List<Suspect>;

/// Whether the joined ones of these sessions all have a verified signature block with at least the GBC of this block, and
/// one of its group with at least its last number. A certificate block has neither.
fn is_reached<'a>(
    known: &mut Known<'a>,
    reaches: &Reaches<'a>,
    named: &'a [SessionReport],
    parameters: AskedParameters,
) -> Result<bool, NoMemory>
    ensures { (refused : List ℕ) (bs : List LogBlock) (ss : List SessionReport) (s : Session)
        → HasReaches reaches.now refused bs
        → KnowsLeast known.old ss refused bs
        → named.now ≡ filter (λ t. same_names t.session s) ss
        → IfOk result (λ is. KnowsLeast known.new ss refused bs × (is ≡ is_reached ss refused bs s parameters)) }
{
    match parameters {
        AskedParameters::Certificate { .. } => Ok(true),
        AskedParameters::Signature {
            group,
            gbc,
            first,
            count,
            ..
        } => {
            let gbcs = known_least(known, reaches, named, None)?;
            let numbers = known_least(known, reaches, named, Some(group))?;
            let end = u128::from(first) + u128::from(count);
            Ok(are_below(u128::from(gbc), gbcs, end, numbers))
        }
    }
}

/// Whether the GBC and the number after the last one lie below what several sessions all reach.
fn are_below(gbc: u128, gbcs: Option<u128>, end: u128, numbers: Option<u128>) -> bool
    ensures { result ≡ (is_below gbc gbcs && is_below end numbers) }
{
    is_below(gbc, gbcs) && is_below(end, numbers)
}

/// Why this block isn't to be ignored if it is refused, if it isn't.
fn suspicion_of<'a>(
    known: &mut Known<'a>,
    reaches: &Reaches<'a>,
    report: &'a Report,
    block: &LogBlock,
) -> Result<Option<Suspicion>, NoMemory>
    ensures { (bs : List LogBlock)
        → IsInOrder report.now
        → HasReaches reaches.now report.now.refused bs
        → KnowsLeast known.old report.now.sessions report.now.refused bs
        → IfOk result (λ why. KnowsLeast known.new report.now.sessions report.now.refused bs
        × (why ≡ suspicion_of bs report.now block.now)) }
{
    if !is_joined_in(report, &block.session) {
        return Ok(Some(Suspicion::Unjoined));
    }
    let named = of_names(report.sessions.as_slice(), &block.session);
    if is_reached(known, reaches, named, block.parameters)? {
        Ok(None)
    } else {
        Ok(Some(Suspicion::Late))
    }
}

/// Why this block isn't to be ignored, if it is refused, and isn't.
fn suspect_at<'a>(
    known: &mut Known<'a>,
    reaches: &Reaches<'a>,
    report: &'a Report,
    block: &LogBlock,
) -> Result<Option<Suspect>, NoMemory>
    ensures { (bs : List LogBlock)
        → IsInOrder report.now
        → HasReaches reaches.now report.now.refused bs
        → KnowsLeast known.old report.now.sessions report.now.refused bs
        → IfOk result (λ suspect. KnowsLeast known.new report.now.sessions report.now.refused bs
        × (suspect ≡ suspect_at bs report.now block.now)) }
{
    if is_verified(report.refused.as_slice(), block) {
        return Ok(None);
    }
    match suspicion_of(known, reaches, report, block)? {
        None => Ok(None),
        Some(suspicion) => Ok(Some(Suspect {
            place: block.place,
            suspicion,
        })),
    }
}

/// Adds the suspect, if there is one.
fn add_suspect(suspects: &mut Vec<Suspect>, suspect: Option<Suspect>) -> Result<(), NoMemory>
    ensures { OnOk result (suspects.new.items ≡ suspects.old.items ++ cons_option suspect []) }
{
    if let Some(suspect) = suspect {
        suspects.push(suspect)?;
    }
    Ok(())
}

/// The refused blocks among those of a log that aren't to be ignored. It takes time in proportion to n log n for n blocks
/// and sessions, and for each group and each originator once the time of looking at all its sessions.
pub(crate) fn suspects<'a>(
    alloc: Global,
    blocks: &'a [LogBlock],
    report: &'a Report,
) -> Result<Suspects, NoMemory>
    ensures { IsInOrder report.now → IfOk result (λ found. found ≡ suspects blocks.now report.now) }
{
    let reaches = reaches_of(alloc, blocks, report.refused.as_slice())?;
    let mut known = BTreeMap::new(alloc);
    let mut suspects = Vec::new(alloc);
    for block in blocks {
        let suspect = suspect_at(&mut known, &reaches, report, block)?;
        add_suspect(&mut suspects, suspect)?;
    }
    Ok(Suspects::from_vec(suspects))
}
