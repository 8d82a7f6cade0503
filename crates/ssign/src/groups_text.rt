//! The groups of messages, as an option spells them.
ghost use Rattle.std.specs.Prelude.{◌≡◌, IfOk};
ghost use Rattle.ss_octets.specs.Number.{number_in};
ghost use Rattle.ssign.specs.GroupsText.{bounds_in, grouping_in};

use ss_octets::{NoMemory, cut_first, number_of};
use ss_origin::{Bounds, Grouping, are_bounds};
use std::alloc::Global;

/// The PRI that the text spells in decimal, without a sign or a leading zero: 0 to 191.
fn pri_of(text: &[u8]) -> Option<u8>
    ensures { result ≡ number_in 0 191 text.now }
{
    match number_of(0, 191, text) {
        Some(pri) => Some(pri as u8),
        None => None,
    }
}

/// The bounds that are joined by commas: the highest PRI of each range. `None` where a piece between commas is no PRI,
/// one isn't above the one before, or the last isn't 191.
fn bounds_of(alloc: Global, text: &[u8]) -> Result<Option<Bounds>, NoMemory>
    ensures { IfOk result (λ o. o ≡ bounds_in text.now) }
{
    let mut bounds = Vec::new(alloc);
    let mut rest = text;
    while let Some((piece, after)) = cut_first(rest, b',') {
        let Some(bound) = pri_of(piece) else {
            return Ok(None);
        };
        bounds.push(bound)?;
        rest = after;
    }
    let Some(last) = pri_of(rest) else {
        return Ok(None);
    };
    bounds.push(last)?;
    if are_bounds(&bounds) {
        Ok(Some(Bounds::from_vec(bounds)))
    } else {
        Ok(None)
    }
}

/// The groups that the text of `--groups` asks for: `one`, `pri`, or bounds. `None` where it is none of these.
pub fn grouping_of(alloc: Global, text: &str) -> Result<Option<Grouping>, NoMemory>
    ensures { IfOk result (λ o. o ≡ grouping_in text.now) }
{
    match text {
        "one" => Ok(Some(Grouping::One { spri: 0 })),
        "pri" => Ok(Some(Grouping::ByPri)),
        _ => match bounds_of(alloc, text.as_bytes())? {
            Some(bounds) => Ok(Some(Grouping::Ranges(bounds))),
            None => Ok(None),
        },
    }
}
