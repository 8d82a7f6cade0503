//! The search for the payloads that fragments spell.
ghost use Rattle.std.specs.Prelude.{◌≡◌, ◌≤◌, IfOk, length};
ghost use Rattle.ss_spelled.specs.Search.{IsAnswer};

use crate::fragment::Fragment;
use crate::longer::{add_longer, beginnings};
use crate::paying::paid;
use ss_octets::{Bytes, List, NoMemory};
use std::alloc::Global;

/// How far a search goes.
#[derive(Clone, Copy, Debug, PartialEq, Eq)]
pub struct Bounds {
    /// So many payloads are listed at most.
    pub texts: usize,
    /// So many steps are taken at most.
    pub steps: u64,
}

/// What fragments spell.
#[derive(Debug, Drop)]
pub struct Spelled {
    /// Payloads: the shorter ones first, and of those as long as each other in the order of their octets. None stands
    /// there twice.
    pub texts: List<Bytes>,
    /// Whether the search ended at a bound, so there may be others.
    pub cut: bool,
}

/// The payloads that fragments spell: each octet of a payload stands in a fragment that states its length and has its
/// octets at its index.
pub fn spell(alloc: Global, fragments: &[Fragment], bounds: Bounds) -> Result<Spelled, NoMemory>
    ensures { IfOk result (λ s. IsAnswer fragments.now bounds s) }
{
    let mut waiting = beginnings(alloc, fragments)?;
    let mut texts = Vec::new(alloc);
    let mut left = bounds.steps;
    while let Some(front) = waiting.pop_first() {
        let Some(rest) = paid(left, fragments, &front) else {
            return Ok(Spelled {
                texts: List::from_vec(texts),
                cut: true,
            });
        };
        left = rest;
        if !front.is_whole() {
            add_longer(alloc, &mut waiting, fragments, &front)?;
            continue;
        }
        if texts.len() >= bounds.texts {
            return Ok(Spelled {
                texts: List::from_vec(texts),
                cut: true,
            });
        }
        texts.push(front.text)?;
    }
    Ok(Spelled {
        texts: List::from_vec(texts),
        cut: false,
    })
}
