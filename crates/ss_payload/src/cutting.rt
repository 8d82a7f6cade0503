//! Cutting a payload block into the pieces that are sent (RFC 5848, section 5.3.2).
ghost use Rattle.std.specs.Prelude.{◌≡◌, ◌≤◌, List, length, IfOk};
ghost use Rattle.std.specs.List.{flat_map};
ghost use Rattle.ss_payload.specs.declared.cuts.Cut.{Cut};
ghost use Rattle.ss_payload.specs.Cuts.{AreCuts, piece_of};
ghost use Rattle.ss_payload.specs.Ranges.{longest_payload};

use crate::cuts::{Cut, Cuts};
use ss_octets::NoMemory;
use std::alloc::Global;

/// The pieces that cover `text` once, in order, each of `size` octets, except a last one that may be shorter. The text
/// has 1 to 99,999,999 octets, and `size` is 1 to 9,999.
///
/// # Errors
///
/// `NoMemory` if memory runs out.
pub fn cut(alloc: Global, text: &[u8], size: u16) -> Result<Cuts, NoMemory>
    requires some_octet { 1 ≤ length text.now }
    requires at_most_99999999_octets { length text.now ≤ longest_payload }
    requires some_size { 1 ≤ size }
    requires at_most_9999 { size ≤ 9999 }
    // The pieces follow one another from the first octet to the last.
    ensures pieces { IfOk result (λ cuts. AreCuts (length text.now) size cuts) }
    // No other list does so.
    ensures only { (cuts : List Cut) → AreCuts (length text.now) size cuts → IfOk result (λ found. found ≡ cuts) }
    // Their octets, joined, are the text.
    ensures joined { IfOk result (λ cuts. flat_map (piece_of text.now) cuts ≡ text.now) }
{
    let total = text.len() as u32;
    let mut cuts = Vec::new(alloc);
    let mut start: u32 = 0;
    while start < total {
        let len = (total - start).min(u32::from(size));
        cuts.push(Cut {
            index: start + 1,
            len: len as u16,
        })?;
        start += len;
    }
    Ok(Cuts::from_vec(cuts))
}
