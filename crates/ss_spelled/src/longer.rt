//! The fronts with which a search begins, and those that fragments make longer.
ghost use Rattle.std.specs.Prelude.{◌≡◌, ◌++◌, List, ℕ, IfOk, IfSome, IfNone, OnOk};
ghost use Rattle.ss_spelled.specs.Fronts.{IsTail, AreBeginnings, AreJoinedBy};

use crate::fragment::Fragment;
use crate::front::Front;
use ss_octets::{Bytes, NoMemory};
use std::alloc::Global;
use std::collections::BTreeSet;

/// The octets of a fragment that stand after a front, if the fragment has the octet after it, agrees with it and ends
/// within the payload.
pub(crate) fn tail_of<'f>(front: &Front, fragment: &'f Fragment) -> Option<&'f [u8]>
    ensures some { IfSome result (λ tail. IsTail front.now fragment.now tail.now) }
    ensures none { IfNone result ((tail : List ℕ) → ¬ IsTail front.now fragment.now tail) }
{
    let text = front.text.as_slice();
    if fragment.total != front.total {
        return None;
    }
    let begin = (fragment.index as usize).checked_sub(1)?;
    let over = text.get(begin..)?;
    let tail = fragment.octets.as_slice().strip_prefix(over)?;
    let left = (front.total as usize).checked_sub(text.len())?;
    if tail.is_empty() || tail.len() > left {
        return None;
    }
    Some(tail)
}

/// The octets of the front, and then those of the tail.
fn joined(alloc: Global, front: &[u8], tail: &[u8]) -> Result<Bytes, NoMemory>
    ensures { IfOk result (λ text. text ≡ front.now ++ tail.now) }
{
    let mut text = Vec::with_capacity(alloc, front.len() + tail.len())?;
    text.extend_from_slice(front)?;
    text.extend_from_slice(tail)?;
    Ok(Bytes::from_vec(text))
}

/// Adds each front that a fragment makes of this one.
pub(crate) fn add_longer(
    alloc: Global,
    waiting: &mut BTreeSet<Front>,
    fragments: &[Fragment],
    front: &Front,
) -> Result<(), NoMemory>
    ensures { OnOk result (AreJoinedBy front.now fragments.now waiting.old.keys waiting.new.keys) }
{
    for fragment in fragments {
        if let Some(tail) = tail_of(front, fragment) {
            let text = joined(alloc, front.text.as_slice(), tail)?;
            waiting.insert(Front {
                total: front.total,
                text,
            })?;
        }
    }
    Ok(())
}

/// An empty front for each total that a fragment states, but for 0.
pub(crate) fn beginnings(alloc: Global, fragments: &[Fragment]) -> Result<BTreeSet<Front>, NoMemory>
    ensures { IfOk result (λ fronts. AreBeginnings fragments.now fronts.keys) }
{
    let mut fronts = BTreeSet::new(alloc);
    for fragment in fragments {
        if fragment.total > 0 {
            fronts.insert(Front {
                total: fragment.total,
                text: Bytes::from_vec(Vec::new(alloc)),
            })?;
        }
    }
    Ok(fronts)
}
