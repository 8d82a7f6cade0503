//! How far the verified signature blocks of each session reach.
ghost use Rattle.std.specs.Prelude.{◌≡◌, ◌++◌, ◌∷◌, [], ℕ, List, true, IfOk, OnOk};
ghost use Rattle.std.specs.List.Sorted.{IsStrictlySortedBy};
ghost use Rattle.std.specs.Ordering.{nat_cmp};
ghost use Rattle.ss_review.specs.declared.keep.log_blocks.LogBlock.{LogBlock};
ghost use Rattle.ss_report.specs.strangers.Strangers.{is_verified};
ghost use Rattle.ss_report.specs.strangers.Reaches.{HasReaches, Raises, reach_in};

use crate::lines::front::is_verified;
use ss_block::{Group, Session};
use ss_octets::NoMemory;
use ss_review::{AskedParameters, LogBlock};
use std::alloc::Global;
use std::collections::BTreeMap;

/// For a session and a group, the greatest number that comes after the last one of a verified signature block, and one
/// more; for a session alone, the greatest GBC of one (RFC 5848, section 4.2.4), and one more.
pub(crate) type Reaches<'a> = BTreeMap<(&'a Session, Option<Group>), u128>;

/// What is kept of the session and the group, or of the session alone: 0 where nothing is.
pub(crate) fn reach<'a>(reaches: &Reaches<'a>, session: &'a Session, scale: Option<Group>) -> u128
    ensures { result ≡ reach_in reaches.now session.now scale }
{
    reaches.get(&(session, scale)).copied().unwrap_or(0)
}

/// Keeps this, unless more is kept of the session and the group, or of the session alone.
fn raise<'a>(
    reaches: &mut Reaches<'a>,
    session: &'a Session,
    scale: Option<Group>,
    end: u128,
) -> Result<(), NoMemory>
    ensures { OnOk result (Raises reaches.old reaches.new session.now scale end) }
{
    let greatest = reach(reaches, session, scale).max(end);
    reaches.insert((session, scale), greatest)?;
    Ok(())
}

/// Keeps how far a verified block reaches.
fn add_block<'a>(reaches: &mut Reaches<'a>, block: &'a LogBlock) -> Result<(), NoMemory>
    ensures { (refused : List ℕ) (bs : List LogBlock)
        → is_verified refused block.now ≡ true
        → HasReaches reaches.old refused bs
        → OnOk result (HasReaches reaches.new refused (bs ++ block.now ∷ [])) }
{
    match block.parameters {
        AskedParameters::Signature {
            group,
            gbc,
            first,
            count,
            ..
        } => {
            let end = u128::from(first) + u128::from(count);
            raise(reaches, &block.session, None, u128::from(gbc) + 1)?;
            raise(reaches, &block.session, Some(group), end + 1)?;
            Ok(())
        }
        AskedParameters::Certificate { .. } => Ok(()),
    }
}

/// Keeps how far a block reaches, if it is verified.
fn add_verified<'a>(
    reaches: &mut Reaches<'a>,
    block: &'a LogBlock,
    refused: &[u32],
) -> Result<(), NoMemory>
    ensures { (bs : List LogBlock)
        → IsStrictlySortedBy nat_cmp refused.now
        → HasReaches reaches.old refused.now bs
        → OnOk result (HasReaches reaches.new refused.now (bs ++ block.now ∷ [])) }
{
    if is_verified(refused, block) {
        add_block(reaches, block)
    } else {
        Ok(())
    }
}

/// How far the verified blocks of these reach, where those at these places aren't verified.
pub(crate) fn reaches_of<'a>(
    alloc: Global,
    blocks: &'a [LogBlock],
    refused: &[u32],
) -> Result<Reaches<'a>, NoMemory>
    ensures { IsStrictlySortedBy nat_cmp refused.now
        → IfOk result (λ reaches. HasReaches reaches refused.now blocks.now) }
{
    let mut reaches = BTreeMap::new(alloc);
    for block in blocks {
        add_verified(&mut reaches, block, refused)?;
    }
    Ok(reaches)
}
