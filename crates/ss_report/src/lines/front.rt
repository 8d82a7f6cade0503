//! The walk through the lines in front of a report.
ghost use Rattle.std.specs.Prelude.{◌≡◌, ◌==◌, filter_map, find, flat_map, map, option_map};
ghost use Rattle.std.specs.List.{list_any};
ghost use Rattle.std.specs.List.Sorted.{IsStrictlySortedBy};
ghost use Rattle.std.specs.Ordering.{nat_cmp};
ghost use Rattle.ss_review.specs.report.Extract.{place_listed};
ghost use Rattle.ss_review.specs.report.Verdict.{is_none};
ghost use Rattle.ss_report.specs.lines.Front.{block_line, block_lines, front_lines, is_by_sha1, is_weak};
ghost use Rattle.ss_report.specs.lines.Front.{IsReady, suspect_line};
ghost use Rattle.ss_report.specs.lines.Front.{group_places, is_sha1, none_lines, session_places, sha1_lines, weak_lines};
ghost use Rattle.ss_report.specs.lines.Taken.{TakesAll};
ghost use Rattle.ss_report.specs.strangers.Strangers.{is_verified};

use crate::lines::brief::is_listed;
use crate::lines::detail::Detail;
use crate::lines::line::Line;
use crate::lines::visitor::LineVisitor;
use crate::strangers::suspects::{Suspect, Suspects};
use ss_block::Alg;
use ss_review::{AskedParameters, Entry, GroupReport, LogBlock, LogBlocks, Report, SessionReport};

/// What the lines in front of a report are made of.
#[derive(Drop)]
pub(crate) struct FrontMatter {
    /// The blocks of the log, if lines need them, and else none.
    pub(crate) blocks: LogBlocks,
    /// The refused blocks that aren't to be ignored, if those of strangers are, and else none.
    pub(crate) suspects: Suspects,
}

/// Hands on the lines in front of a report.
pub(crate) fn walk_front<S, V: LineVisitor<S>>(
    visitor: &V,
    into: &mut S,
    front: &FrontMatter,
    report: &Report,
    detail: Detail,
)
    ensures { IsReady detail front.now report.now
        → TakesAll (V.takes visitor.now) into.old into.new (front_lines detail front.now.blocks report.now) }
{
    let refused = report.refused.as_slice();
    let blocks = front.blocks.as_slice();
    walk_blocks(visitor, into, blocks, refused, detail.blocks);
    walk_sha1(visitor, into, blocks, refused, detail.no_sha1);
    walk_suspects(visitor, into, front.suspects.as_slice());
    walk_none_listed(visitor, into, report, detail.some_listed);
}

/// Hands on a line for each refused block that isn't to be ignored.
fn walk_suspects<S, V: LineVisitor<S>>(visitor: &V, into: &mut S, suspects: &[Suspect])
    ensures { TakesAll (V.takes visitor.now) into.old into.new (map suspect_line suspects.now) }
{
    for suspect in suspects {
        visitor.visit(into, Line::NotIgnored { suspect: *suspect });
    }
}

/// Hands on a line for each block, if these are asked for.
fn walk_blocks<S, V: LineVisitor<S>>(
    visitor: &V,
    into: &mut S,
    blocks: &[LogBlock],
    refused: &[u32],
    asked: bool,
)
    ensures { IsStrictlySortedBy nat_cmp refused.now
        → TakesAll (V.takes visitor.now) into.old into.new (block_lines asked refused.now blocks.now) }
{
    if asked {
        walk_each_block(visitor, into, blocks, refused);
    }
}

/// Hands on a line for each block.
fn walk_each_block<S, V: LineVisitor<S>>(
    visitor: &V,
    into: &mut S,
    blocks: &[LogBlock],
    refused: &[u32],
)
    ensures { IsStrictlySortedBy nat_cmp refused.now
        → TakesAll (V.takes visitor.now) into.old into.new (map (block_line refused.now) blocks.now) }
{
    for block in blocks {
        walk_block(visitor, into, block, refused);
    }
}

/// Hands on the line of a block.
fn walk_block<S, V: LineVisitor<S>>(visitor: &V, into: &mut S, block: &LogBlock, refused: &[u32])
    ensures { IsStrictlySortedBy nat_cmp refused.now
        → V.takes visitor.now into.old into.new (block_line refused.now block.now) }
{
    let is_verified = is_verified(refused, block);
    visitor.visit(into, Line::Block { block, is_verified });
}

/// Whether the block is verified, where those at these places aren't.
pub(crate) fn is_verified(refused: &[u32], block: &LogBlock) -> bool
    ensures { IsStrictlySortedBy nat_cmp refused.now → result ≡ is_verified refused.now block.now }
{
    !is_among(refused, block.place)
}

/// Whether the place is one of these, which rise.
fn is_among(places: &[u32], place: u32) -> bool
    ensures { IsStrictlySortedBy nat_cmp places.now → result ≡ list_any (λ p. p == place) places.now }
{
    places.binary_search(&place).is_ok()
}

/// Hands on that a session rests on SHA-1, if that is so, and is a finding.
fn walk_sha1<S, V: LineVisitor<S>>(
    visitor: &V,
    into: &mut S,
    blocks: &[LogBlock],
    refused: &[u32],
    asked: bool,
)
    ensures { IsStrictlySortedBy nat_cmp refused.now
        → TakesAll (V.takes visitor.now) into.old into.new (sha1_lines asked refused.now blocks.now) }
{
    if asked {
        walk_weak(visitor, into, first_weak(blocks, refused));
    }
}

/// Hands on the place of such a block, if there is one.
fn walk_weak<S, V: LineVisitor<S>>(visitor: &V, into: &mut S, place: Option<u32>)
    ensures { TakesAll (V.takes visitor.now) into.old into.new (weak_lines place) }
{
    if let Some(place) = place {
        visitor.visit(into, Line::Sha1 { place });
    }
}

/// The place of the first verified signature block whose hashes are by SHA-1.
fn first_weak(blocks: &[LogBlock], refused: &[u32]) -> Option<u32>
    ensures { IsStrictlySortedBy nat_cmp refused.now
        → result ≡ option_map (λ b. b.place) (find (is_weak refused.now) blocks.now) }
{
    for block in blocks {
        if is_weak(refused, block) {
            return Some(block.place);
        }
    }
    None
}

/// Whether the block is a verified signature block whose hashes are by SHA-1.
fn is_weak(refused: &[u32], block: &LogBlock) -> bool
    ensures { IsStrictlySortedBy nat_cmp refused.now → result ≡ is_weak refused.now block.now }
{
    is_by_sha1(block.parameters) && is_verified(refused, block)
}

/// Whether these are of a signature block whose hashes are by SHA-1.
fn is_by_sha1(parameters: AskedParameters) -> bool
    ensures { result ≡ is_by_sha1 parameters }
{
    match parameters {
        AskedParameters::Signature { alg, .. } => is_sha1(alg),
        AskedParameters::Certificate { .. } => false,
    }
}

/// Whether the algorithm is SHA-1.
fn is_sha1(alg: Alg) -> bool
    ensures { result ≡ is_sha1 alg }
{
    match alg {
        Alg::Sha1 => true,
        Alg::Sha256 => false,
    }
}

/// Hands on that no message is listed, if that is so, and is a finding.
fn walk_none_listed<S, V: LineVisitor<S>>(
    visitor: &V,
    into: &mut S,
    report: &Report,
    some_listed: bool,
)
    ensures { TakesAll (V.takes visitor.now) into.old into.new (none_lines some_listed report.now) }
{
    if some_listed && lists_none(report.sessions.as_slice()) {
        visitor.visit(into, Line::NoneListed);
    }
}

/// Whether no message of these sessions is listed.
fn lists_none(sessions: &[SessionReport]) -> bool
    ensures { result ≡ is_none (flat_map session_places sessions.now) }
{
    for session in sessions {
        if !groups_list_none(session.groups.as_slice()) {
            return false;
        }
    }
    true
}

/// Whether no message of these groups is listed.
fn groups_list_none(groups: &[GroupReport]) -> bool
    ensures { result ≡ is_none (flat_map group_places groups.now) }
{
    for group in groups {
        if !entries_list_none(group.entries.as_slice()) {
            return false;
        }
    }
    true
}

/// Whether none of these entries is a listed message.
fn entries_list_none(entries: &[Entry]) -> bool
    ensures { result ≡ is_none (filter_map place_listed entries.now) }
{
    for entry in entries {
        if is_listed(*entry) {
            return false;
        }
    }
    true
}
