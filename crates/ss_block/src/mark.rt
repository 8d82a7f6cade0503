//! The octets with which the element of a block begins.
ghost use Rattle.std.specs.Prelude.{◌≡◌, ◌↔◌, false, IsTrue};
ghost use Rattle.ss_block.specs.Reading.{reading};
ghost use Rattle.ss_block.specs.Mark.{HoldsMark, has_block_element};

use crate::laws::readings::blocks_are_marked;
use memchr::memmem;

/// Whether the octets `[ssign` stand somewhere in `bytes`. Each element of a block begins with them (RFC 5424, section
/// 6.3; RFC 5848, sections 4.2 and 5.3.2), so where they don't stand the message holds no block, spoilt or not.
///
/// It takes no memory, and a small part of the time that `classify` takes.
pub fn may_hold_block(bytes: &[u8]) -> bool
    ensures mark { IsTrue result ↔ HoldsMark bytes.now }
    // A text without them needs no parse.
    ensures no_block { result ≡ false → has_block_element (reading bytes.now) ≡ false }
{
    blocks_are_marked();
    memmem::find(bytes, b"[ssign").is_some()
}
