//! What octets say as a JSON object (RFC 8259) on a line.
ghost use Rattle.std.specs.Prelude.{◌≡◌, ◌++◌, OnOk, IfOk, flat_map};
ghost use Rattle.ss_signed.specs.Object.{is_escaped, escaped, key_text, number_member, text_member, octets_member};
ghost use Rattle.ss_signed.specs.Object.{field_octets, session_members, group_members, content_members, content_word};
ghost use Rattle.ss_signed.specs.Object.{exact_member, block_members, block_object, object_head, object_of};

use crate::signed_block::{SignedBlock, SignedContent};
use ss_block::{Group, Session};
use ss_message::Field;
use ss_octets::strict_base64::put_base64;
use ss_octets::{Bytes, NoMemory, put_number};
use std::alloc::{AllocError, Global};

/// The object of what octets say, as a line: that of a block, or of none.
///
/// Errs only where memory runs out.
pub fn object_of(alloc: Global, said: &Option<SignedBlock>) -> Result<Bytes, NoMemory>
    ensures { IfOk result (λ o. o ≡ object_of said.now) }
{
    let mut text = Vec::new(alloc);
    match said {
        Some(block) => put_block_object(alloc, &mut text, block)?,
        None => text.extend_from_slice(b"{\"line\":\"none\"}\n")?,
    }
    Ok(Bytes::from_vec(text))
}

/// Puts the object of a block, and LF.
#[tactic(auto, unfolding(crate::specs::Object::block_object))]
fn put_block_object(
    alloc: Global,
    text: &mut Vec<u8>,
    block: &SignedBlock,
) -> Result<(), AllocError>
    ensures { OnOk result (text.new.items ≡ text.old.items ++ block_object block.now) }
{
    put_head(text, word_of(&block.content))?;
    put_members(alloc, text, block)?;
    text.extend_from_slice(b"}\n")
}

/// Puts {"line":"WORD".
fn put_head(text: &mut Vec<u8>, word: &[u8]) -> Result<(), AllocError>
    ensures { OnOk result (text.new.items ≡ text.old.items ++ object_head word.now) }
{
    text.extend_from_slice(b"{\"line\":\"")?;
    text.extend_from_slice(word)?;
    text.extend_from_slice(b"\"")
}

/// The word of a line about such a block.
fn word_of(content: &SignedContent) -> &'static [u8]
    ensures { result.now ≡ content_word content.now }
{
    match content {
        SignedContent::Signature { .. } => b"signature",
        SignedContent::Certificate { .. } => b"certificate",
    }
}

/// Puts the members of a block.
#[tactic(auto, unfolding(crate::specs::Object::block_members))]
fn put_members(alloc: Global, text: &mut Vec<u8>, block: &SignedBlock) -> Result<(), AllocError>
    ensures { OnOk result (text.new.items ≡ text.old.items ++ block_members block.now) }
{
    put_session(text, &block.session)?;
    put_text(text, b"ver", block.alg.version().as_bytes())?;
    put_group(text, block.group)?;
    put_content(alloc, text, &block.content)?;
    put_exact(text, block.exact)
}

/// Puts host, app, procid and rsid.
#[tactic(auto, unfolding(crate::specs::Object::session_members))]
fn put_session(text: &mut Vec<u8>, session: &Session) -> Result<(), AllocError>
    ensures { OnOk result (text.new.items ≡ text.old.items ++ session_members session.now) }
{
    put_field(text, b"host", &session.host)?;
    put_field(text, b"app", &session.app)?;
    put_field(text, b"procid", &session.procid)?;
    put_number_member(text, b"rsid", session.rsid)
}

/// Puts sg and spri.
#[tactic(auto, unfolding(crate::specs::Object::group_members))]
fn put_group(text: &mut Vec<u8>, group: Group) -> Result<(), AllocError>
    ensures { OnOk result (text.new.items ≡ text.old.items ++ group_members group) }
{
    put_number_member(text, b"sg", u64::from(group.sg))?;
    put_number_member(text, b"spri", u64::from(group.spri))
}

/// Puts gbc, first and count; or total, index, length and fragment.
#[tactic(auto, unfolding(crate::specs::Object::content_members))]
fn put_content(alloc: Global, text: &mut Vec<u8>, content: &SignedContent) -> Result<(), AllocError>
    ensures { OnOk result (text.new.items ≡ text.old.items ++ content_members content.now) }
{
    match content {
        SignedContent::Signature { gbc, first, count } => put_numbers(text, *gbc, *first, *count),
        SignedContent::Certificate {
            total,
            index,
            fragment,
        } => put_fragment(alloc, text, *total, *index, fragment.as_slice()),
    }
}

/// Puts gbc, first and count.
#[tactic(auto, unfolding(crate::specs::Object::content_members))]
fn put_numbers(text: &mut Vec<u8>, gbc: u64, first: u64, count: usize) -> Result<(), AllocError>
    ensures { OnOk result
        (text.new.items ≡ text.old.items ++ content_members (SignedContent.Signature gbc first count)) }
{
    put_number_member(text, b"gbc", gbc)?;
    put_number_member(text, b"first", first)?;
    put_number_member(text, b"count", count as u64)
}

/// Puts total, index, length and fragment.
#[tactic(auto, unfolding(crate::specs::Object::content_members))]
fn put_fragment(
    alloc: Global,
    text: &mut Vec<u8>,
    total: u32,
    index: u32,
    fragment: &[u8],
) -> Result<(), AllocError>
    ensures { OnOk result
        (text.new.items ≡ text.old.items ++ content_members (SignedContent.Certificate total index fragment.now)) }
{
    put_number_member(text, b"total", u64::from(total))?;
    put_number_member(text, b"index", u64::from(index))?;
    put_number_member(text, b"length", fragment.len() as u64)?;
    put_octets(alloc, text, b"fragment", fragment)
}

/// Puts exact, where it holds.
fn put_exact(text: &mut Vec<u8>, exact: bool) -> Result<(), AllocError>
    ensures { OnOk result (text.new.items ≡ text.old.items ++ exact_member exact) }
{
    if exact {
        return put_number_member(text, b"exact", 1);
    }
    Ok(())
}

/// Puts a header field; `-` for an absent one.
fn put_field(text: &mut Vec<u8>, key: &[u8], field: &Field) -> Result<(), AllocError>
    ensures { OnOk result (text.new.items ≡ text.old.items ++ text_member key.now (field_octets field.now)) }
{
    match field {
        Field::Nil => put_text(text, key, b"-"),
        Field::Text(octets) => put_text(text, key, octets.as_slice()),
    }
}

/// Puts ,"KEY":.
fn put_key(text: &mut Vec<u8>, key: &[u8]) -> Result<(), AllocError>
    ensures { OnOk result (text.new.items ≡ text.old.items ++ key_text key.now) }
{
    text.extend_from_slice(b",\"")?;
    text.extend_from_slice(key)?;
    text.extend_from_slice(b"\":")
}

/// Puts a member whose value is a number.
fn put_number_member(text: &mut Vec<u8>, key: &[u8], number: u64) -> Result<(), AllocError>
    ensures { OnOk result (text.new.items ≡ text.old.items ++ number_member key.now number) }
{
    put_key(text, key)?;
    put_number(text, number)
}

/// Puts a member whose value is a text.
fn put_text(text: &mut Vec<u8>, key: &[u8], value: &[u8]) -> Result<(), AllocError>
    ensures { OnOk result (text.new.items ≡ text.old.items ++ text_member key.now value.now) }
{
    put_key(text, key)?;
    text.extend_from_slice(b"\"")?;
    put_escaped(text, value)?;
    text.extend_from_slice(b"\"")
}

/// Puts a member whose value are octets, in base64.
fn put_octets(
    alloc: Global,
    text: &mut Vec<u8>,
    key: &[u8],
    octets: &[u8],
) -> Result<(), AllocError>
    ensures { OnOk result (text.new.items ≡ text.old.items ++ octets_member key.now octets.now) }
{
    put_key(text, key)?;
    text.extend_from_slice(b"\"")?;
    put_base64(alloc, text, octets)?;
    text.extend_from_slice(b"\"")
}

/// Puts octets with a `\` before each `"` and `\`.
fn put_escaped(text: &mut Vec<u8>, octets: &[u8]) -> Result<(), AllocError>
    ensures { OnOk result (text.new.items ≡ text.old.items ++ flat_map escaped octets.now) }
{
    for octet in octets {
        put_octet(text, *octet)?;
    }
    Ok(())
}

/// Puts an octet, after a `\` if it is `"` or `\`.
fn put_octet(text: &mut Vec<u8>, octet: u8) -> Result<(), AllocError>
    ensures { OnOk result (text.new.items ≡ text.old.items ++ escaped octet) }
{
    if octet == b'"' || octet == b'\\' {
        text.push(b'\\')?;
    }
    text.push(octet)?;
    Ok(())
}
