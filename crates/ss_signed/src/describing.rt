//! What the signed octets of a block say of it.
ghost use Rattle.std.specs.Prelude.{◌≡◌, IfOk, IfSome, true};
ghost use Rattle.std.specs.List.{All};
ghost use Rattle.ss_message.specs.Draft.{drafted_field};
ghost use Rattle.ss_message.specs.Layout.{field_of, value_of};
ghost use Rattle.ss_block.specs.Parsed.{IsRead};
ghost use Rattle.ss_signed.specs.Described.{head_in, signature_described, certificate_described, value_described};
ghost use Rattle.ss_signed.specs.Described.{described};
ghost use Rattle.ss_signed.specs.Laws.{IsWrittenSignature, IsWrittenCertificate, IsWritten};

use crate::completing::completed_text;
use crate::place::sign_place;
use crate::signed_block::{SignedBlock, SignedContent};
use crate::sound::assure_hashes;
use ss_block::{
    CertBlock, Head, Reading, Session, SigBlock, classify, unsigned_cert, unsigned_sig,
};
use ss_message::{Fault, Field, Message, Stamp, assure_timestamp, parse};
use ss_octets::{Bytes, NoMemory};
use std::alloc::Global;

/// A copy of these octets.
fn copy_of(alloc: Global, octets: &[u8]) -> Result<Bytes, NoMemory>
    ensures { IfOk result (λ b. b ≡ octets.now) }
{
    Ok(Bytes::from_vec(Vec::from_slice(alloc, octets)?))
}

/// The field of the header that these octets spell; `-` is the absent one.
fn field(alloc: Global, octets: &[u8]) -> Result<Field, NoMemory>
    ensures { IfOk result (λ f. drafted_field f ≡ field_of octets.now) }
{
    if octets == b"-".as_slice() {
        return Ok(Field::Nil);
    }
    Ok(Field::Text(copy_of(alloc, octets)?))
}

/// PRI and the fields of the message, as a header of blocks has them.
fn head_of(alloc: Global, message: &Message<'_>) -> Result<Head, NoMemory>
    requires { IsRead message.now }
    ensures { IfOk result (λ h. h ≡ head_in (value_of message.now)) }
{
    let hostname = field(alloc, message.part(message.hostname))?;
    let app_name = field(alloc, message.part(message.app_name))?;
    let procid = field(alloc, message.part(message.procid))?;
    let msgid = field(alloc, message.part(message.msgid))?;
    match Head::new(message.pri, hostname, app_name, procid, msgid) {
        Some(head) => Ok(head),
        None => unreachable!(),
    }
}

/// What octets say that are those of this signature block under this head, and whether they are as they are written.
fn of_signature(
    alloc: Global,
    octets: &[u8],
    head: &Head,
    stamp: Option<Stamp>,
    block: &SigBlock,
) -> Result<SignedBlock, NoMemory>
    ensures value { IfOk result (λ d. d ≡ signature_described octets.now head.now stamp block.now) }
    ensures written { IfOk result (λ d. d.exact ≡ true → IsWrittenSignature octets.now d) }
{
    head.assure_in_range();
    assure_timestamp(&stamp);
    block.assure_in_range();
    let hashes = block.hashes().as_slice();
    assure_hashes(hashes);
    let written = unsigned_sig(alloc, head, stamp, block)?;
    let header = block.header();
    Ok(SignedBlock {
        session: Session::of_head(alloc, head, header.rsid)?,
        alg: header.alg,
        group: header.group,
        content: SignedContent::Signature {
            gbc: block.gbc(),
            first: block.first(),
            count: hashes.len(),
        },
        exact: written.as_slice() == octets,
    })
}

/// What octets say that are those of this certificate block under this head, and whether they are as they are written.
fn of_certificate(
    alloc: Global,
    octets: &[u8],
    head: &Head,
    stamp: Option<Stamp>,
    block: &CertBlock,
) -> Result<SignedBlock, NoMemory>
    ensures value { IfOk result (λ d. d ≡ certificate_described octets.now head.now stamp block.now) }
    ensures written { IfOk result (λ d. d.exact ≡ true → IsWrittenCertificate octets.now d) }
{
    head.assure_in_range();
    assure_timestamp(&stamp);
    block.assure_in_range();
    let text = unsigned_cert(alloc, head, stamp, block)?;
    let header = block.header();
    Ok(SignedBlock {
        session: Session::of_head(alloc, head, header.rsid)?,
        alg: header.alg,
        group: header.group,
        content: SignedContent::Certificate {
            total: block.total(),
            index: block.index(),
            fragment: copy_of(alloc, block.fragment().as_slice())?,
        },
        exact: text.as_slice() == octets,
    })
}

/// What a message says that is the signed octets of a block.
fn describe(alloc: Global, message: &Message<'_>) -> Result<Option<SignedBlock>, NoMemory>
    requires { IsRead message.now }
    ensures value { IfOk result (λ o. o ≡ value_described message.now.source.now (value_of message.now)) }
    ensures written { IfOk result (λ o. IfSome o (λ d. d.exact ≡ true → IsWritten message.now.source.now d)) }
{
    let Some(place) = sign_place(message) else {
        return Ok(None);
    };
    let text = completed_text(alloc, message.source, place)?;
    let head = head_of(alloc, message)?;
    match classify(alloc, text.as_slice())? {
        Reading::Signature(block) => {
            let signed = of_signature(alloc, message.source, &head, message.stamp, &block)?;
            Ok(Some(signed))
        }
        Reading::Certificate(block) => {
            let signed = of_certificate(alloc, message.source, &head, message.stamp, &block)?;
            Ok(Some(signed))
        }
        Reading::Plain | Reading::Unparsed { .. } | Reading::Spoilt(_) => Ok(None),
    }
}

/// What the octets that a signature covers say of their block: what the message says that has SIGN at the end of the
/// first element named `ssign` or `ssign-cert`, and else these octets (RFC 5848, section 4.2.8). None unless they are a
/// message of RFC 5424, and a block once SIGN is there.
///
/// Errs only where memory runs out, which is taken for two parses, the block, what is written for it, and the answer.
#[tactic(auto, unfolding(crate::specs::Described::described))]
pub fn read_signed(alloc: Global, octets: &[u8]) -> Result<Option<SignedBlock>, NoMemory>
    ensures value { IfOk result (λ o. o ≡ described octets.now) }
    // Octets that are exact are written so for some head, stamp and block in their ranges. The law
    // `written_blocks_are_exact` is the converse.
    ensures written { IfOk result (λ o. IfSome o (λ d. d.exact ≡ true → IsWritten octets.now d)) }
{
    match parse(alloc, octets) {
        Ok(message) => describe(alloc, &message),
        Err(Fault::Bad { .. }) => Ok(None),
        Err(Fault::Memory) => Err(NoMemory),
    }
}
