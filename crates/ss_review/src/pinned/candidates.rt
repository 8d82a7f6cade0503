//! Given payloads of which only an answer can tell whether they claim a session.
ghost use Rattle.std.specs.Prelude.{◌≡◌, map, filter, IfOk};
ghost use Rattle.ss_review.specs.sessions.Payloads.{certificates, stated_payload};
ghost use Rattle.ss_review.specs.sessions.Sectioned.{referred};
ghost use Rattle.ss_review.specs.pinned.Pinned.{is_candidate, is_stated};

use crate::keep::block_message::BlockMessage;
use crate::pinned::agreeing::may_claim;
use crate::report::session_report::SessionState;
use ss_octets::{Bytes, NoMemory};
use std::alloc::Global;

/// Whether the payload is the one that is stated.
fn is_stated(payload: &[u8], stated: &Result<Bytes, SessionState>) -> bool
    ensures { result ≡ is_stated payload.now stated.now }
{
    match stated {
        Ok(text) => *text.as_slice() == *payload,
        Err(_) => false,
    }
}

/// Whether only an answer can tell if the payload claims the session of these blocks, and it isn't asked for anyway.
fn is_candidate(
    alloc: Global,
    payload: &[u8],
    stated: &Result<Bytes, SessionState>,
    blocks: &[&BlockMessage],
) -> Result<bool, NoMemory>
    ensures { stated.now ≡ stated_payload (certificates (referred blocks.now))
        → IfOk result (λ b. b ≡ is_candidate (referred blocks.now) payload.now) }
{
    if is_stated(payload, stated) {
        Ok(false)
    } else {
        may_claim(alloc, payload, blocks)
    }
}

/// Those of the payloads of which only an answer can tell, beside the one that is stated, whether they claim the
/// session of these blocks.
pub(crate) fn candidates<'a>(
    alloc: Global,
    payloads: &'a [Bytes],
    stated: &Result<Bytes, SessionState>,
    blocks: &[&BlockMessage],
) -> Result<Vec<&'a Bytes>, NoMemory>
    ensures { stated.now ≡ stated_payload (certificates (referred blocks.now))
        → IfOk result (λ v. map (λ p. p.now) v.items ≡ filter (is_candidate (referred blocks.now)) payloads.now) }
{
    let mut candidates = Vec::new(alloc);
    for payload in payloads {
        if is_candidate(alloc, payload.as_slice(), stated, blocks)? {
            candidates.push(payload)?;
        }
    }
    Ok(candidates)
}
