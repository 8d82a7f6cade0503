//! A message with a block in a review.
ghost use Rattle.std.specs.Prelude.{◌≡◌, option_map, IfOk};
ghost use Rattle.ss_review.specs.keep.Kept.{IsContent};
ghost use Rattle.ss_review.specs.keep.KeptFields.{AreFieldsOf};
ghost use Rattle.ss_review.specs.keep.Signatures.{gbc_of, signature_block_of};
ghost use Rattle.ss_review.specs.keep.Stated.{IsStated};
ghost use Rattle.ss_review.specs.sessions.Covering.{span_of};
ghost use Rattle.ss_review.specs.sessions.Payloads.{certificate_of};
ghost use Rattle.ss_review.specs.sessions.Verified.{signature_of};
ghost use Rattle.ss_review.specs.questions.Questions.{parameters_of};
ghost use Rattle.ss_review.specs.pinned.Pinned.{is_signature};

use crate::keep::kept_block::{KeptBlock, KeptFields, Stated};
use crate::questions::parameters::AskedParameters;
use crate::sessions::span::Span;
use ss_block::{Session, SigBlock};
use ss_octets::{Bytes, NoMemory};
use std::alloc::Global;
use std::marker::Model;
use std::rc::Rc;

/// A message with a block, beside its session, which messages may share. Contracts see what the block says.
#[derive(Drop)]
pub struct BlockMessage {
    session: Rc<Session>,
    kept: KeptBlock,
}

impl Model for BlockMessage {
    ghost use Rattle.std.specs.Prelude.{◌≡◌};
    ghost use Rattle.ss_review.specs.keep.BlockMessage.{BlockMessage};

    ghost Value = { BlockMessage };

    ghost view = { λ b. b.kept };

    ghost invariant = { λ b. b.session.value ≡ b.kept.session };
}

/// The session of the kept block. If that of the message before is the same, it is shared.
fn session_beside(
    alloc: Global,
    kept: &KeptBlock,
    before: Option<&BlockMessage>,
) -> Result<Rc<Session>, NoMemory>
    ensures { IfOk result (λ s. s.value ≡ kept.now.session) }
{
    let session = kept.session(alloc)?;
    if let Some(before) = before {
        if session == *before.session() {
            return Ok(before.session.clone()?);
        }
    }
    match Rc::new(alloc, session) {
        Ok(session) => Ok(session),
        Err(_) => Err(NoMemory),
    }
}

impl BlockMessage {
    /// The kept block with its session. It shares that of the message before, if it is the same one.
    pub(crate) fn new(
        alloc: Global,
        kept: KeptBlock,
        before: Option<&BlockMessage>,
    ) -> Result<BlockMessage, NoMemory>
        ensures { IfOk result (λ b. b ≡ kept) }
    {
        let session = session_beside(alloc, &kept, before)?;
        Ok(BlockMessage { session, kept })
    }

    /// Its place in the log, from 0.
    pub(crate) fn place(&self) -> u32
        ensures { result ≡ self.now.place }
    {
        self.kept.place()
    }

    /// Who sent it.
    pub(crate) fn session(&self) -> &Session
        ensures { result.now ≡ self.now.session }
    {
        self.session.as_ref()
    }

    /// What is signed of it, in memory of its own.
    pub(crate) fn signed(&self, alloc: Global) -> Result<Bytes, NoMemory>
        ensures { IfOk result (λ b. b ≡ self.now.signed) }
    {
        self.kept.signed(alloc)
    }

    /// What is kept of it: its signature, what is signed of it, and where its session stands there.
    pub(crate) fn fields(&self) -> &KeptFields
        ensures { AreFieldsOf result.now self.now }
    {
        self.kept.fields()
    }

    /// SIGN's octets.
    pub(crate) fn signature(&self) -> &[u8]
        ensures { result.now ≡ signature_of self.now.said }
    {
        self.kept.signature()
    }

    /// Assures contracts that what its block says is in its ranges. It does nothing else.
    pub(crate) fn assure_in_range(&self)
        ensures { IsContent self.now.said }
    {
        self.kept.assure_in_range();
    }

    /// Whether it has a signature block.
    pub(crate) fn is_signature(&self) -> bool
        ensures { result ≡ is_signature self.now.said }
    {
        self.kept.is_signature()
    }

    /// The GBC of its signature block, 0 to 9,999,999,999; none of a certificate block.
    pub(crate) fn gbc(&self) -> Option<u64>
        ensures { result ≡ gbc_of self.now.said }
    {
        self.kept.gbc()
    }

    /// The indexes of the fragment of its certificate block; none of a signature block.
    pub(crate) fn span(&self) -> Option<Span>
        ensures { result ≡ option_map span_of (certificate_of self.now.said) }
    {
        self.kept.span()
    }

    /// What its block says about itself.
    pub(crate) fn parameters(&self) -> AskedParameters
        ensures { result ≡ parameters_of self.now.count self.now.said }
    {
        self.kept.parameters()
    }

    /// TPBL of its certificate block, 1 to 99,999,999; none of a signature block.
    pub(crate) fn total(&self) -> Option<u32>
        ensures { result ≡ option_map (λ c. c.total) (certificate_of self.now.said) }
    {
        self.kept.total()
    }

    /// What its certificate block states of a payload; none of a signature block. It takes memory only where FRAG has
    /// a `\`.
    pub(crate) fn stated(&self, alloc: Global) -> Result<Option<Stated<'_>>, NoMemory>
        ensures { IfOk result (λ o. IsStated o (certificate_of self.now.said)) }
    {
        self.kept.stated(alloc)
    }

    /// Its signature block; none if it has a certificate block. What else is kept of it is let go.
    pub(crate) fn into_signature_block(self, alloc: Global) -> Result<Option<SigBlock>, NoMemory>
        ensures { IfOk result (λ o. o ≡ signature_block_of self.said) }
    {
        let kept = self.kept;
        kept.into_signature_block(alloc)
    }
}

/// The kept blocks with their sessions. Those of one session that stand one after the other share it.
pub(crate) fn messages_of(
    alloc: Global,
    blocks: Vec<KeptBlock>,
) -> Result<Vec<BlockMessage>, NoMemory>
    ensures { IfOk result (λ v. v.items ≡ blocks.items) }
{
    let mut messages: Vec<BlockMessage> = Vec::with_capacity(alloc, blocks.len())?;
    for kept in blocks {
        let message = BlockMessage::new(alloc, kept, messages.as_slice().last())?;
        messages.push(message)?;
    }
    Ok(messages)
}

/// The same for blocks that stay as they are: the messages are copies.
pub(crate) fn copied_messages(
    alloc: Global,
    blocks: &[KeptBlock],
) -> Result<Vec<BlockMessage>, NoMemory>
    ensures { IfOk result (λ v. v.items ≡ blocks.now) }
{
    let mut messages: Vec<BlockMessage> = Vec::with_capacity(alloc, blocks.len())?;
    for kept in blocks {
        let copy = kept.try_clone(alloc)?;
        let message = BlockMessage::new(alloc, copy, messages.as_slice().last())?;
        messages.push(message)?;
    }
    Ok(messages)
}
