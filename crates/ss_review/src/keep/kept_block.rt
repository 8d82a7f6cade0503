//! A message with a block, as it is kept until a review begins.
ghost use Rattle.std.specs.Prelude.{◌≡◌, ◌≤◌, option_map, Some, IfOk};
ghost use Rattle.ss_block.specs.PlacedReading.{SpellsHashes, SpellsFragment, StandsBefore};
ghost use Rattle.ss_block.specs.SessionPlaces.{LieIn, session_at};
ghost use Rattle.ss_review.specs.keep.BlockMessage.{Hashes, Fragment};
ghost use Rattle.ss_review.specs.keep.Kept.{IsContent};
ghost use Rattle.ss_review.specs.keep.KeptBlock.{message_of, AreKept};
ghost use Rattle.ss_review.specs.keep.KeptFields.{AreFieldsOf};
ghost use Rattle.ss_review.specs.keep.Noted.{signed_kept};
ghost use Rattle.ss_review.specs.keep.Signatures.{gbc_of, signature_block_of};
ghost use Rattle.ss_review.specs.keep.Stated.{IsStated};
ghost use Rattle.ss_review.specs.sessions.Covering.{span_of};
ghost use Rattle.ss_review.specs.sessions.Payloads.{certificate_of};
ghost use Rattle.ss_review.specs.sessions.Verified.{signature_of};
ghost use Rattle.ss_review.specs.questions.Questions.{needed, parameters_of};
ghost use Rattle.ss_review.specs.questions.Shortened.{hash_count};
ghost use Rattle.ss_review.specs.pinned.Pinned.{is_signature};

use crate::keep::kept_content::KeptContent;
use crate::keep::kept_sender::{KeptSender, ShortSpan};
use crate::keep::packed::Packed;
use crate::questions::parameters::AskedParameters;
use crate::sessions::span::Span;
use ss_block::{CertBlock, Hashes, Meant, Session, SessionPlaces, SigBlock, meaning};
use ss_message::Span as Place;
use ss_octets::{Bytes, NoMemory};
use std::alloc::Global;
use std::marker::Model;

/// What a certificate block states of a payload.
#[derive(Drop)]
pub(crate) struct Stated<'a> {
    /// TPBL, 1 to 99,999,999: the octets of the whole payload.
    pub(crate) total: u32,
    /// INDEX, from 1: where the fragment begins in the payload.
    pub(crate) index: u32,
    /// FRAG: 1 to 9,999 octets.
    pub(crate) fragment: Meant<'a>,
}

/// What is kept of a message with a block.
#[derive(Drop)]
pub(crate) struct KeptFields {
    place: u32,
    pub(crate) sender: KeptSender,
    content: KeptContent,
    pub(crate) packed: Packed,
}

/// A message with a block. Its signed octets, with the hashes in octets, and its signature after them are kept once, in
/// one piece of memory. Its session and its fragment are read from the signed octets when they are needed, so no octet
/// is kept twice. Contracts see what the block says. A list of them has only where each stands.
#[derive(Drop)]
pub(crate) struct KeptBlock {
    fields: Box<KeptFields>,
}

impl Model for KeptBlock {
    ghost use Rattle.ss_review.specs.keep.BlockMessage.{BlockMessage};
    ghost use Rattle.ss_review.specs.keep.KeptBlock.{message_of, AreKept};

    ghost Value = { BlockMessage };

    ghost view = { λ b. message_of b.fields.value };

    ghost invariant = { λ b. AreKept b.fields.value };
}

/// The block with these fields.
fn block_with(alloc: Global, fields: KeptFields) -> Result<KeptBlock, NoMemory>
    requires { AreKept fields }
    ensures { IfOk result (λ b. b ≡ message_of fields) }
{
    match Box::new(alloc, fields) {
        Ok(fields) => Ok(KeptBlock { fields }),
        Err(_) => Err(NoMemory),
    }
}

impl KeptBlock {
    /// The message at this place whose signature block this is. HB stands at `text` in its signed octets, after the
    /// places of the sender.
    pub(crate) fn of_signature(
        alloc: Global,
        place: u32,
        sender: SessionPlaces,
        block: SigBlock,
        signed: Bytes,
        text: Place,
    ) -> Result<KeptBlock, NoMemory>
        requires sender { LieIn signed sender }
        requires text { SpellsHashes signed text block }
        requires before { StandsBefore (Some sender) (Some text) }
        requires rsid { sender.rsid ≡ block.rsid }
        ensures { IfOk result (λ b. b ≡ record {
          place = place;
          count = hash_count (Hashes block);
          session = session_at signed sender;
          said = Hashes block;
          signed = signed;
        }) }
    {
        block.assure_in_range();
        let hashes = block.hashes().as_slice();
        let signature = block.header().signature.as_slice();
        let alg = block.header().alg;
        let packed = Packed::of_signature(alloc, signed.as_slice(), text, alg, hashes, signature)?;
        let content = KeptContent::Hashes {
            group: block.header().group,
            gbc: block.gbc(),
            first: block.first(),
            held: packed.count,
        };
        block_with(
            alloc,
            KeptFields {
                place,
                sender: KeptSender::of(sender),
                content,
                packed,
            },
        )
    }

    /// The message at this place whose certificate block this is. FRAG stands at `text` in its signed octets.
    pub(crate) fn of_certificate(
        alloc: Global,
        place: u32,
        sender: SessionPlaces,
        block: CertBlock,
        signed: Bytes,
        text: Place,
    ) -> Result<KeptBlock, NoMemory>
        requires sender { LieIn signed sender }
        requires text { SpellsFragment signed text block }
        requires rsid { sender.rsid ≡ block.rsid }
        ensures { IfOk result (λ b. b ≡ record {
          place = place;
          count = 0;
          session = session_at signed sender;
          said = Fragment block;
          signed = signed;
        }) }
    {
        block.assure_in_range();
        let signature = block.header().signature.as_slice();
        let packed = Packed::of_certificate(
            alloc,
            block.header().alg,
            signed.as_slice(),
            signature,
        )?;
        let content = KeptContent::Fragment {
            group: block.header().group,
            total: block.total(),
            index: block.index(),
            len: block.fragment().as_slice().len() as u32,
            text: ShortSpan::of(text),
        };
        block_with(
            alloc,
            KeptFields {
                place,
                sender: KeptSender::of(sender),
                content,
                packed,
            },
        )
    }

    /// Its place in the log, from 0.
    pub(crate) fn place(&self) -> u32
        ensures { result ≡ self.now.place }
    {
        self.fields.place
    }

    /// Who sent it, in memory of its own.
    pub(crate) fn session(&self, alloc: Global) -> Result<Session, NoMemory>
        ensures { IfOk result (λ s. s ≡ self.now.session) }
    {
        let places = self.fields.sender.places();
        places.session(alloc, self.fields.packed.front())
    }

    /// What is signed of it, in memory of its own.
    pub(crate) fn signed(&self, alloc: Global) -> Result<Bytes, NoMemory>
        ensures { IfOk result (λ b. b ≡ self.now.signed) }
    {
        self.fields.packed.signed(alloc)
    }

    /// How many octets are kept of what is signed of it.
    pub(crate) fn signed_kept(&self) -> usize
        ensures { result ≡ signed_kept self.now }
    {
        self.fields.packed.kept().len()
    }

    /// What is kept of it: its signature, what is signed of it, and where its session stands there.
    pub(crate) fn fields(&self) -> &KeptFields
        ensures { AreFieldsOf result.now self.now }
    {
        &self.fields
    }

    /// SIGN's octets.
    pub(crate) fn signature(&self) -> &[u8]
        ensures { result.now ≡ signature_of self.now.said }
    {
        self.fields.packed.signature()
    }

    /// The same message, in memory of its own.
    pub(crate) fn try_clone(&self, alloc: Global) -> Result<KeptBlock, NoMemory>
        ensures { IfOk result (λ b. b ≡ self.now) }
    {
        block_with(
            alloc,
            KeptFields {
                place: self.fields.place,
                sender: self.fields.sender,
                content: self.fields.content,
                packed: self.fields.packed.try_clone(alloc)?,
            },
        )
    }

    /// Assures contracts that what its block says is in its ranges. It does nothing else.
    pub(crate) fn assure_in_range(&self)
        ensures { IsContent self.now.said }
    {
        let _place = self.fields.place;
    }

    /// Whether it has a signature block.
    pub(crate) fn is_signature(&self) -> bool
        ensures { result ≡ is_signature self.now.said }
    {
        match self.fields.content {
            KeptContent::Hashes { .. } => true,
            KeptContent::Fragment { .. } => false,
        }
    }

    /// The GBC of its signature block, 0 to 9,999,999,999; none of a certificate block.
    pub(crate) fn gbc(&self) -> Option<u64>
        ensures { result ≡ gbc_of self.now.said }
    {
        match self.fields.content {
            KeptContent::Hashes { gbc, .. } => Some(gbc),
            KeptContent::Fragment { .. } => None,
        }
    }

    /// The indexes of the fragment of its certificate block; none of a signature block.
    pub(crate) fn span(&self) -> Option<Span>
        ensures { result ≡ option_map span_of (certificate_of self.now.said) }
    {
        match self.fields.content {
            KeptContent::Hashes { .. } => None,
            KeptContent::Fragment { index, len, .. } => {
                let start = u64::from(index);
                Some(Span {
                    start,
                    end: start + u64::from(len),
                })
            }
        }
    }

    /// What its block says about itself.
    pub(crate) fn parameters(&self) -> AskedParameters
        ensures { result ≡ parameters_of self.now.count self.now.said }
    {
        let alg = self.fields.packed.alg;
        match self.fields.content {
            KeptContent::Hashes {
                group,
                gbc,
                first,
                ..
            } => AskedParameters::Signature {
                alg,
                group,
                gbc,
                first,
                count: self.fields.packed.count,
            },
            KeptContent::Fragment {
                group,
                total,
                index,
                len,
                ..
            } => AskedParameters::Certificate {
                alg,
                group,
                total,
                index,
                length: len,
            },
        }
    }

    /// TPBL of its certificate block, 1 to 99,999,999; none of a signature block.
    pub(crate) fn total(&self) -> Option<u32>
        ensures { result ≡ option_map (λ c. c.total) (certificate_of self.now.said) }
    {
        match self.fields.content {
            KeptContent::Hashes { .. } => None,
            KeptContent::Fragment { total, .. } => Some(total),
        }
    }

    /// What its certificate block states of a payload; none of a signature block. It takes memory only where FRAG has
    /// a `\`.
    pub(crate) fn stated(&self, alloc: Global) -> Result<Option<Stated<'_>>, NoMemory>
        ensures { IfOk result (λ o. IsStated o (certificate_of self.now.said)) }
    {
        match self.fields.content {
            KeptContent::Hashes { .. } => Ok(None),
            KeptContent::Fragment {
                total,
                index,
                text,
                ..
            } => Ok(Some(Stated {
                total,
                index,
                fragment: meaning(alloc, text.span().of(self.fields.packed.kept()))?,
            })),
        }
    }

    /// Its signature block; none if it has a certificate block. What else is kept of it is let go.
    pub(crate) fn into_signature_block(self, alloc: Global) -> Result<Option<SigBlock>, NoMemory>
        ensures { IfOk result (λ o. o ≡ signature_block_of self.said) }
    {
        let fields = Box::into_inner(self.fields);
        match fields.content {
            KeptContent::Hashes {
                group,
                gbc,
                first,
                held,
            } => {
                let hashes = fields.packed.hashes(alloc, held)?;
                let alg = fields.packed.alg;
                let rsid = fields.sender.rsid();
                let signature = Bytes::from_vec(Vec::from_slice(alloc, fields.packed.signature())?);
                Ok(SigBlock::new(alg, rsid, group, gbc, first, hashes, signature))
            }
            KeptContent::Fragment { .. } => Ok(None),
        }
    }

    /// The same message with the first of its hashes alone.
    pub(crate) fn with_one_hash(mut self) -> KeptBlock
        ensures same { needed result ≡ needed self }
        ensures few { hash_count result.said ≤ 1 }
    {
        let fields = &mut *self.fields;
        match fields.content {
            KeptContent::Hashes {
                group,
                gbc,
                first,
                ..
            } => {
                fields.content = KeptContent::Hashes {
                    group,
                    gbc,
                    first,
                    held: 1,
                };
                self
            }
            KeptContent::Fragment { .. } => self,
        }
    }
}
