//! What a review asks before it goes on.
ghost use Rattle.std.specs.Prelude.{◌≡◌, List, IfOk, IfErr, option_map};
ghost use Rattle.ss_review.specs.declared.fault.ReviewFault.TheVariants.{Memory};
ghost use Rattle.ss_review.specs.keep.Notes.{Note};
ghost use Rattle.ss_review.specs.keep.Contents.{blocks};
ghost use Rattle.ss_review.specs.keep.Keeping.{Keeps};
ghost use Rattle.ss_review.specs.questions.Questions.{questions_shared};
ghost use Rattle.ss_review.specs.pinned.Pinned.{questions_by, sessions_by};

use crate::fault::ReviewFault;
use crate::keep::block_message::copied_messages;
use crate::keep::reviewer::Reviewer;
use crate::questions::asked::AskedSessions;
use crate::questions::asking::sessions_by;
use ss_octets::Bytes;

impl Reviewer {
    /// What `Questioner::ask_by` gives for the same messages, session by session: all that `conclude_by` asks its judge
    /// by these payloads. So one reading of a log gives the questions, and the report by their answers. `Memory` if it
    /// runs out of memory. It can be called again, and messages can be fed after it. The blocks are copied, and the
    /// copies are let go before it answers.
    pub fn ask_by(&self, known: Option<&[Bytes]>) -> Result<AskedSessions, ReviewFault>
        ensures sessions { (ns : List Note)
            → Keeps self.now ns
            → IfOk result (λ ss. ss ≡ sessions_by (option_map (λ ps. ps.now) known.entry) (blocks ns)) }
        ensures asked { (ns : List Note)
            → Keeps self.now ns
            → IfOk result (λ ss. questions_shared ss
            ≡ questions_by (option_map (λ ps. ps.now) known.entry) (blocks ns)) }
        ensures fault { IfErr result (λ f. f ≡ Memory) }
    {
        let blocks = copied_messages(self.alloc, self.blocks.as_slice())?;
        Ok(sessions_by(self.alloc, known, blocks.as_slice())?)
    }
}
