//! The review of a log by a reviewer that isn't needed any more, with the signature blocks that the log has.
ghost use Rattle.std.specs.Prelude.{◌≡◌, ℕ, List, IfOk, IfErr};
ghost use Rattle.ss_review.specs.declared.fault.ReviewFault.TheVariants.{Memory};
ghost use Rattle.ss_review.specs.keep.Notes.{Note, notes};
ghost use Rattle.ss_review.specs.keep.Contents.{blocks, contents};
ghost use Rattle.ss_review.specs.sessions.Verified.{answers};
ghost use Rattle.ss_review.specs.report.Report.{report_of};
ghost use Rattle.ss_review.specs.counted.Counted.{counted_sessions};
ghost use Rattle.ss_review.specs.Laws.{ListsWhatIsAnnounced};
ghost use Rattle.ss_review.specs.questions.Questions.{questions, AreAskable};
ghost use Rattle.ss_review.specs.keep.Keeping.{Keeps, kept_blocks};

use crate::counted::counted_report::CountedReport;
use crate::counted::reviewing::review_counted;
use crate::fault::ReviewFault;
use crate::keep::block_message::messages_of;
use crate::keep::review_input::ReviewInput;
use crate::keep::reviewer::Reviewer;
use crate::laws::reports::reports_list_what_is_announced;
use crate::sessions::verifier::Judge;

impl Reviewer {
    /// The report of `conclude_with`, and the GBC of the verified signature blocks of each session, which show what
    /// blocks are missing (RFC 5848, section 4.2.4). `Memory` if it runs out of memory.
    pub fn conclude_counted<J: Judge + Drop>(self, judge: J) -> Result<CountedReport, ReviewFault>
        requires sound { J.sound judge }
        requires askable { AreAskable J.askable judge (questions (kept_blocks self)) }
        ensures report { (ns : List Note)
            → Keeps self ns
            → IfOk result (λ r. r.report ≡ report_of (answers J.trusted J.valid judge) (contents ns)) }
        ensures counted { (ns : List Note)
            → Keeps self ns
            → IfOk result (λ r. r.counted ≡ counted_sessions (answers J.trusted J.valid judge) (blocks ns)) }
        ensures listed { (log : List (List ℕ))
            → Keeps self (notes log)
            → IfOk result (λ r. ListsWhatIsAnnounced (answers J.trusted J.valid judge) log r.report) }
        ensures fault { IfErr result (λ f. f ≡ Memory) }
    {
        reports_list_what_is_announced();
        let blocks = messages_of(self.alloc, self.blocks)?;
        let held = ReviewInput {
            index: self.normal,
            blocks,
            spoilt: self.spoilt.as_slice(),
            count: self.count,
        };
        Ok(review_counted(self.alloc, judge, held)?)
    }
}
