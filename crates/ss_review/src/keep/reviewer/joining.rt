//! The review of a log whose sessions are joined by payloads that are known beforehand (RFC 5848, section 5.3), if some
//! are given.
ghost use Rattle.std.specs.Prelude.{◌≡◌, List, IfOk, IfErr, option_map};
ghost use Rattle.ss_review.specs.declared.fault.ReviewFault.TheVariants.{Memory};
ghost use Rattle.ss_review.specs.keep.Notes.{Note};
ghost use Rattle.ss_review.specs.keep.Contents.{blocks, contents};
ghost use Rattle.ss_review.specs.sessions.Verified.{answers};
ghost use Rattle.ss_review.specs.questions.Questions.{AreAskable};
ghost use Rattle.ss_review.specs.keep.Keeping.{Keeps, kept_blocks};
ghost use Rattle.ss_review.specs.pinned.Pinned.{counted_by, pinned_counted, pinned_questions, pinned_report};
ghost use Rattle.ss_review.specs.pinned.Pinned.{questions_by, report_by};
ghost use Rattle.ss_review.specs.pinned.Claimants.{AreWithin};

use crate::counted::counted_report::CountedReport;
use crate::counted::reviewing::review_counted;
use crate::fault::ReviewFault;
use crate::keep::block_message::{BlockMessage, messages_of};
use crate::keep::review_input::ReviewInput;
use crate::keep::reviewer::Reviewer;
use crate::pinned::keeping::kept_blocks;
use crate::pinned::refusing::with_left_out;
use crate::report::report::Report;
use crate::review::review;
use crate::sessions::verifier::Judge;
use ss_octets::{Bytes, NoMemory};

/// Assures contracts that the fragments of these blocks lie within their payloads. It does nothing else.
fn assure_within(blocks: &[BlockMessage])
    ensures { AreWithin blocks.now }
{
    for block in blocks {
        block.assure_in_range();
    }
}

impl Reviewer {
    /// Makes the report on the messages that it was fed, by the answers of `judge`, as `conclude_with` does. Where
    /// payloads are known beforehand, a session that one of them claims is joined by it: the payload is trusted, and
    /// certificate blocks that say the same and are valid under it cover it. Other certificate blocks of such a session
    /// are refused, and change nothing else. It is disputed where two payloads claim it. `Memory` if it runs out of
    /// memory.
    pub fn conclude_by<J: Judge + Drop>(
        self,
        judge: J,
        known: Option<&[Bytes]>,
    ) -> Result<Report, ReviewFault>
        requires sound { J.sound judge }
        requires askable { AreAskable J.askable judge (questions_by (option_map (λ ps. ps.now) known) (kept_blocks self)) }
        ensures report { (ns : List Note)
            → Keeps self ns
            → IfOk result (λ r. r ≡ report_by (option_map (λ ps. ps.now) known.entry)
            (answers J.trusted J.valid judge) (contents ns)) }
        ensures fault { IfErr result (λ f. f ≡ Memory) }
    {
        match known {
            None => self.conclude_with(judge),
            Some(payloads) => Ok(self.pinned_report(judge, payloads)?),
        }
    }

    /// The report of `conclude_by`, and the GBC of the verified signature blocks of each session, as `conclude_counted`
    /// has them. `Memory` if it runs out of memory.
    pub fn conclude_counted_by<J: Judge + Drop>(
        self,
        judge: J,
        known: Option<&[Bytes]>,
    ) -> Result<CountedReport, ReviewFault>
        requires sound { J.sound judge }
        requires askable { AreAskable J.askable judge (questions_by (option_map (λ ps. ps.now) known) (kept_blocks self)) }
        ensures report { (ns : List Note)
            → Keeps self ns
            → IfOk result (λ r. r.report ≡ report_by (option_map (λ ps. ps.now) known.entry)
            (answers J.trusted J.valid judge) (contents ns)) }
        ensures counted { (ns : List Note)
            → Keeps self ns
            → IfOk result (λ r. r.counted ≡ counted_by (option_map (λ ps. ps.now) known.entry)
            (answers J.trusted J.valid judge) (blocks ns)) }
        ensures fault { IfErr result (λ f. f ≡ Memory) }
    {
        match known {
            None => self.conclude_counted(judge),
            Some(payloads) => Ok(self.pinned_counted(judge, payloads)?),
        }
    }

    /// The report where these payloads are known.
    fn pinned_report<J: Judge + Drop>(
        self,
        judge: J,
        payloads: &[Bytes],
    ) -> Result<Report, NoMemory>
        requires sound { J.sound judge }
        requires askable { AreAskable J.askable judge (pinned_questions payloads.now (kept_blocks self)) }
        ensures { (ns : List Note)
            → Keeps self ns
            → IfOk result (λ r. r ≡ pinned_report (answers J.trusted J.valid judge) payloads.now (contents ns)) }
    {
        let blocks = messages_of(self.alloc, self.blocks)?;
        assure_within(blocks.as_slice());
        let found = kept_blocks(self.alloc, &judge, payloads, blocks)?;
        let held = ReviewInput {
            index: self.normal,
            blocks: found.kept,
            spoilt: self.spoilt.as_slice(),
            count: self.count,
        };
        let report = review(self.alloc, judge, held)?;
        with_left_out(report, found.left_out)
    }

    /// The report and the GBC where these payloads are known.
    fn pinned_counted<J: Judge + Drop>(
        self,
        judge: J,
        payloads: &[Bytes],
    ) -> Result<CountedReport, NoMemory>
        requires sound { J.sound judge }
        requires askable { AreAskable J.askable judge (pinned_questions payloads.now (kept_blocks self)) }
        ensures report { (ns : List Note)
            → Keeps self ns
            → IfOk result (λ r. r.report
            ≡ pinned_report (answers J.trusted J.valid judge) payloads.now (contents ns)) }
        ensures counted { (ns : List Note)
            → Keeps self ns
            → IfOk result (λ r. r.counted
            ≡ pinned_counted (answers J.trusted J.valid judge) payloads.now (blocks ns)) }
    {
        let blocks = messages_of(self.alloc, self.blocks)?;
        assure_within(blocks.as_slice());
        let found = kept_blocks(self.alloc, &judge, payloads, blocks)?;
        let held = ReviewInput {
            index: self.normal,
            blocks: found.kept,
            spoilt: self.spoilt.as_slice(),
            count: self.count,
        };
        let counted = review_counted(self.alloc, judge, held)?;
        let report = with_left_out(counted.report, found.left_out)?;
        Ok(CountedReport {
            report,
            counted: counted.counted,
        })
    }
}
