//! What a reviewer keeps of messages, and how many of them it takes.
use crate::book::Yes;
use crate::texts::{Text, octets_of, signed_of};
use ss_review::{ReviewFault, Reviewer};
use std::alloc::{AllocError, Global};
use std::process::Abort;
use std::test::Fail;

/// The lengths of messages, and of what is signed of them.
const LENGTHS: [(Text, usize, Option<usize>); 17] = [
    (Text::Short, 3, None),
    (Text::Long, 56, None),
    (Text::Certificate, 142, Some(130)),
    (Text::Both, 159, Some(147)),
    (Text::Front, 135, Some(123)),
    (Text::Back, 126, Some(114)),
    (Text::OtherPayload, 142, Some(130)),
    (Text::SecondSession, 142, Some(130)),
    (Text::NoPayload, 114, Some(102)),
    (Text::ShortTwice, 159, Some(147)),
    (Text::ShortAlone, 130, Some(118)),
    (Text::LongAlone, 130, Some(118)),
    (Text::ShortAtLastNumber, 139, Some(127)),
    (Text::PastLastNumber, 168, None),
    (Text::ShortBySha256, 146, Some(134)),
    (Text::ShortOfSecondSession, 130, Some(118)),
    (Text::ShortBesideOthers, 177, Some(165)),
];

fn signed_length(alloc: Global, text: Text) -> Result<usize, AllocError> {
    Ok(signed_of(alloc, text)?.len())
}

/// The message has that length, and what is signed of it that one.
fn sees_lengths(
    rt: &(impl Abort + AllocGlobal),
    text: Text,
    length: usize,
    signed: Option<usize>,
) -> Result<(), AllocError> {
    assert_eq!(rt; octets_of(text).len(), length, "{text:?}");
    if let Some(signed) = signed {
        assert_eq!(rt; signed_length(rt.alloc(), text)?, signed, "{text:?}");
    }
    Ok(())
}

/// Messages that a reviewer is fed in turn, and how many octets it keeps then: 52 of one without a block, and the 130
/// signed octets and 3 octets of a signature of each certificate block. Of a signature block it keeps the 3 octets, and
/// the signed octets with a hash in 20 octets in place of 28 (SHA-1), or 32 in place of 44, and no SP between two.
const KEPT: [(Text, u128); 9] = [
    (Text::Short, 52),
    (Text::Short, 52),
    (Text::Certificate, 185),
    (Text::PastLastNumber, 185),
    (Text::Long, 237),
    (Text::Certificate, 370),
    (Text::ShortAlone, 370 + 118 - 8 + 3),
    (Text::Both, 483 + 147 - 17 + 3),
    (Text::ShortBySha256, 616 + 134 - 12 + 3),
];

fn sees_kept(rt: &(impl Abort + AllocGlobal)) -> Result<(), ReviewFault> {
    let mut reviewer = Reviewer::new(rt.alloc(), 16);
    assert_eq!(rt; reviewer.kept(), 0);
    for (text, kept) in &KEPT {
        reviewer.feed(octets_of(*text))?;
        assert_eq!(rt; reviewer.kept(), *kept, "{text:?}");
    }
    Ok(())
}

/// Whether the report of the reviewer has one message alone, which no number lists.
fn reports_one(reviewer: &Reviewer) -> Result<bool, ReviewFault> {
    let report = reviewer.finish(&Yes)?;
    let is_alone = report.count == 1 && report.sessions.as_slice().is_empty();
    Ok(is_alone && matches!(report.unlisted.as_slice(), [0]))
}

/// A reviewer that takes one message refuses the next one, and reports the first.
fn sees_limit(rt: &(impl Abort + AllocGlobal)) -> Result<(), ReviewFault> {
    let mut reviewer = Reviewer::new(rt.alloc(), 1);
    reviewer.feed(b"abc")?;
    assert_eq!(rt; reviewer.feed(b"abc"), Err(ReviewFault::TooManyMessages));
    assert!(rt; reports_one(&reviewer)?);
    assert!(rt; reviewer.questions()?.as_slice().is_empty());
    Ok(())
}

#[test]
fn keeping(rt: HostRuntime) -> Result<(), Fail> {
    for (text, length, signed) in &LENGTHS {
        sees_lengths(&rt, *text, *length, *signed)?;
    }
    sees_kept(&rt)?;
    sees_limit(&rt)?;
    Ok(())
}
