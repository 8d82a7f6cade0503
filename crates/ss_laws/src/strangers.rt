//! What a review by given payloads reports of a log to which strangers added messages. A stranger holds no key of a
//! trusted payload, and no blocks of another log that are valid under one.
//!
//! Blocks of an earlier night can add numbers, which may be lost. Those of an older session can take messages that both
//! announce. No law accounts for each place by given payloads. Neither proved nor tested is that nobody but the
//! originators has their key, and that a given payload is theirs.
ghost use Rattle.ss_laws.specs.strangers.AddedMessages.{AddedAnywhere};
ghost use Rattle.ss_laws.specs.strangers.Strangers.{StrangersAddNothing, StrangersTakeNothing};

pub mod cases;
pub mod reports;
pub mod states;
pub mod unforged;

/// A log to which strangers added messages, each of them anywhere, has what it had, and more. They may add copies of its
/// messages, messages without a block, spoilt ones, and blocks that are valid under no trusted payload.
pub fn added_anywhere()
    ensures { AddedAnywhere }
{}

/// Of each session that a given payload claims, the same is reported as without the added messages: its state and
/// payload, its announced and disputed numbers, its holes, and what is missing up to any counters. What was listed is
/// listed still, with a message that has the same two hashes. The premise is that of two messages with one announced
/// hash both hashes are equal.
pub fn strangers_take_nothing()
    ensures { StrangersTakeNothing }
{}

/// A number whose message was missing is listed only where a message was added with the hashes of the one that is
/// listed. The premises are that on messages, and that some given payload claims each session that is joined.
pub fn strangers_add_nothing()
    ensures { StrangersAddNothing }
{}
