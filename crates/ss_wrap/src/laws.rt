//! What holds of every wrap: each law is a call that does nothing, and its clause is the law.
ghost use Rattle.ss_wrap.specs.Laws.{WrapsAreMessages, WrapsArePlain, OriginalsComeBack, WrapsDiffer, WrapsAreWrapped};
ghost use Rattle.ss_wrap.specs.Laws.{PreparedArePlain, PreparedComeBack, PreparedDiffer};

/// What a wrap says is a message of RFC 5424, so the wrap spells this message alone.
pub fn wraps_are_messages()
    ensures { WrapsAreMessages }
{}

/// A wrap is a message without a block element, so an originator can sign it.
pub fn wraps_are_plain()
    ensures { WrapsArePlain }
{}

/// A wrap gives back its octets.
pub fn originals_come_back()
    ensures { OriginalsComeBack }
{}

/// Wraps of different octets differ.
pub fn wraps_differ()
    ensures { WrapsDiffer }
{}

/// A wrap that stands in a log is signed in a wrap, so it isn't taken for the message that is in it.
pub fn wraps_are_wrapped()
    ensures { WrapsAreWrapped }
{}

/// What is signed for a message, whatever its octets are, is a message without a block element.
pub fn prepared_are_plain()
    ensures { PreparedArePlain }
{}

/// What is signed for a message gives back the message.
pub fn prepared_come_back()
    ensures { PreparedComeBack }
{}

/// If the same text is signed for two messages, they are one.
pub fn prepared_differ()
    ensures { PreparedDiffer }
{}
