//! What holds of all payload blocks.
ghost use Rattle.ss_payload.specs.PayloadLaws.{TextsAreAscii, TextsAreRead, TextsHaveOctets};

/// The text of a payload block is ASCII.
pub fn texts_are_ascii()
    ensures { TextsAreAscii }
{}

/// The text of a payload block has three octets at least.
pub fn texts_have_octets()
    ensures { TextsHaveOctets }
{}

/// The text of a payload is read as the payload.
pub fn texts_are_read()
    ensures { TextsAreRead }
{}
