//! What holds for every block message that is written.
ghost use Rattle.ss_block.specs.WritingLaws.{UnsignedTextsHaveNoSignature, SignaturesAreRead, CertificatesAreRead};

/// What is signed of a block is the same text whatever its signature is.
pub fn unsigned_texts_have_no_signature()
    ensures { UnsignedTextsHaveNoSignature }
{}

/// The message of a signature block is read as that block, in the header's session, and what is signed of it is the
/// message without SIGN.
pub fn signatures_are_read()
    ensures { SignaturesAreRead }
{}

/// The message of a certificate block is read as that block, in the header's session, and what is signed of it is the
/// message without SIGN.
pub fn certificates_are_read()
    ensures { CertificatesAreRead }
{}
