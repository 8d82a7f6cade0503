//! Heads, the messages of blocks, and what is signed of them.
use crate::blocks::fields::{A, A2, B, CertificateFields, Fields, SignatureFields, bytes};
use ss_block::{
    Alg, CertBlock, Group, Hash, Head, SigBlock, unsigned_cert, unsigned_sig, write_cert, write_sig,
};
use ss_message::{Field, Stamp};
use ss_octets::{Bytes, NoMemory};
use std::alloc::{AllocError, Global};
use test_devices::Cells;

/// A signature block's message, and what is signed of it.
const SIGNATURE: &[u8] =
    b"<110>1 - h s - - [ssign VER=\"0111\" RSID=\"1\" SG=\"0\" SPRI=\"0\" GBC=\"0\" FMN=\"1\" CNT=\"2\" \
        HB=\"qZk+NkcGgWq6PiVxeFDCbJzQ2J0= hJg+RBw70m66rkqh+VEp5eVGcPE=\" SIGN=\"AAAA\"]";

const SIGNATURE_SIGNED: &[u8] =
    b"<110>1 - h s - - [ssign VER=\"0111\" RSID=\"1\" SG=\"0\" SPRI=\"0\" GBC=\"0\" FMN=\"1\" CNT=\"2\" \
        HB=\"qZk+NkcGgWq6PiVxeFDCbJzQ2J0= hJg+RBw70m66rkqh+VEp5eVGcPE=\"]";

/// A certificate block's message, and what is signed of it.
const CERTIFICATE: &[u8] =
    b"<110>1 - h s - - [ssign-cert VER=\"0111\" RSID=\"1\" SG=\"0\" SPRI=\"0\" TPBL=\"27\" INDEX=\"1\" FLEN=\"27\" \
        FRAG=\"2009-05-03T14:00:39Z K S0VZ\" SIGN=\"AAAA\"]";

const CERTIFICATE_SIGNED: &[u8] =
    b"<110>1 - h s - - [ssign-cert VER=\"0111\" RSID=\"1\" SG=\"0\" SPRI=\"0\" TPBL=\"27\" INDEX=\"1\" FLEN=\"27\" \
        FRAG=\"2009-05-03T14:00:39Z K S0VZ\"]";

/// What is signed of the signature block with a stamp and a MSGID.
const STAMPED: &[u8] =
    b"<110>1 2009-05-03T14:00:39Z h s - m [ssign VER=\"0111\" RSID=\"1\" SG=\"0\" SPRI=\"0\" GBC=\"0\" FMN=\"1\" \
        CNT=\"2\" HB=\"qZk+NkcGgWq6PiVxeFDCbJzQ2J0= hJg+RBw70m66rkqh+VEp5eVGcPE=\"]";

/// A signature block with one hash of SHA-256, and all numbers at their ends.
const LAST_NUMBERS: &[u8] =
    b"<0>1 - - - - - [ssign VER=\"0121\" RSID=\"9999999999\" SG=\"3\" SPRI=\"191\" GBC=\"9999999999\" \
        FMN=\"9999999999\" CNT=\"1\" HB=\"ungWv48Bz+pBQUDeXa4iI7ADYaOWF3qctBD/YfIAFa0=\"]";

/// What is signed of a certificate block whose fragment has octets to be escaped.
const ESCAPED: &[u8] =
    b"<110>1 - h s - - [ssign-cert VER=\"0121\" RSID=\"0\" SG=\"1\" SPRI=\"110\" TPBL=\"9\" INDEX=\"3\" FLEN=\"5\" \
        FRAG=\"a\\\"\\\\\\]b\"]";

/// PRI, and the cells of HOSTNAME, APP-NAME, PROCID and MSGID, which are absent where they have no octet.
type HeadFields = (u8, &'static [u8]);

/// PRI 110, HOSTNAME `h` and APP-NAME `s`.
const HEAD: HeadFields = (110, b"h|s||");

/// The block of two hashes.
const TWO_HASHES: SignatureFields = SignatureFields {
    alg: Alg::Sha1,
    rsid: 1,
    group: Group { sg: 0, spri: 0 },
    gbc: 0,
    first: 1,
    hashes: &[Hash::Sha1(A), Hash::Sha1(B)],
    signature: b"\0\0\0",
};

/// The block of a whole payload.
const WHOLE: CertificateFields = CertificateFields {
    alg: Alg::Sha1,
    rsid: 1,
    group: Group { sg: 0, spri: 0 },
    total: 27,
    index: 1,
    fragment: b"2009-05-03T14:00:39Z K S0VZ",
    signature: b"\0\0\0",
};

/// A block under a head, what is signed of it, and its message, which there is where the block has a signature.
#[derive(Clone, Copy)]
struct Row {
    name: &'static str,
    head: HeadFields,
    /// None where it has no octet.
    stamp: &'static [u8],
    block: Fields,
    signed: &'static [u8],
    message: Option<&'static [u8]>,
}

// What is signed is the same whatever the signature, and needs none.
const ROWS: [Row; 7] = [
    Row {
        name: "a signature block",
        head: HEAD,
        stamp: b"",
        block: Fields::Signature(TWO_HASHES),
        signed: SIGNATURE_SIGNED,
        message: Some(SIGNATURE),
    },
    Row {
        name: "a certificate block",
        head: HEAD,
        stamp: b"",
        block: Fields::Certificate(WHOLE),
        signed: CERTIFICATE_SIGNED,
        message: Some(CERTIFICATE),
    },
    Row {
        name: "a signature block without signature",
        head: HEAD,
        stamp: b"",
        block: Fields::Signature(SignatureFields {
            alg: Alg::Sha1,
            rsid: 1,
            group: Group { sg: 0, spri: 0 },
            gbc: 0,
            first: 1,
            hashes: &[Hash::Sha1(A), Hash::Sha1(B)],
            signature: b"",
        }),
        signed: SIGNATURE_SIGNED,
        message: None,
    },
    Row {
        name: "a certificate block without signature",
        head: HEAD,
        stamp: b"",
        block: Fields::Certificate(CertificateFields {
            alg: Alg::Sha1,
            rsid: 1,
            group: Group { sg: 0, spri: 0 },
            total: 27,
            index: 1,
            fragment: b"2009-05-03T14:00:39Z K S0VZ",
            signature: b"",
        }),
        signed: CERTIFICATE_SIGNED,
        message: None,
    },
    Row {
        name: "a stamp and a MSGID",
        head: (110, b"h|s||m"),
        stamp: b"2009-05-03T14:00:39Z",
        block: Fields::Signature(SignatureFields {
            alg: Alg::Sha1,
            rsid: 1,
            group: Group { sg: 0, spri: 0 },
            gbc: 0,
            first: 1,
            hashes: &[Hash::Sha1(A), Hash::Sha1(B)],
            signature: b"",
        }),
        signed: STAMPED,
        message: None,
    },
    Row {
        name: "a fragment with octets to be escaped",
        head: HEAD,
        stamp: b"",
        block: Fields::Certificate(CertificateFields {
            alg: Alg::Sha256,
            rsid: 0,
            group: Group { sg: 1, spri: 110 },
            total: 9,
            index: 3,
            fragment: b"a\"\\]b",
            signature: b"",
        }),
        signed: ESCAPED,
        message: None,
    },
    Row {
        name: "the last numbers",
        head: (0, b"|||"),
        stamp: b"",
        block: Fields::Signature(SignatureFields {
            alg: Alg::Sha256,
            rsid: 9_999_999_999,
            group: Group { sg: 3, spri: 191 },
            gbc: 9_999_999_999,
            first: 9_999_999_999,
            hashes: &[Hash::Sha256(A2)],
            signature: b"",
        }),
        signed: LAST_NUMBERS,
        message: None,
    },
];

/// A field, absent for no octets.
fn field(alloc: Global, octets: &[u8]) -> Result<Field, AllocError> {
    if octets.is_empty() {
        return Ok(Field::Nil);
    }
    Ok(Field::Text(bytes(alloc, octets)?))
}

fn head_of(alloc: Global, fields: &HeadFields) -> Result<Option<Head>, AllocError> {
    let (pri, texts) = fields;
    let mut cells = Cells::new(texts);
    Ok(Head::new(
        *pri,
        field(alloc, cells.octets())?,
        field(alloc, cells.octets())?,
        field(alloc, cells.octets())?,
        field(alloc, cells.octets())?,
    ))
}

/// What is signed of a block, and its message where it has a signature.
type Written = (Bytes, Option<Bytes>);

fn signature_written(
    alloc: Global,
    head: &Head,
    stamp: Option<Stamp>,
    block: &SigBlock,
) -> Result<Written, NoMemory> {
    let signed = unsigned_sig(alloc, head, stamp, block)?;
    if block.header().signature.as_slice().is_empty() {
        return Ok((signed, None));
    }
    Ok((signed, Some(write_sig(alloc, head, stamp, block)?)))
}

fn certificate_written(
    alloc: Global,
    head: &Head,
    stamp: Option<Stamp>,
    block: &CertBlock,
) -> Result<Written, NoMemory> {
    let signed = unsigned_cert(alloc, head, stamp, block)?;
    if block.header().signature.as_slice().is_empty() {
        return Ok((signed, None));
    }
    Ok((signed, Some(write_cert(alloc, head, stamp, block)?)))
}

/// What is written of a signature block; none where there is none of these fields.
fn signature_of(
    alloc: Global,
    head: &Head,
    stamp: Option<Stamp>,
    fields: &SignatureFields,
) -> Result<Option<Written>, NoMemory> {
    match fields.block(alloc)? {
        Some(block) => Ok(Some(signature_written(alloc, head, stamp, &block)?)),
        None => Ok(None),
    }
}

/// The same of a certificate block.
fn certificate_of(
    alloc: Global,
    head: &Head,
    stamp: Option<Stamp>,
    fields: &CertificateFields,
) -> Result<Option<Written>, NoMemory> {
    match fields.block(alloc)? {
        Some(block) => Ok(Some(certificate_written(alloc, head, stamp, &block)?)),
        None => Ok(None),
    }
}

fn block_of(
    alloc: Global,
    head: &Head,
    stamp: Option<Stamp>,
    block: &Fields,
) -> Result<Option<Written>, NoMemory> {
    match block {
        Fields::Signature(fields) => signature_of(alloc, head, stamp, fields),
        Fields::Certificate(fields) => certificate_of(alloc, head, stamp, fields),
    }
}

/// What is written of a row; none where it has no head or no block.
fn written_of(alloc: Global, row: &Row) -> Result<Option<Written>, NoMemory> {
    match head_of(alloc, &row.head)? {
        Some(head) => block_of(alloc, &head, Stamp::parse(row.stamp), &row.block),
        None => Ok(None),
    }
}

/// The octets of a message, if there is one.
fn octets(message: &Option<Bytes>) -> Option<&[u8]> {
    match message {
        Some(message) => Some(message.as_slice()),
        None => None,
    }
}

/// Whether what is signed of the row, and its message, are written.
fn is_written(alloc: Global, row: &Row) -> Result<bool, NoMemory> {
    match written_of(alloc, row)? {
        Some((signed, message)) => {
            Ok(signed.as_slice() == row.signed && octets(&message) == row.message)
        }
        None => Ok(false),
    }
}

/// The first row that is written otherwise.
fn first_wrong(alloc: Global) -> Result<Option<&'static str>, NoMemory> {
    for row in &ROWS {
        if !is_written(alloc, row)? {
            return Ok(Some(row.name));
        }
    }
    Ok(None)
}

/// Whether each row is written.
pub(crate) fn is_each_written(alloc: Global) -> Result<bool, NoMemory> {
    Ok(first_wrong(alloc)?.is_none())
}

/// A text, and how many octets it has.
const LENGTHS: [(&[u8], usize); 4] = [
    (SIGNATURE, 159),
    (SIGNATURE_SIGNED, 147),
    (CERTIFICATE, 142),
    (CERTIFICATE_SIGNED, 130),
];

#[test]
fn written(rt: HostRuntime) -> Result<(), NoMemory> {
    let wrong = first_wrong(rt.alloc())?;
    assert!(rt; wrong.is_none(), "{wrong:?}");
    for (text, length) in &LENGTHS {
        assert!(rt; text.len() == *length, "of {text:?}");
    }
    Ok(())
}

/// Whether a head is made of this PRI and the four texts of the cells, which are there also where they have no octet.
fn is_head(alloc: Global, pri: u8, texts: &[u8]) -> Result<bool, AllocError> {
    let mut cells = Cells::new(texts);
    let head = Head::new(
        pri,
        Field::Text(bytes(alloc, cells.octets())?),
        Field::Text(bytes(alloc, cells.octets())?),
        Field::Text(bytes(alloc, cells.octets())?),
        Field::Text(bytes(alloc, cells.octets())?),
    );
    Ok(head.is_some())
}

/// Whether there is a head of this PRI and the cells of HOSTNAME, APP-NAME, PROCID and MSGID.
const HEADS: [(bool, u8, &[u8]); 9] = [
    (true, 0, b"h|s|p|m"),
    (true, 110, b"--|!|~|=\"]"),
    (false, 192, b"h|s|p|m"),
    (false, 110, b"-|s|p|m"),
    (false, 110, b"h|-|p|m"),
    (false, 110, b"h|s|-|m"),
    (false, 110, b"h|s|p|-"),
    (false, 110, b"|s|p|m"),
    (false, 110, b"h h|s|p|\x7F"),
];

/// Whether there is a head of HOSTNAME, APP-NAME, PROCID and MSGID of so many octets.
const LONG_HEADS: [(bool, u8, [u32; 4]); 5] = [
    (true, 191, [255, 48, 128, 32]),
    (false, 110, [256, 1, 1, 1]),
    (false, 110, [1, 49, 1, 1]),
    (false, 110, [1, 1, 129, 1]),
    (false, 110, [1, 1, 1, 33]),
];

/// A cell of so many octets, and what ends it.
fn put_cell(text: &mut Vec<u8>, length: u32) -> Result<(), AllocError> {
    for _ in 0..length {
        text.push(b'x')?;
    }
    Ok(text.push(b'|')?)
}

/// Whether a head is made of texts of these lengths.
fn is_long_head(alloc: Global, pri: u8, lengths: &[u32; 4]) -> Result<bool, AllocError> {
    let mut texts = Vec::new(alloc);
    for length in lengths {
        put_cell(&mut texts, *length)?;
    }
    is_head(alloc, pri, texts.as_slice())
}

#[test]
fn heads(rt: HostRuntime) -> Result<(), AllocError> {
    for (made, pri, texts) in &HEADS {
        assert!(rt;
            is_head(rt.alloc(), *pri, texts)? == *made,
            "{pri} {texts:?}"
        );
    }
    for (made, pri, lengths) in &LONG_HEADS {
        assert!(rt;
            is_long_head(rt.alloc(), *pri, lengths)? == *made,
            "{pri} {lengths:?}"
        );
    }
    Ok(())
}
