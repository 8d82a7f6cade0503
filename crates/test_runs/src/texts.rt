//! Messages that logs are made of, by their names. The two samples are of FIPS 180, whose hashes are in the signature
//! blocks.
use ss_frame::Form;
use ss_octets::put_number;
use std::alloc::{AllocError, Global};

/// A message, by its name in a table. A block is of session 1 of host `h`, and a certificate block holds the whole
/// payload, if nothing else is said.
#[derive(Clone, Copy, Debug)]
pub enum Text {
    /// `abc`.
    Short,
    /// The longer sample.
    Long,
    Certificate,
    /// The first 20 octets of the payload.
    Front,
    /// Its last 10 octets, 3 of which are of the front too.
    Back,
    /// Another payload.
    OtherPayload,
    /// A whole text that is no payload.
    NoPayload,
    SecondSession,
    HostI,
    HostH1,
    /// Announces the short message and the long one.
    Both,
    /// Announces the short message twice.
    ShortTwice,
    /// Announces the short message alone.
    ShortAlone,
    /// Announces the long message alone, for the same number.
    LongAlone,
    ShortAtLastNumber,
    /// Announces a number after the last one.
    PastLastNumber,
    /// Announces the short message by its SHA-256.
    ShortBySha256,
    ShortOfSecondSession,
    /// Announces the short message, between other elements and before a MSG.
    ShortBesideOthers,
}

const SHORT: &[u8] = b"abc";

const LONG: &[u8] = b"abcdbcdecdefdefgefghfghighijhijkijkljklmklmnlmnomnopnopq";

const CERTIFICATE: &[u8] =
    b"<110>1 - h s - - [ssign-cert VER=\"0111\" RSID=\"1\" SG=\"0\" SPRI=\"0\" TPBL=\"27\" INDEX=\"1\" FLEN=\"27\" \
        FRAG=\"2009-05-03T14:00:39Z K S0VZ\" SIGN=\"AAAA\"]";

const FRONT: &[u8] =
    b"<110>1 - h s - - [ssign-cert VER=\"0111\" RSID=\"1\" SG=\"0\" SPRI=\"0\" TPBL=\"27\" INDEX=\"1\" FLEN=\"20\" \
        FRAG=\"2009-05-03T14:00:39Z\" SIGN=\"AAAA\"]";

const BACK: &[u8] =
    b"<110>1 - h s - - [ssign-cert VER=\"0111\" RSID=\"1\" SG=\"0\" SPRI=\"0\" TPBL=\"27\" INDEX=\"18\" FLEN=\"10\" \
        FRAG=\"39Z K S0VZ\" SIGN=\"AAAA\"]";

const OTHER_PAYLOAD: &[u8] =
    b"<110>1 - h s - - [ssign-cert VER=\"0111\" RSID=\"1\" SG=\"0\" SPRI=\"0\" TPBL=\"27\" INDEX=\"1\" FLEN=\"27\" \
        FRAG=\"2009-05-03T14:00:40Z K S0VZ\" SIGN=\"AAAA\"]";

const NO_PAYLOAD: &[u8] =
    b"<110>1 - h s - - [ssign-cert VER=\"0111\" RSID=\"1\" SG=\"0\" SPRI=\"0\" TPBL=\"1\" INDEX=\"1\" FLEN=\"1\" \
        FRAG=\"x\" SIGN=\"AAAA\"]";

const SECOND_SESSION: &[u8] =
    b"<110>1 - h s - - [ssign-cert VER=\"0111\" RSID=\"2\" SG=\"0\" SPRI=\"0\" TPBL=\"27\" INDEX=\"1\" FLEN=\"27\" \
        FRAG=\"2009-05-03T14:00:39Z K S0VZ\" SIGN=\"AAAA\"]";

const HOST_I: &[u8] =
    b"<110>1 - i s - - [ssign-cert VER=\"0111\" RSID=\"1\" SG=\"0\" SPRI=\"0\" TPBL=\"27\" INDEX=\"1\" FLEN=\"27\" \
        FRAG=\"2009-05-03T14:00:39Z K S0VZ\" SIGN=\"AAAA\"]";

const HOST_H1: &[u8] =
    b"<110>1 - h1 s - - [ssign-cert VER=\"0111\" RSID=\"1\" SG=\"0\" SPRI=\"0\" TPBL=\"27\" INDEX=\"1\" FLEN=\"27\" \
        FRAG=\"2009-05-03T14:00:39Z K S0VZ\" SIGN=\"AAAA\"]";

const BOTH: &[u8] =
    b"<110>1 - h s - - [ssign VER=\"0111\" RSID=\"1\" SG=\"0\" SPRI=\"0\" GBC=\"0\" FMN=\"1\" CNT=\"2\" \
        HB=\"qZk+NkcGgWq6PiVxeFDCbJzQ2J0= hJg+RBw70m66rkqh+VEp5eVGcPE=\" SIGN=\"AAAA\"]";

const SHORT_TWICE: &[u8] =
    b"<110>1 - h s - - [ssign VER=\"0111\" RSID=\"1\" SG=\"0\" SPRI=\"0\" GBC=\"0\" FMN=\"1\" CNT=\"2\" \
        HB=\"qZk+NkcGgWq6PiVxeFDCbJzQ2J0= qZk+NkcGgWq6PiVxeFDCbJzQ2J0=\" SIGN=\"AAAA\"]";

const SHORT_ALONE: &[u8] =
    b"<110>1 - h s - - [ssign VER=\"0111\" RSID=\"1\" SG=\"0\" SPRI=\"0\" GBC=\"0\" FMN=\"1\" CNT=\"1\" \
        HB=\"qZk+NkcGgWq6PiVxeFDCbJzQ2J0=\" SIGN=\"AAAA\"]";

const LONG_ALONE: &[u8] =
    b"<110>1 - h s - - [ssign VER=\"0111\" RSID=\"1\" SG=\"0\" SPRI=\"0\" GBC=\"1\" FMN=\"1\" CNT=\"1\" \
        HB=\"hJg+RBw70m66rkqh+VEp5eVGcPE=\" SIGN=\"AAAA\"]";

const SHORT_AT_LAST_NUMBER: &[u8] =
    b"<110>1 - h s - - [ssign VER=\"0111\" RSID=\"1\" SG=\"0\" SPRI=\"0\" GBC=\"0\" FMN=\"9999999999\" CNT=\"1\" \
        HB=\"qZk+NkcGgWq6PiVxeFDCbJzQ2J0=\" SIGN=\"AAAA\"]";

const PAST_LAST_NUMBER: &[u8] =
    b"<110>1 - h s - - [ssign VER=\"0111\" RSID=\"1\" SG=\"0\" SPRI=\"0\" GBC=\"0\" FMN=\"9999999999\" CNT=\"2\" \
        HB=\"qZk+NkcGgWq6PiVxeFDCbJzQ2J0= hJg+RBw70m66rkqh+VEp5eVGcPE=\" SIGN=\"AAAA\"]";

const SHORT_BY_SHA_256: &[u8] =
    b"<110>1 - h s - - [ssign VER=\"0121\" RSID=\"1\" SG=\"0\" SPRI=\"0\" GBC=\"0\" FMN=\"1\" CNT=\"1\" \
        HB=\"ungWv48Bz+pBQUDeXa4iI7ADYaOWF3qctBD/YfIAFa0=\" SIGN=\"AAAA\"]";

const SHORT_OF_SECOND_SESSION: &[u8] =
    b"<110>1 - h s - - [ssign VER=\"0111\" RSID=\"2\" SG=\"0\" SPRI=\"0\" GBC=\"0\" FMN=\"1\" CNT=\"1\" \
        HB=\"qZk+NkcGgWq6PiVxeFDCbJzQ2J0=\" SIGN=\"AAAA\"]";

const SHORT_BESIDE_OTHERS: &[u8] =
    b"<110>1 - h s - - [x@1 SIGN=\"AAAA\"][ssign VER=\"0111\" RSID=\"1\" SG=\"0\" SPRI=\"0\" GBC=\"0\" FMN=\"1\" \
        CNT=\"1\" HB=\"qZk+NkcGgWq6PiVxeFDCbJzQ2J0=\" SIGN=\"AAAA\"][y@1 a=\"\\]\"] hello SIGN=\"AAAA\"";

/// The octets of a message.
pub(crate) fn octets_of(text: Text) -> &'static [u8] {
    match text {
        Text::Short => SHORT,
        Text::Long => LONG,
        Text::Certificate => CERTIFICATE,
        Text::Front => FRONT,
        Text::Back => BACK,
        Text::OtherPayload => OTHER_PAYLOAD,
        Text::NoPayload => NO_PAYLOAD,
        Text::SecondSession => SECOND_SESSION,
        Text::HostI => HOST_I,
        Text::HostH1 => HOST_H1,
        Text::Both => BOTH,
        Text::ShortTwice => SHORT_TWICE,
        Text::ShortAlone => SHORT_ALONE,
        Text::LongAlone => LONG_ALONE,
        Text::ShortAtLastNumber => SHORT_AT_LAST_NUMBER,
        Text::PastLastNumber => PAST_LAST_NUMBER,
        Text::ShortBySha256 => SHORT_BY_SHA_256,
        Text::ShortOfSecondSession => SHORT_OF_SECOND_SESSION,
        Text::ShortBesideOthers => SHORT_BESIDE_OTHERS,
    }
}

fn put_text(log: &mut Vec<u8>, octets: &[u8], form: Form) -> Result<(), AllocError> {
    match form {
        Form::Frames => {
            put_number(log, octets.len() as u64)?;
            log.push(b' ')?;
            log.extend_from_slice(octets)
        }
        Form::Lines => {
            log.extend_from_slice(octets)?;
            Ok(log.push(b'\n')?)
        }
    }
}

/// The log of these messages in that form, and octets after them.
pub(crate) fn log_of(
    alloc: Global,
    texts: &[Text],
    form: Form,
    behind: &[u8],
) -> Result<Vec<u8>, AllocError> {
    let mut log = Vec::new(alloc);
    for text in texts {
        put_text(&mut log, octets_of(*text), form)?;
    }
    log.extend_from_slice(behind)?;
    Ok(log)
}

/// Where in a block message of that length the 12 octets ` SIGN="AAAA"` of its block begin.
fn sign_of(text: Text, length: usize) -> usize {
    match text {
        Text::ShortBesideOthers => 134,
        _ => length.saturating_sub(13),
    }
}

/// The octets of a block message that are signed.
pub(crate) fn signed_of(alloc: Global, text: Text) -> Result<Vec<u8>, AllocError> {
    let octets = octets_of(text);
    let sign = sign_of(text, octets.len());
    let front = octets.get(..sign).unwrap_or_default();
    let back = octets.get(sign.saturating_add(12)..).unwrap_or_default();
    let mut signed = Vec::from_slice(alloc, front)?;
    signed.extend_from_slice(back)?;
    Ok(signed)
}
