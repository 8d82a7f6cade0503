//! Configurations and counters as values that tables hold, all with one payload, and with one head but for its MSGID.
use ss_block::{Alg, Head, Payload};
use ss_message::Field;
use ss_octets::{Bytes, NoMemory};
use ss_origin::{Bounds, Config, Counters, Grouping, NextNumber, NextNumbers};
use std::alloc::{AllocError, Global};

/// The payload of all of them.
const PAYLOAD: &[u8] = b"2009-05-03T14:00:39Z K S0VZ";

/// A grouping.
#[derive(Clone, Copy, Debug)]
pub enum Groups {
    One(u8),
    ByPri,
    Ranges(&'static [u8]),
}

/// A configuration without the rest of its head.
#[derive(Clone, Copy, Debug)]
pub struct Setting {
    pub msgid: Option<&'static [u8]>,
    pub alg: Alg,
    pub rsid: u64,
    pub groups: Groups,
    pub per_block: u8,
    pub copies: u8,
    pub frag: u16,
}

/// Counters: the next GBC, and the SPRI and the next number of each group.
#[derive(Clone, Copy, Debug)]
pub struct At(pub u64, pub &'static [(u8, u64)]);

fn text(alloc: Global, octets: &[u8]) -> Result<Field, AllocError> {
    Ok(Field::Text(Bytes::from_vec(Vec::from_slice(alloc, octets)?)))
}

fn text_or_nil(alloc: Global, octets: Option<&[u8]>) -> Result<Field, AllocError> {
    match octets {
        Some(octets) => text(alloc, octets),
        None => Ok(Field::Nil),
    }
}

fn grouping(alloc: Global, groups: Groups) -> Result<Grouping, AllocError> {
    match groups {
        Groups::One(spri) => Ok(Grouping::One { spri }),
        Groups::ByPri => Ok(Grouping::ByPri),
        Groups::Ranges(bounds) => {
            Ok(Grouping::Ranges(Bounds::from_vec(Vec::from_slice(alloc, bounds)?)))
        }
    }
}

/// The configuration, with PRI 110, HOSTNAME `h` and APP-NAME `s`.
pub(crate) fn config(alloc: Global, setting: &Setting) -> Result<Option<Config>, AllocError> {
    let made = Head::new(
        110,
        text(alloc, b"h")?,
        text(alloc, b"s")?,
        Field::Nil,
        text_or_nil(alloc, setting.msgid)?,
    );
    let Some(head) = made else {
        return Ok(None);
    };
    Ok(Some(Config {
        head,
        alg: setting.alg,
        rsid: setting.rsid,
        grouping: grouping(alloc, setting.groups)?,
        per_block: setting.per_block,
        copies: setting.copies,
        frag: setting.frag,
    }))
}

/// The payload.
pub(crate) fn payload(alloc: Global) -> Result<Option<Payload>, NoMemory> {
    Payload::parse(alloc, PAYLOAD)
}

/// The counters.
pub(crate) fn counters(alloc: Global, at: &At) -> Result<Counters, AllocError> {
    let mut groups = Vec::new(alloc);
    for (spri, number) in at.1 {
        groups.push(NextNumber {
            spri: *spri,
            number: *number,
        })?;
    }
    Ok(Counters {
        gbc: at.0,
        groups: NextNumbers::from_vec(groups),
    })
}

/// Whether these are the counters.
pub(crate) fn are(found: &Counters, at: &At) -> bool {
    let groups = found.groups.as_slice();
    found.gbc == at.0
        && groups.len() == at.1.len()
        && groups.iter().zip(at.1).all(|(next, (spri, number))| next.spri == *spri
            && next.number == *number)
}
