//! The configuration, the payload and the counters that a script names.
use ss_block::{Alg, Head, Payload};
use ss_message::Field;
use ss_octets::Bytes;
use ss_origin::{Bounds, Config, Counters, Grouping, NextNumber, NextNumbers};
use std::alloc::{AllocError, Global};

/// The word at this place of a line, from 0; empty where there are fewer.
pub(crate) fn word(line: &str, place: usize) -> &str {
    match line.split(' ').nth(place) {
        Some(word) => word,
        None => "",
    }
}

/// The payload whose text these digits spell; none where it is no payload.
pub(crate) fn payload_of(alloc: Global, digits: &str) -> Option<Payload> {
    let text = hex::decode(alloc, digits).ok()?;
    Payload::parse(alloc, text.as_slice()).ok()?
}

fn field_of(alloc: Global, text: &str) -> Result<Field, AllocError> {
    if text == "-" {
        return Ok(Field::Nil);
    }
    let octets = Vec::from_slice(alloc, text.as_bytes())?;
    Ok(Field::Text(Bytes::from_vec(octets)))
}

fn head_of(alloc: Global, pri: u8, line: &str) -> Result<Option<Head>, AllocError> {
    let hostname = field_of(alloc, word(line, 2))?;
    let app_name = field_of(alloc, word(line, 3))?;
    let procid = field_of(alloc, word(line, 4))?;
    let msgid = field_of(alloc, word(line, 5))?;
    Ok(Head::new(pri, hostname, app_name, procid, msgid))
}

fn bounds_of(alloc: Global, text: &str) -> Result<Bounds, AllocError> {
    let mut bounds = Vec::new(alloc);
    for bound in text.split(',') {
        if let Ok(bound) = bound.parse::<u8>() {
            bounds.push(bound)?;
        }
    }
    Ok(Bounds::from_vec(bounds))
}

fn grouping_of(alloc: Global, text: &str) -> Result<Option<Grouping>, AllocError> {
    if text == "pri" {
        return Ok(Some(Grouping::ByPri));
    }
    if let Some(bounds) = text.strip_prefix("ranges:") {
        return Ok(Some(Grouping::Ranges(bounds_of(alloc, bounds)?)));
    }
    let Some(spri) = text.strip_prefix("one:") else {
        return Ok(None);
    };
    match spri.parse::<u8>() {
        Ok(spri) => Ok(Some(Grouping::One { spri })),
        Err(_) => Ok(None),
    }
}

/// The numbers of a configuration.
#[derive(Clone, Copy)]
struct Numbers {
    pri: u8,
    alg: Alg,
    rsid: u64,
    per_block: u8,
    copies: u8,
    frag: u16,
}

fn numbers_of(line: &str) -> Option<Numbers> {
    Some(Numbers {
        pri: word(line, 1).parse::<u8>().ok()?,
        alg: Alg::of_version(word(line, 6).as_bytes())?,
        rsid: word(line, 7).parse::<u64>().ok()?,
        per_block: word(line, 9).parse::<u8>().ok()?,
        copies: word(line, 10).parse::<u8>().ok()?,
        frag: word(line, 11).parse::<u16>().ok()?,
    })
}

/// The configuration of a line; none where it names none.
pub(crate) fn config_of(alloc: Global, line: &str) -> Result<Option<Config>, AllocError> {
    let Some(numbers) = numbers_of(line) else {
        return Ok(None);
    };
    let Some(head) = head_of(alloc, numbers.pri, line)? else {
        return Ok(None);
    };
    let Some(grouping) = grouping_of(alloc, word(line, 8))? else {
        return Ok(None);
    };
    Ok(Some(Config {
        head,
        alg: numbers.alg,
        rsid: numbers.rsid,
        grouping,
        per_block: numbers.per_block,
        copies: numbers.copies,
        frag: numbers.frag,
    }))
}

fn next_number_of(word: &str) -> Option<NextNumber> {
    let (spri, number) = word.split_once(':')?;
    Some(NextNumber {
        spri: spri.parse::<u8>().ok()?,
        number: number.parse::<u64>().ok()?,
    })
}

/// The counters of a line `resume`; its words without a number name no group.
pub(crate) fn counters_of(alloc: Global, line: &str) -> Result<Counters, AllocError> {
    let mut groups = Vec::new(alloc);
    for word in line.split(' ') {
        if let Some(next) = next_number_of(word) {
            groups.push(next)?;
        }
    }
    let gbc = match word(line, 1).parse::<u64>() {
        Ok(gbc) => gbc,
        Err(_) => u64::MAX,
    };
    Ok(Counters {
        gbc,
        groups: NextNumbers::from_vec(groups),
    })
}
