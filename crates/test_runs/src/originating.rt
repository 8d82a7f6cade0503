//! An originator of messages of two groups, and all that it sends.
ghost use Rattle.std.specs.Prelude.{true};

use ss_block::{Alg, Head, Payload};
use ss_message::Field;
use ss_octets::Bytes;
use ss_origin::{Config, Emitted, Grouping, OriginFault, Originator, SealFault, Seals};
use std::alloc::{AllocError, Global};

pub const A: &[u8] = b"<13>1 - - - - - - a";

pub const B: &[u8] = b"<14>1 - - - - - - b";

pub const C: &[u8] = b"<13>1 - - - - - - c";

pub const D: &[u8] = b"<14>1 - - - - - - d";

pub const E: &[u8] = b"<13>1 - - - - - - e";

/// A call to an originator, or that another one goes on after it.
#[derive(Clone, Copy, Debug)]
pub enum Step {
    Begin,
    Submit(&'static [u8]),
    Flush,
    Resume,
}

/// Signs everything with three octets 0, where everything is valid.
#[derive(Drop)]
struct Zeros {
    payload: Payload,
}

impl Seals for Zeros {
    ghost sound = { λ _. Unit {0} };

    ghost payload = { λ s. s.payload };

    ghost valid = { λ _ _ _ _. true };

    ghost answers = { λ _ _ _. Unit {0} };

    ghost asked = { λ _ _ _ _. Unit {0} };

    fn payload_block(&self) -> &Payload {
        &self.payload
    }

    fn seal(&mut self, alloc: Global, _octets: &[u8]) -> Result<Vec<u8>, SealFault> {
        match Vec::from_slice(alloc, &[0, 0, 0]) {
            Ok(signature) => Ok(signature),
            Err(_) => Err(SealFault::Memory),
        }
    }
}

fn text(alloc: Global, octets: &[u8]) -> Result<Field, AllocError> {
    Ok(Field::Text(Bytes::from_vec(Vec::from_slice(alloc, octets)?)))
}

/// Groups by PRI, blocks of two hashes, and fragments of 20 octets.
fn config(alloc: Global) -> Result<Config, OriginFault> {
    let (host, app) = (text(alloc, b"h")?, text(alloc, b"s")?);
    let Some(head) = Head::new(110, host, app, Field::Nil, Field::Nil) else {
        return Err(OriginFault::BadConfig);
    };
    Ok(Config {
        head,
        alg: Alg::Sha1,
        rsid: 1,
        grouping: Grouping::ByPri,
        per_block: 2,
        copies: 1,
        frag: 20,
    })
}

fn sealer_of(alloc: Global, payload: &[u8]) -> Result<Zeros, OriginFault> {
    match Payload::parse(alloc, payload) {
        Ok(Some(payload)) => Ok(Zeros { payload }),
        _ => Err(OriginFault::BadConfig),
    }
}

/// Makes the call; for `Resume` the originator goes on after itself.
fn play(
    alloc: Global,
    originator: &mut Originator<Zeros>,
    payload: &[u8],
    step: Step,
) -> Result<Emitted, OriginFault> {
    match step {
        Step::Begin => originator.begin(None),
        Step::Submit(message) => originator.submit(message, None),
        Step::Flush => originator.flush(None),
        Step::Resume => {
            let counters = originator.counters()?;
            let sealer = sealer_of(alloc, payload)?;
            *originator = Originator::resume(alloc, config(alloc)?, sealer, &counters)?;
            Ok(Emitted::from_vec(Vec::new(alloc)))
        }
    }
}

/// All that the calls send, in order.
pub(crate) fn sent(
    alloc: Global,
    payload: &[u8],
    steps: &[Step],
) -> Result<Vec<Bytes>, OriginFault> {
    let mut originator = Originator::new(alloc, config(alloc)?, sealer_of(alloc, payload)?)?;
    let mut sent = Vec::new(alloc);
    for step in steps {
        let emitted = play(alloc, &mut originator, payload, *step)?;
        for message in emitted.into_vec() {
            sent.push(message)?;
        }
    }
    Ok(sent)
}
