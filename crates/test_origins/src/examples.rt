//! The examples of the READMEs of `ss_origin` and `ss_wrap`, line by line.
use crate::sealing::{Lenient, Seal, answer};
use crate::settings::{Groups, Setting, config, payload};
use ss_block::{Alg, Payload};
use ss_origin::{Config, Counters, Emitted, OriginFault, Originator, Sealer, Seals};
use ss_wrap::{original, wrap};
use std::alloc::Global;
use std::test::Fail;

/// What was emitted at the beginning, for the message, and at the end, and the counters then.
type Sent = (Emitted, Emitted, Emitted, Counters);

fn sends<J: Seals>(
    alloc: Global,
    config: Config,
    sealer: J,
    message: &[u8],
) -> Result<Sent, OriginFault>
    requires { J.sound sealer }
{
    let mut originator = Originator::new(alloc, config, sealer)?;
    let certificates = originator.begin(None)?;
    let sent = originator.submit(message, None)?;
    let last = originator.flush(None)?;
    let counters = originator.counters()?;
    Ok((certificates, sent, last, counters))
}

/// The same with a sealer that signs everything.
fn sends_sealed(
    alloc: Global,
    (config, payload): (Config, Payload),
    message: &[u8],
) -> Result<Sent, OriginFault> {
    let seal = |alloc: Global, _octets: &[u8]| answer(alloc, Seal::Zeros(3));
    let sealer = Sealer::new(&Lenient, payload, seal);
    sends(alloc, config, sealer, message)
}

/// Blocks of two hashes at most, each sent once.
const SETTING: Setting = Setting {
    msgid: None,
    alg: Alg::Sha1,
    rsid: 1,
    groups: Groups::One(0),
    per_block: 2,
    copies: 1,
    frag: 500,
};

#[test]
fn a_message_is_sent(rt: HostRuntime) -> Result<(), Fail> {
    let config = config(rt.alloc(), &SETTING)?.ok_or("a configuration")?;
    let payload = payload(rt.alloc())?.ok_or("a payload")?;
    let message = b"<34>1 - h su - ID47 - hello";
    let (certificates, sent, last, counters) = sends_sealed(
        rt.alloc(),
        (config, payload),
        message,
    )?;
    assert_eq!(rt; certificates.as_slice().len(), 1);
    assert_eq!(rt; sent.as_slice().len(), 1);
    assert_eq!(rt; last.as_slice().len(), 1);
    assert_eq!(rt; counters.gbc, 1);
    Ok(())
}

#[test]
fn a_message_is_wrapped(rt: HostRuntime) -> Result<(), Fail> {
    let alloc = rt.alloc();
    let head = config(alloc, &SETTING)?.ok_or("a configuration")?.head;
    let message = b"hello";
    let text = wrap(alloc, &head, None, message)?;
    let found = original(alloc, text.as_slice())?;
    let (text, found) = (text.as_slice(), found.unwrap_or(b""));
    assert!(rt; text == b"<13>1 - h s - wrapped - |hello".as_slice());
    assert!(rt; found == b"hello".as_slice());
    Ok(())
}
