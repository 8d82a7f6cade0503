//! The examples of the READMEs of `ss_answers` and `ss_signing`, line by line.
use crate::sealing::{Lenient, Seal, answer};
use ss_answers::{AnswerFault, read_answers};
use ss_block::{Alg, Head, Payload};
use ss_frame::{Limits, Watched};
use ss_message::{Field, Stamp};
use ss_octets::Bytes;
use ss_origin::{Config, Grouping, SealFault, Sealer, Seals};
use ss_signing::{SignFault, run_sign};
use std::alloc::Global;
use std::test::Fail;

/// Whether a payload is trusted and a signature accepted, and a signature.
type Answered = (bool, bool, Result<Vec<u8>, SealFault>);

fn answers(alloc: Global) -> Result<Answered, AnswerFault> {
    let mut reader = Watched::new(b"trust S0VZ\nseal QQ== AAAA\n".as_slice());
    let answers = read_answers(alloc, &mut reader, 1_000)?;
    let trusted = answers.trusts(b"KEY");
    let accepted = answers.accepts(b"KEY", b"A", b"\0\0\0");
    let signature = answers.seal(alloc, b"A");
    Ok((trusted, accepted, signature))
}

fn signs<J: Seals>(
    alloc: Global,
    log: &[u8],
    config: Config,
    sealer: J,
    stamp: Option<Stamp>,
) -> Result<Vec<u8>, SignFault>
    requires { J.sound sealer }
{
    let mut reader = Watched::new(log);
    let mut out = Watched::new(Vec::new(alloc));
    let limits = Limits::standard().lines();
    run_sign(alloc, &mut reader, &mut out, config, sealer, stamp, limits).result?;
    let signed = out.into_inner();
    Ok(signed)
}

/// The same with a sealer that signs everything.
fn signs_sealed(
    alloc: Global,
    log: &[u8],
    (config, payload): (Config, Payload),
) -> Result<Vec<u8>, SignFault> {
    let seal = |alloc: Global, octets: &[u8]| answer(alloc, Seal::Zeros, octets);
    signs(
        alloc,
        log,
        config,
        Sealer::new(&Lenient, payload, seal),
        None,
    )
}

/// One group of messages of the program `s`, with blocks of 99 hashes at most, each sent once.
fn config(alloc: Global) -> Result<Config, Fail> {
    let app = Field::Text(Bytes::from_vec(Vec::from_slice(alloc, b"s")?));
    let head = Head::new(110, Field::Nil, app, Field::Nil, Field::Nil).ok_or("a head")?;
    Ok(Config {
        head,
        alg: Alg::Sha1,
        rsid: 1,
        grouping: Grouping::One { spri: 0 },
        per_block: 99,
        copies: 1,
        frag: 500,
    })
}

#[test]
fn lines_are_answers(rt: HostRuntime) -> Result<(), Fail> {
    let (trusted, accepted, signature) = answers(rt.alloc())?;
    assert_eq!(rt; (trusted, accepted), (true, false));
    assert_eq!(rt; signature?.as_slice(), b"\0\0\0".as_slice());
    Ok(())
}

#[test]
fn a_line_is_signed(rt: HostRuntime) -> Result<(), Fail> {
    let payload = Payload::parse(rt.alloc(), b"- K S0VZ")?.ok_or("a payload")?;
    let log = b"<34>1 - h su - ID47 - hello\n";
    let signed = signs_sealed(rt.alloc(), log, (config(rt.alloc())?, payload))?;
    // The message is a frame, after the certificate block and before the signature block.
    assert!(rt; signed.as_slice().ends_with(b" SIGN=\"AAAA\"]"));
    assert!(rt; signed.len() > log.len() * 3);
    Ok(())
}
