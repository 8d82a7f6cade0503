//! A run over octets, and what it wrote.
ghost use Rattle.std.specs.Prelude.{◌≡◌, false};
ghost use Rattle.ss_frame.specs.Watched.{has_failed};

use crate::sealing::{Lenient, Seal, answer};
use ss_block::{Alg, Head, Payload};
use ss_frame::{Form, Limits, Watched};
use ss_message::Field;
use ss_octets::Bytes;
use ss_origin::{Config, Counters, Grouping, NextNumber, NextNumbers, Sealer};
use ss_report::RunFault;
use ss_signing::{
    SendRequest, SignFault, run_ahead, run_plan, run_plan_from, run_sign, run_sign_from,
};
use std::alloc::{AllocError, Global};
use std::io::{Read, Write};
use test_devices::Paper;

/// The payload of the certificate blocks.
const PAYLOAD: &[u8] = b"2009-05-03T14:00:39Z K S0VZ";

/// Which run, and for `Sign` what the sealer answers.
#[derive(Clone, Copy, Debug)]
pub enum Job {
    Plan,
    Ahead,
    Sign(Seal),
}

/// How many hashes a block has, and how often it is sent.
pub type Sizes = (u8, u8);

/// Where an originator goes on: the next GBC, and the next number of its group, unless no message was numbered yet.
pub type Start = (u64, Option<u64>);

/// Which run, by a new originator or one that goes on, with blocks of which sizes, and the limits.
#[derive(Clone, Copy)]
pub struct Task {
    pub job: Job,
    pub start: Option<Start>,
    pub sizes: Sizes,
    /// In which form a signed log is written.
    pub out: Form,
    /// Whether messages that can't be signed are wrapped.
    pub wrap: bool,
    pub limits: Limits,
}

/// How a run ended.
#[derive(Clone, Copy)]
pub struct Done {
    pub said: Result<(), SignFault>,
    pub read_failed: bool,
    pub write_failed: bool,
    /// What was written.
    pub paper: Paper,
}

fn text(alloc: Global, octets: &[u8]) -> Result<Field, AllocError> {
    Ok(Field::Text(Bytes::from_vec(Vec::from_slice(alloc, octets)?)))
}

/// One group, with PRI 110, HOSTNAME `h` and APP-NAME `s`.
fn config(alloc: Global, sizes: Sizes) -> Result<Option<Config>, AllocError> {
    let host = text(alloc, b"h")?;
    let app = text(alloc, b"s")?;
    let Some(head) = Head::new(110, host, app, Field::Nil, Field::Nil) else {
        return Ok(None);
    };
    Ok(Some(Config {
        head,
        alg: Alg::Sha1,
        rsid: 1,
        grouping: Grouping::One { spri: 0 },
        per_block: sizes.0,
        copies: sizes.1,
        frag: 500,
    }))
}

/// The counters of a start.
fn counters(alloc: Global, (gbc, number): Start) -> Result<Counters, AllocError> {
    let mut groups = Vec::new(alloc);
    if let Some(number) = number {
        groups.push(NextNumber { spri: 0, number })?;
    }
    let groups = NextNumbers::from_vec(groups);
    Ok(Counters { gbc, groups })
}

/// How the messages of a task are sent.
fn sending(alloc: Global, task: &Task) -> Result<Option<SendRequest>, AllocError> {
    let start = match task.start {
        Some(start) => Some(counters(alloc, start)?),
        None => None,
    };
    let Some(config) = config(alloc, task.sizes)? else {
        return Ok(None);
    };
    Ok(Some(SendRequest {
        config,
        start,
        stamp: None,
        out: task.out,
        wrap: task.wrap,
        limits: task.limits,
    }))
}

/// A run between watched devices. One of a new originator without wraps, which writes frames, is made by `run_plan` or `run_sign`.
pub(crate) fn run_by<R: Read, W: Write>(
    alloc: Global,
    task: &Task,
    reader: &mut Watched<R>,
    writer: &mut Watched<W>,
) -> Result<(), SignFault>
    requires reader { has_failed reader.old ≡ false }
    requires writer { has_failed writer.old ≡ false }
{
    let memory = SignFault::Run(RunFault::Memory);
    let Ok(Some(sending)) = sending(alloc, task) else {
        return Err(memory);
    };
    let Ok(Some(payload)) = Payload::parse(alloc, PAYLOAD) else {
        return Err(memory);
    };
    let is_usual = task.start.is_none() && !task.wrap && task.out == Form::Frames;
    match task.job {
        Job::Ahead => run_ahead(alloc, reader, writer, payload, sending),
        Job::Plan if !is_usual => run_plan_from(alloc, reader, writer, payload, sending),
        Job::Plan => {
            let SendRequest { config, limits, .. } = sending;
            run_plan(alloc, reader, writer, config, payload, None, limits)
        }
        Job::Sign(told) => {
            let seal = move |alloc: Global, octets: &[u8]| answer(alloc, told, octets);
            let sealer = Sealer::new(&Lenient, payload, seal);
            if !is_usual {
                return run_sign_from(alloc, reader, writer, sealer, sending).result;
            }
            let SendRequest { config, limits, .. } = sending;
            run_sign(alloc, reader, writer, config, sealer, None, limits).result
        }
    }
}

/// Runs over what `source` gives.
pub(crate) fn run<R: Read + Drop>(alloc: Global, task: &Task, source: R, paper: Paper) -> Done {
    let mut reader = Watched::new(source);
    let mut writer = Watched::new(paper);
    let said = run_by(alloc, task, &mut reader, &mut writer);
    Done {
        said,
        read_failed: reader.failed(),
        write_failed: writer.failed(),
        paper: writer.into_inner(),
    }
}
