//! A run over octets, and what it wrote.
use crate::book::{Job, Who, book_of, run_by, signed_texts};
use ss_frame::{Form, Limits, Watched};
use ss_report::{ReadOptions, Run, RunFault, Verdict};
use std::alloc::{AllocError, Global};
use std::io::Read;
use test_devices::Paper;

/// Which run, the answers about signatures, and the limits.
#[derive(Clone, Copy)]
pub struct Task {
    pub job: Job,
    pub who: Who,
    pub limits: Limits,
}

/// How a run ended.
#[derive(Clone, Copy)]
pub struct Done {
    pub said: Result<Verdict, RunFault>,
    pub read_failed: bool,
    pub write_failed: bool,
    /// What was written.
    pub paper: Paper,
}

/// The greatest limits in that form.
pub(crate) fn limits_of(form: Form) -> Limits {
    match form {
        Form::Frames => Limits::standard(),
        Form::Lines => Limits::standard().lines(),
    }
}

/// Runs over what `source` gives.
pub(crate) fn run<R: Read + Drop>(
    alloc: Global,
    task: Task,
    source: R,
    paper: Paper,
) -> Result<Done, AllocError> {
    let Task { job, who, limits } = task;
    let (first, second) = signed_texts(alloc, who)?;
    let book = book_of(who, (first.as_slice(), second.as_slice()));
    let mut reader = Watched::new(source);
    let mut writer = Watched::new(paper);
    let run = Run {
        reader: &mut reader,
        writer: &mut writer,
        options: ReadOptions::undamaged(limits),
        known: None,
        alloc,
    };
    let said = run_by(run, job, &book);
    Ok(Done {
        said,
        read_failed: reader.failed(),
        write_failed: writer.failed(),
        paper: writer.into_inner(),
    })
}
