//! A run over lines: each question is answered before the next line is read.
ghost use Rattle.std.specs.Prelude.{◌≡◌, [], false, IfOk, OnOk};
ghost use Rattle.ss_frame.specs.Watched.{has_failed, source_of, sink_of};
ghost use Rattle.ss_spelled.specs.Runs.{EndsSpelling, IsAnswerText, Obeys, Speaks};

use crate::answer::answer_text;
use crate::fault::SpellFault;
use crate::fragment::Fragment;
use crate::request::{Request, request_in};
use crate::search::{Bounds, spell};
use ss_frame::{Watched, write_octets};
use ss_lines::{LineEnd, next_line};
use ss_octets::{Bytes, NoMemory};
use std::alloc::Global;
use std::collections::BTreeSet;
use std::io::{Read, Write};

/// How far a search of a run goes.
const USUAL: Bounds = Bounds {
    texts: 1024,
    steps: 300_000,
};

/// Answers lines, each ended by LF, up to the end of what the reader gives. A line `fragment TOTAL INDEX OCTETS` adds a
/// fragment. A line `spell` is answered by what the fragments since the last one spell: at most 1,024 payloads, found
/// in at most 300,000 steps. The writer is flushed after each answer, before more is read.
///
/// # Errors
///
/// `Line` at the first line of another form, or without an LF; `Read`, `Write`, `Memory`. But for a failed write, all
/// lines before were answered.
pub fn run_spell<R: Read, W: Write>(
    alloc: Global,
    reader: &mut Watched<R>,
    writer: &mut Watched<W>,
) -> Result<(), SpellFault>
    requires reader { has_failed reader.old ≡ false }
    requires writer { has_failed writer.old ≡ false }
    ensures { EndsSpelling (source_of R.remaining reader.old) (source_of R.remaining reader.new)
        (sink_of W.contents writer.old) (sink_of W.contents writer.new) result }
{
    let mut fragments = BTreeSet::new(alloc);
    let mut line = Vec::new(alloc);
    for number in 1..u64::MAX {
        match next_line(reader, &mut line) {
            LineEnd::Lf => obey(alloc, writer, &mut fragments, line.as_slice(), number)?,
            LineEnd::End => {
                if line.is_empty() {
                    return Ok(());
                }
                return Err(SpellFault::Line { number });
            }
            LineEnd::Long => return Err(SpellFault::Line { number }),
            LineEnd::Failed => return Err(SpellFault::Read),
            LineEnd::Memory => return Err(SpellFault::Memory),
        }
    }
    Err(SpellFault::Memory)
}

/// Does what the line of this number asks for.
fn obey<W: Write>(
    alloc: Global,
    writer: &mut Watched<W>,
    fragments: &mut BTreeSet<Fragment>,
    line: &[u8],
    number: u64,
) -> Result<(), SpellFault>
    requires { has_failed writer.old ≡ false }
    ensures { Obeys line.now number fragments.old.keys fragments.new.keys
        (sink_of W.contents writer.old) (sink_of W.contents writer.new) result }
{
    let Ok(asked) = request_in(alloc, line) else {
        return Err(SpellFault::Memory);
    };
    match asked {
        Some(Request::Keep(fragment)) => match fragments.insert(fragment) {
            Ok(_) => Ok(()),
            Err(_) => Err(SpellFault::Memory),
        },
        Some(Request::Answer) => write_answer(alloc, writer, fragments),
        None => Err(SpellFault::Line { number }),
    }
}

/// Writes what the fragments spell, and flushes the writer. None is left.
fn write_answer<W: Write>(
    alloc: Global,
    writer: &mut Watched<W>,
    fragments: &mut BTreeSet<Fragment>,
) -> Result<(), SpellFault>
    requires { has_failed writer.old ≡ false }
    ensures { Speaks fragments.old.keys fragments.new.keys
        (sink_of W.contents writer.old) (sink_of W.contents writer.new) result }
{
    let Ok(text) = answer_to(alloc, fragments) else {
        return Err(SpellFault::Memory);
    };
    if !write_octets(writer, text.as_slice()) || writer.flush().is_err() {
        return Err(SpellFault::Write);
    }
    Ok(())
}

/// What is written about the fragments, of which none is left.
fn answer_to(alloc: Global, fragments: &mut BTreeSet<Fragment>) -> Result<Bytes, NoMemory>
    ensures answer { IfOk result (λ text. IsAnswerText fragments.old.keys text) }
    ensures left { OnOk result (fragments.new.keys ≡ []) }
{
    let list = taken(alloc, fragments)?;
    let found = spell(alloc, list.as_slice(), USUAL)?;
    answer_text(alloc, &found)
}

/// The fragments as a list; none is left.
fn taken(alloc: Global, fragments: &mut BTreeSet<Fragment>) -> Result<Vec<Fragment>, NoMemory>
    ensures list { IfOk result (λ v. v.items ≡ fragments.old.keys) }
    ensures left { OnOk result (fragments.new.keys ≡ []) }
{
    let mut list = Vec::new(alloc);
    while let Some(fragment) = fragments.pop_first() {
        list.push(fragment)?;
    }
    Ok(list)
}
