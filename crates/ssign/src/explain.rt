//! What is written about a code.
ghost use Rattle.std.specs.Prelude.{◌≡◌, None, Some, find, option_map, IfOk, MatchResult};
ghost use Rattle.std.specs.List.{list_any};
ghost use Rattle.std.specs.Option.{option_copied};
ghost use Rattle.ssign.specs.Explanation.{entries_of, explained, has_code, table_of, told, told_text};
ghost use Rattle.ssign.specs.Orders.{IsUnexplained};

use crate::explanations::{Explanation, Tables};
use crate::objects::{object_text, objects_text};
use crate::refusal::Refusal;
use ss_report::RunFault;
use std::alloc::{AllocError, Global};

/// The first entry of tables with this code, in letters of either case. `None` exactly where no entry has it.
pub fn explanation_of<'t>(tables: Tables<'t>, code: &str) -> Option<&'t Explanation>
    ensures { option_copied result ≡ find (has_code code.now) (entries_of tables.entry) }
{
    tables
        .refusals
        .iter()
        .chain(tables.lines.iter())
        .chain(tables.words.iter())
        .chain(tables.faults.iter())
        .chain(tables.unprinted.iter())
        .find(|entry| entry.code.eq_ignore_ascii_case(code))
}

/// What is to be written about this code, or without a code about all of them: with `--json` objects, and else a text.
///
/// # Errors
///
/// `NoCode` where no code is given without `--json`; `NoEntry` where no entry has the code; `Run` with
/// `RunFault::Memory` if it runs out of memory.
pub fn explained(
    alloc: Global,
    tables: Tables<'_>,
    json: bool,
    code: Option<&str>,
) -> Result<Vec<u8>, Refusal>
    ensures { MatchResult result
        (λ text. explained tables.entry json (option_map (λ s. s.now) code.entry) ≡ Some text.items)
        (IsUnexplained tables.entry json (option_map (λ s. s.now) code.entry)) }
{
    match code {
        Some(code) => one_explained(alloc, tables, json, code),
        None => all_explained(alloc, tables, json),
    }
}

/// What is to be written about this code.
fn one_explained(
    alloc: Global,
    tables: Tables<'_>,
    json: bool,
    code: &str,
) -> Result<Vec<u8>, Refusal>
    ensures { MatchResult result
        (λ text. explained tables.entry json (Some code.now) ≡ Some text.items)
        (IsUnexplained tables.entry json (Some code.now)) }
{
    let Some(entry) = explanation_of(tables, code) else {
        return Err(Refusal::NoEntry);
    };
    match told(alloc, tables, json, code, entry) {
        Ok(text) => Ok(text),
        Err(_) => Err(Refusal::Run(RunFault::Memory)),
    }
}

/// What is to be written about all codes.
fn all_explained(alloc: Global, tables: Tables<'_>, json: bool) -> Result<Vec<u8>, Refusal>
    ensures { MatchResult result
        (λ text. explained tables.entry json None ≡ Some text.items)
        (IsUnexplained tables.entry json None) }
{
    if !json {
        return Err(Refusal::NoCode);
    }
    match objects_text(alloc, tables) {
        Ok(text) => Ok(text),
        Err(_) => Err(Refusal::Run(RunFault::Memory)),
    }
}

/// What is to be written about an entry, which has this code.
fn told(
    alloc: Global,
    tables: Tables<'_>,
    json: bool,
    code: &str,
    entry: &Explanation,
) -> Result<Vec<u8>, AllocError>
    ensures { IfOk result (λ text. text.items ≡ told tables.entry json code.now entry.now) }
{
    if json {
        object_text(alloc, table_of(tables, code), entry)
    } else {
        line_of(alloc, entry)
    }
}

/// The text of an entry, as a line.
fn line_of(alloc: Global, entry: &Explanation) -> Result<Vec<u8>, AllocError>
    ensures { IfOk result (λ line. line.items ≡ told_text entry.now) }
{
    let mut line = Vec::from_slice(alloc, entry.text.as_bytes())?;
    line.push(b'\n')?;
    Ok(line)
}

/// The name of the first table that has this code: of the last one, if no table has it. Lines have that of words.
fn table_of(tables: Tables<'_>, code: &str) -> &'static str
    ensures { result.now ≡ table_of tables.entry code.now }
{
    if has_entry(tables.refusals, code) {
        "refusals"
    } else if has_entry(tables.lines, code) || has_entry(tables.words, code) {
        "words"
    } else if has_entry(tables.faults, code) {
        "faults"
    } else {
        "unprinted"
    }
}

/// Whether an entry has this code, in letters of either case.
fn has_entry(entries: &[Explanation], code: &str) -> bool
    ensures { result ≡ list_any (has_code code.now) entries.now }
{
    entries
        .iter()
        .any(|entry| entry.code.eq_ignore_ascii_case(code))
}
