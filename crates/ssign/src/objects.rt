//! Explanations as JSON objects (RFC 8259), in the form of the lines of a report.
ghost use Rattle.std.specs.Prelude.{◌≡◌, ◌++◌, flat_map, OnOk, IfOk};
ghost use Rattle.ss_report.specs.records.Record.{Text};
ghost use Rattle.ss_report.specs.records.Json.{escaped, json_field};
ghost use Rattle.ssign.specs.Explanation.{object_in, objects_in, objects_of};

use crate::explanations::{Explanation, Tables};
use std::alloc::{AllocError, Global};

/// The object of an entry of the table with this name, as a line.
pub fn object_text(alloc: Global, table: &str, entry: &Explanation) -> Result<Vec<u8>, AllocError>
    ensures { IfOk result (λ text. text.items ≡ object_in table.now entry.now) }
{
    let mut text = Vec::new(alloc);
    push_object(&mut text, table, entry)?;
    Ok(text)
}

/// The objects of all entries, each as a line, in the order in which a code is looked for.
pub fn objects_text(alloc: Global, tables: Tables<'_>) -> Result<Vec<u8>, AllocError>
    ensures { IfOk result (λ text. text.items ≡ objects_of tables.entry) }
{
    let mut text = Vec::new(alloc);
    push_objects(&mut text, "refusals", tables.refusals)?;
    push_objects(&mut text, "words", tables.lines)?;
    push_objects(&mut text, "words", tables.words)?;
    push_objects(&mut text, "faults", tables.faults)?;
    push_objects(&mut text, "unprinted", tables.unprinted)?;
    Ok(text)
}

/// Adds the objects of entries of the table with this name.
fn push_objects(text: &mut Vec<u8>, table: &str, entries: &[Explanation]) -> Result<(), AllocError>
    ensures { OnOk result (text.new.items ≡ text.old.items ++ objects_in table.now entries.now) }
{
    for entry in entries {
        push_object(text, table, entry)?;
    }
    Ok(())
}

/// Adds the object of an entry of the table with this name.
fn push_object(text: &mut Vec<u8>, table: &str, entry: &Explanation) -> Result<(), AllocError>
    ensures { OnOk result (text.new.items ≡ text.old.items ++ object_in table.now entry.now) }
{
    text.extend_from_slice(b"{\"line\":\"explanation\"")?;
    push_field(text, "table", table)?;
    push_field(text, "code", entry.code)?;
    push_field(text, "text", entry.text)?;
    text.extend_from_slice(b"}\n")?;
    Ok(())
}

/// Adds a field whose value is a text.
fn push_field(text: &mut Vec<u8>, key: &str, value: &str) -> Result<(), AllocError>
    ensures { OnOk result (text.new.items ≡ text.old.items ++ json_field (key.now, Text value.now)) }
{
    text.extend_from_slice(b",\"")?;
    text.extend_from_slice(key.as_bytes())?;
    text.extend_from_slice(b"\":\"")?;
    push_escaped(text, value.as_bytes())?;
    text.extend_from_slice(b"\"")?;
    Ok(())
}

/// Adds octets with a `\` before each `"` and `\`.
fn push_escaped(text: &mut Vec<u8>, octets: &[u8]) -> Result<(), AllocError>
    ensures { OnOk result (text.new.items ≡ text.old.items ++ flat_map escaped octets.now) }
{
    for octet in octets {
        push_octet(text, *octet)?;
    }
    Ok(())
}

/// Adds an octet, with a `\` before it if it is `"` or `\`.
fn push_octet(text: &mut Vec<u8>, octet: u8) -> Result<(), AllocError>
    ensures { OnOk result (text.new.items ≡ text.old.items ++ escaped octet) }
{
    if octet == b'"' || octet == b'\\' {
        text.push(b'\\')?;
    }
    text.push(octet)?;
    Ok(())
}
