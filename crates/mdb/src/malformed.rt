//! Why a line of a script is malformed.

use crate::ending::tell;
use mdb_base::{OutOfMemory, Sink};
use mdb_lines::{RunError, cut_line, tell_usage};
use mdb_reasons::{Reason, why_refused};
use std::alloc::Global;

// The line with this number, counted from 1; none where it is the last one and has no newline.
fn line_at(text: &[u8], number: u32) -> Option<&[u8]> {
    let mut found = None;
    let mut rest = text;
    for _ in 0..number {
        if rest.is_empty() {
            return None;
        }
        let (line, behind) = cut_line(rest)?;
        found = Some(line);
        rest = behind;
    }
    found
}

fn reason_of(alloc: Global, text: &[u8], number: u32) -> Result<Reason, OutOfMemory> {
    match line_at(text, number) {
        Some(line) => why_refused(alloc, line, number),
        None => Ok(Reason {
            column: 1,
            text: String::from_str(alloc, "this last line has no newline at its end")?,
        }),
    }
}

// The line for errors that says where the script leaves the grammar, and what could stand there.
fn message(alloc: Global, name: &str, text: &[u8], number: u32) -> Result<String, OutOfMemory> {
    let Reason { column, text } = reason_of(alloc, text, number)?;
    Ok(format!(in alloc; "mdb: {name}: line {number}, column {column}: {text}\n")?)
}

/// Says where the script leaves the grammar, and what could stand there; without what was read, or without memory, which line does.
pub(crate) fn tell_malformed<E: Sink>(
    alloc: Global,
    errors: &mut E,
    name: &str,
    read: Option<&[u8]>,
    number: u32,
) {
    let said = match read {
        Some(text) => message(alloc, name, text, number),
        None => Err(OutOfMemory),
    };
    match said {
        Ok(said) => tell_usage(errors, said.as_str()),
        Err(OutOfMemory) => tell(errors, name, RunError::Malformed(number)),
    }
}
