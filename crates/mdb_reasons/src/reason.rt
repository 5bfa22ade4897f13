//! The reason for which a line is refused.

use crate::bytes::bad_byte;
use crate::open::open_reason;
use crate::steps::step_reason;
use mdb_base::OutOfMemory;
use std::alloc::Global;

/// Where a line leaves the grammar, and what could stand there.
#[derive(Debug, Drop)]
pub struct Reason {
    /// The column, counted from 1 in bytes.
    pub column: usize,
    /// What is wrong there, in words.
    pub text: String,
}

/// A reason at this column.
pub(crate) fn at(alloc: Global, column: usize, text: &str) -> Result<Reason, OutOfMemory> {
    Ok(Reason {
        column,
        text: String::from_str(alloc, text)?,
    })
}

/// A reason that begins with the word at fault.
pub(crate) fn of_word(
    alloc: Global,
    column: usize,
    word: &str,
    text: &str,
) -> Result<Reason, OutOfMemory> {
    Ok(Reason {
        column,
        text: format!(in alloc; "`{word}` {text}")?,
    })
}

/// Why the line with this number, which spells no step, is refused; the number is counted from 1, and the line given without its newline.
pub fn why_refused(alloc: Global, line: &[u8], number: u32) -> Result<Reason, OutOfMemory> {
    if let Some((column, text)) = bad_byte(line, number) {
        return at(alloc, column, text);
    }
    match str::from_utf8(line) {
        Err(_) => at(alloc, 1, "this is no text"),
        Ok(text) => match (number, text.strip_prefix("open")) {
            (1, Some(rest)) => open_reason(alloc, text, rest),
            (1, None) => at(
                alloc,
                1,
                "the first line is `open seeds=HOST:PORT,..`, with options behind it",
            ),
            _ => step_reason(alloc, text),
        },
    }
}
