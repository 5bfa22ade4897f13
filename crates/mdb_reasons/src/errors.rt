//! Errors in a line: a kind, parts, and a text.

use crate::parts::{Part, Value, parts_reason};
use crate::reason::{Reason, at, of_word};
use crate::words::{column, cut_word, number};
use mdb_base::OutOfMemory;
use std::alloc::Global;

const PARTS: [Part; 2] = [("labels", Value::Names), ("tv", Value::Version)];

// A code of a server, below 2^31, with a minus where it is negative.
fn is_code(word: &str) -> bool {
    let digits = word.strip_prefix("-").unwrap_or(word);
    match number(digits) {
        Some(number) => number <= 2_147_483_648,
        None => false,
    }
}

fn is_kind(word: &str) -> bool {
    match word.strip_prefix("command.") {
        Some(code) => is_code(code),
        None => word == "network"
            || word == "timeout"
            || word == "auth"
            || word == "incompatible"
            || word == "other",
    }
}

/// Why what stands here, which should be an error up to the end of the line, is refused.
pub(crate) fn error_reason(
    alloc: Global,
    line: &str,
    text: &str,
) -> Result<Option<Reason>, OutOfMemory> {
    let Some((head, message)) = text.split_once(" msg=") else {
        return Ok(Some(at(
            alloc,
            line.len().saturating_add(1),
            "an error ends in ` msg=TEXT`",
        )?));
    };
    let (kind, parts) = cut_word(head);
    if !is_kind(kind) {
        return Ok(Some(of_word(
            alloc,
            column(line, text),
            kind,
            "is no error: network, timeout, auth, incompatible, command.CODE or other",
        )?));
    }
    if let Some(parts) = parts {
        let place = column(line, text)
            .saturating_add(kind.len())
            .saturating_add(1);
        if let Some(reason) = parts_reason(alloc, place, parts, &PARTS)? {
            return Ok(Some(reason));
        }
    }
    if message.contains("|") || message.len() > 256 {
        return Ok(Some(at(
            alloc,
            column(line, message),
            "the text of an error has at most 256 characters, and no bar",
        )?));
    }
    Ok(None)
}
