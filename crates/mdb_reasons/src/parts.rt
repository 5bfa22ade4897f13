//! Optional parts of a line: words of the form `NAME=VALUE`, or a name alone, in one order.

use crate::misspelling::nearest;
use crate::reason::{Reason, of_word};
use crate::slots::{are_addresses, is_address};
use crate::words::number;
use mdb_base::{ObjectId, OutOfMemory};
use mdb_parts::word_rule::is_word;
use std::alloc::Global;

/// What stands behind the name of a part.
#[derive(Clone, Copy, Debug, PartialEq, Eq)]
pub(crate) enum Value {
    /// Nothing, and no `=`.
    Flag,
    /// A number from the first to the second.
    Number(u64, u64),
    Mode,
    Truth,
    Name,
    Names,
    Address,
    Addresses,
    ObjectId,
    Version,
    Tags,
}

/// A part that may stand in a line, by its name.
pub(crate) type Part = (&'static str, Value);

/// Whether the word is 24 hexadecimal digits in small letters.
fn is_object_id(word: &str) -> bool {
    match ObjectId::from_hex(word) {
        Some(_) => !word.as_bytes().iter().any(|b| b.is_ascii_uppercase()),
        None => false,
    }
}

fn is_below(word: &str, low: u64, high: u64) -> bool {
    match number(word) {
        Some(number) => low <= number && number <= high,
        None => false,
    }
}

// An object id, a point and a number below 2^63.
fn is_version(word: &str) -> bool {
    match word.split_once('.') {
        Some((id, counter)) => is_object_id(id) && is_below(counter, 0, 9_223_372_036_854_775_807),
        None => false,
    }
}

// A name, a colon and a name.
fn is_tag(word: &str) -> bool {
    match word.split_once(':') {
        Some((name, value)) => is_word(name) && is_word(value),
        None => false,
    }
}

impl Value {
    // Whether the text may stand behind the `=`.
    fn fits(self, alloc: Global, text: &str) -> Result<bool, OutOfMemory> {
        match self {
            Value::Flag => Ok(false),
            Value::Number(low, high) => Ok(is_below(text, low, high)),
            Value::Mode => Ok(text == "stream" || text == "poll"),
            Value::Truth => Ok(text == "true" || text == "false"),
            Value::Name => Ok(is_word(text)),
            Value::Names => Ok(text.split(',').all(is_word)),
            Value::Address => is_address(alloc, text),
            Value::Addresses => are_addresses(alloc, text),
            Value::ObjectId => Ok(is_object_id(text)),
            Value::Version => Ok(is_version(text)),
            Value::Tags => Ok(text.split(',').all(is_tag)),
        }
    }

    // What is wanted behind the `=` of the part with this name.
    fn wanted(self, alloc: Global, name: &str) -> Result<String, OutOfMemory> {
        let what = match self {
            Value::Number(low, high) => return Ok(format!(in alloc; "{name} is {low} to {high}")?),
            Value::Flag => "stands alone, without a value",
            Value::Mode => "is stream or poll",
            Value::Truth => "is true or false",
            Value::Name => "is 1 to 64 letters, digits, `_`, `-` and `.`",
            Value::Names => "is names with commas between them",
            Value::Address => "is host:port in small letters, with a port of 1 to 65535",
            Value::Addresses => "is addresses, host:port in small letters with commas between them",
            Value::ObjectId => "is 24 of the digits 0 to 9 and a to f",
            Value::Version => "is an object id, a point and a number",
            Value::Tags => "is name:name with commas between them, in the order of the names",
        };
        Ok(format!(in alloc; "{name} {what}")?)
    }
}

// Where the part with this name stands in the order, and what its value is.
fn place_of(table: &[Part], name: &str) -> Option<(usize, Value)> {
    let mut place = 0usize;
    for part in table {
        if part.0 == name {
            return Some((place, part.1));
        }
        place = place.saturating_add(1);
    }
    None
}

// The names of the parts, in their order.
fn order(alloc: Global, table: &[Part]) -> Result<String, OutOfMemory> {
    let mut text = String::new(alloc);
    for part in table {
        if !text.is_empty() {
            text.push_str(", ")?;
        }
        text.push_str(part.0)?;
    }
    Ok(text)
}

// A word that is none of the parts.
fn no_part(
    alloc: Global,
    column: usize,
    name: &str,
    table: &[Part],
) -> Result<Reason, OutOfMemory> {
    let mut names = Vec::new(alloc);
    for part in table {
        names.push(part.0)?;
    }
    match nearest(alloc, name, names.as_slice())? {
        Some(other) => {
            let text = format!(in alloc; "does not stand here; did you mean `{other}`?")?;
            of_word(alloc, column, name, text.as_str())
        }
        None => of_word(alloc, column, name, "does not stand here"),
    }
}

// Why the word is no part, or its value does not fit.
fn value_reason(
    alloc: Global,
    column: usize,
    word: &str,
    value: Value,
) -> Result<Option<Reason>, OutOfMemory> {
    let (name, fits) = match word.split_once('=') {
        Some((name, text)) => (name, value.fits(alloc, text)?),
        None => (word, value == Value::Flag),
    };
    if fits {
        return Ok(None);
    }
    let text = value.wanted(alloc, name)?;
    let text = format!(in alloc; "does not fit: {text}")?;
    Ok(Some(of_word(alloc, column, word, text.as_str())?))
}

/// Why the words, which begin at this column, are not parts of the table in its order, each at most once.
pub(crate) fn parts_reason(
    alloc: Global,
    column: usize,
    text: &str,
    table: &[Part],
) -> Result<Option<Reason>, OutOfMemory> {
    let mut column = column;
    let mut least = 0usize;
    for word in text.split(' ') {
        let name = match word.split_once('=') {
            Some((name, _)) => name,
            None => word,
        };
        let Some((place, value)) = place_of(table, name) else {
            return Ok(Some(no_part(alloc, column, name, table)?));
        };
        if place < least {
            let order = order(alloc, table)?;
            let text = format!(in alloc; "comes too late, or twice: the order is {order}")?;
            return Ok(Some(of_word(alloc, column, name, text.as_str())?));
        }
        if let Some(reason) = value_reason(alloc, column, word, value)? {
            return Ok(Some(reason));
        }
        least = place.saturating_add(1);
        column = column.saturating_add(word.len()).saturating_add(1);
    }
    Ok(None)
}
