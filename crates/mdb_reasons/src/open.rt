//! The line that opens.

use crate::bytes::bad_space;
use crate::parts::{Part, Value, parts_reason};
use crate::reason::{Reason, at, of_word};
use crate::slots::are_addresses;
use crate::words::{column, cut_word};
use mdb_base::OutOfMemory;
use std::alloc::Global;

const OPTIONS: [Part; 15] = [
    ("set", Value::Name),
    ("direct", Value::Flag),
    ("lb", Value::Flag),
    ("max", Value::Number(1, 65_535)),
    ("min", Value::Number(0, 65_535)),
    ("connecting", Value::Number(1, 65_535)),
    ("idle", Value::Number(0, 18_446_744_073_709_551_615)),
    ("wait", Value::Number(0, 18_446_744_073_709_551_615)),
    ("heartbeat", Value::Number(0, 18_446_744_073_709_551_615)),
    ("connect", Value::Number(0, 18_446_744_073_709_551_615)),
    ("mode", Value::Mode),
    ("limit_id", Value::Number(0, 4_294_967_295)),
    (
        "limit_generation",
        Value::Number(0, 18_446_744_073_709_551_615),
    ),
    ("limit_pool", Value::Number(0, 4_294_967_295)),
    ("limit_monitor", Value::Number(0, 4_294_967_295)),
];

const RULES: &str =
    "these options do not go together: the seeds differ, `direct` and `lb` want one seed and not each other, `lb` wants no `set`, and `limit_pool` has room for the seeds";

// Why what stands behind `seeds=` is refused.
fn seeds_reason(alloc: Global, line: &str, text: &str) -> Result<Reason, OutOfMemory> {
    let (word, rest) = cut_word(text);
    if !are_addresses(alloc, word)? {
        return of_word(
            alloc,
            column(line, text),
            word,
            "does not fit: seeds are 1 to 128 addresses, host:port in small letters with commas between them",
        );
    }
    if let Some(options) = rest {
        if let Some(reason) = parts_reason(alloc, column(line, options), options, &OPTIONS)? {
            return Ok(reason);
        }
    }
    at(alloc, 1, RULES)
}

/// Why a first line, which begins with `open` and then this rest, is refused.
pub(crate) fn open_reason(alloc: Global, line: &str, rest: &str) -> Result<Reason, OutOfMemory> {
    if let Some((column, text)) = bad_space(line) {
        return at(alloc, column, text);
    }
    match rest.strip_prefix(" seeds=") {
        Some(text) => seeds_reason(alloc, line, text),
        None => at(
            alloc,
            5,
            "` seeds=HOST:PORT,..` stands behind `open`, and then the options",
        ),
    }
}
