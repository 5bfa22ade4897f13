//! Values by their words. A word that is no value stands for 0: the answer then differs.

use crate::page::Page;
use mdb_base::{ObjectId, TopologyVersion};

/// A number of 64 bits.
pub fn number(word: &str) -> u64 {
    word.parse::<u64>().unwrap_or(0)
}

/// A number of 32 bits.
pub fn small(word: &str) -> u32 {
    word.parse::<u32>().unwrap_or(0)
}

/// A number of 32 bits with a sign.
pub fn signed(word: &str) -> i32 {
    word.parse::<i32>().unwrap_or(0)
}

/// What stands beside the name in the list, and none where the name is not there.
pub fn named<T: Copy>(list: &[(&str, T)], name: &str) -> Option<T> {
    for (own, value) in list {
        if *own == name {
            return Some(*value);
        }
    }
    None
}

/// A version of the process zero.
pub fn version(counter: &str) -> TopologyVersion {
    TopologyVersion {
        process_id: ObjectId([0; 12]),
        counter: counter.parse::<i64>().unwrap_or(0),
    }
}

/// A version, and none where there is no word.
pub fn some_version(counter: &str) -> Option<TopologyVersion> {
    if counter.is_empty() {
        None
    } else {
        Some(version(counter))
    }
}

/// The words before the first blank, and those after it.
pub fn parted(words: &str) -> (&str, &str) {
    words.split_once(' ').unwrap_or((words, ""))
}

/// What stands after the name and `=` in the first word that begins with them; nothing where there is none.
pub fn value_of<'a>(words: &'a str, name: &str) -> &'a str {
    for word in words.split(' ') {
        if let Some((own, value)) = word.split_once('=') {
            if own == name {
                return value;
            }
        }
    }
    ""
}

// What stands for a letter behind a backslash, and what follows.
fn sign(part: &str) -> (&str, &str) {
    if let Some(rest) = part.strip_prefix('s') {
        return (" ", rest);
    }
    if let Some(rest) = part.strip_prefix('r') {
        return ("\r", rest);
    }
    match part.strip_prefix('n') {
        Some(rest) => ("\n", rest),
        None => ("malformed", part),
    }
}

/// The text with a blank for each `\s`, a line end for each `\n` and a carriage return for each `\r`.
pub fn decoded(page: &mut Page, words: &str) -> String {
    let (first, _) = words.split_once('\\').unwrap_or((words, ""));
    let mut text = page.string(first);
    for part in words.split('\\').skip(1) {
        let (sign, rest) = sign(part);
        page.add(&mut text, sign);
        page.add(&mut text, rest);
    }
    text
}
