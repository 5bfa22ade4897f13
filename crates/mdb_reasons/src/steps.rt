//! The steps, with what stands behind their first word.

use crate::bytes::bad_space;
use crate::misspelling::nearest;
use crate::reason::{Reason, at, of_word};
use crate::slots::Slot;
use crate::tails::{Tail, tail_reason};
use crate::words::{column, cut_word};
use mdb_base::OutOfMemory;
use std::alloc::Global;

const MOMENT: &[Slot] = &[Slot::Moment];

const PARTY: &[Slot] = &[Slot::Moment, Slot::Party];

const ASKED: &[Slot] = &[Slot::Moment, Slot::Party, Slot::Address];

const PLACE: &[Slot] = &[Slot::Moment, Slot::Pool, Slot::Connection];

const TAKEN: &[Slot] = &[Slot::Moment, Slot::Party, Slot::Pool, Slot::Connection];

const RETURNED: &[Slot] = &[Slot::Moment, Slot::Party, Slot::Use];

const KEPT: &[Slot] = &[Slot::Moment, Slot::Address];

const SERVER: &[Slot] = &[Slot::Moment, Slot::Address, Slot::Pool];

const TIMED: &[Slot] = &[Slot::Moment, Slot::Address, Slot::Pool, Slot::Duration];

const HOSTS: &[Slot] = &[Slot::Moment, Slot::Addresses];

const TIME: &[Slot] = &[Slot::Moment, Slot::Time];

const WATCHER: &[Slot] = &[Slot::Moment, Slot::Watcher];

const NAMES: [&str; 24] = [
    "request",
    "warm",
    "collect",
    "claim",
    "giveup",
    "established",
    "failed",
    "return",
    "error",
    "pin",
    "replicate",
    "take",
    "unpin",
    "maintain",
    "expire",
    "hello",
    "beat",
    "beaten",
    "rtt",
    "hosts",
    "ctime",
    "want",
    "unwant",
    "stop",
];

// The words at fixed places behind the first one, where it is that of a step of pools.
fn slots_of_pools(name: &str) -> Option<&'static [Slot]> {
    match name {
        "request" | "warm" => Some(ASKED),
        "collect" | "giveup" | "error" | "pin" => Some(PARTY),
        "claim" | "stop" => Some(MOMENT),
        "established" | "failed" | "replicate" | "unpin" => Some(PLACE),
        "return" => Some(RETURNED),
        "take" => Some(TAKEN),
        "maintain" | "expire" => Some(KEPT),
        _ => None,
    }
}

// The words at fixed places behind the first one, where it is that of a step of the topology.
fn slots_of_topology(name: &str) -> Option<&'static [Slot]> {
    match name {
        "hello" | "beat" => Some(SERVER),
        "beaten" | "rtt" => Some(TIMED),
        "hosts" => Some(HOSTS),
        "ctime" => Some(TIME),
        "want" | "unwant" => Some(WATCHER),
        _ => None,
    }
}

// What stands behind the words at fixed places.
fn tail_of(name: &str) -> Tail {
    match name {
        "established" => Tail::Established,
        "failed" => Tail::Failed,
        "error" => Tail::Error,
        "hello" => Tail::Hello,
        "beaten" => Tail::Beaten,
        _ => Tail::Nothing,
    }
}

// A first word that is that of no step.
fn no_step(alloc: Global, word: &str) -> Result<Reason, OutOfMemory> {
    if word == "open" {
        return at(alloc, 1, "`open` stands on the first line alone");
    }
    match nearest(alloc, word, &NAMES)? {
        Some(name) => {
            let text = format!(in alloc; "is no step; did you mean `{name}`?")?;
            of_word(alloc, 1, word, text.as_str())
        }
        None => of_word(alloc, 1, word, "is no step"),
    }
}

// A word that does not fit its place.
fn not_fitting(
    alloc: Global,
    column: usize,
    word: &str,
    slot: Slot,
) -> Result<Reason, OutOfMemory> {
    let wanted = slot.wanted();
    let text = format!(in alloc; "does not fit: {wanted}")?;
    of_word(alloc, column, word, text.as_str())
}

// A space too many, where no part of the line is a text that may have spaces anywhere.
fn spare_space(line: &str) -> Option<(usize, &'static str)> {
    match line.split_once(" msg=") {
        Some(_) => None,
        None => bad_space(line),
    }
}

// The first of the words at fixed places that does not fit, or else what is left behind them.
fn slots_reason<'a>(
    alloc: Global,
    line: &'a str,
    slots: &[Slot],
    rest: Option<&'a str>,
) -> Result<Result<Option<&'a str>, Reason>, OutOfMemory> {
    let mut rest = rest;
    for slot in slots {
        let Some(text) = rest else {
            return Ok(Err(at(alloc, line.len().saturating_add(1), slot.wanted())?));
        };
        let (word, behind) = cut_word(text);
        if !slot.fits(alloc, word)? {
            return Ok(Err(not_fitting(alloc, column(line, text), word, *slot)?));
        }
        rest = behind;
    }
    Ok(Ok(rest))
}

/// Why a line behind the first one is refused.
pub(crate) fn step_reason(alloc: Global, line: &str) -> Result<Reason, OutOfMemory> {
    let (name, rest) = cut_word(line);
    let Some(slots) = slots_of_pools(name).or(slots_of_topology(name)) else {
        return no_step(alloc, name);
    };
    if let Some((column, text)) = spare_space(line) {
        return at(alloc, column, text);
    }
    match slots_reason(alloc, line, slots, rest)? {
        Err(reason) => Ok(reason),
        Ok(rest) => tail_reason(alloc, line, tail_of(name), rest),
    }
}
