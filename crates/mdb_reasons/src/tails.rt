//! What stands behind the words at fixed places.

use crate::errors::error_reason;
use crate::parts::{Part, Value, parts_reason};
use crate::reason::{Reason, at, of_word};
use crate::words::{column, cut_word};
use mdb_base::OutOfMemory;
use std::alloc::Global;

/// What stands behind the words at fixed places.
#[derive(Clone, Copy, Debug, PartialEq, Eq)]
pub(crate) enum Tail {
    Nothing,
    Established,
    Failed,
    Error,
    Hello,
    Beaten,
}

const ESTABLISHED: [Part; 3] = [
    ("wire", Value::Number(0, 2_147_483_647)),
    ("sid", Value::ObjectId),
    ("server", Value::Number(0, 9_223_372_036_854_775_807)),
];

const FIELDS: [Part; 24] = [
    ("rtt", Value::Number(0, 18_446_744_073_709_551_615)),
    ("isWritablePrimary", Value::Truth),
    ("ismaster", Value::Truth),
    ("helloOk", Value::Truth),
    ("hosts", Value::Addresses),
    ("passives", Value::Addresses),
    ("arbiters", Value::Addresses),
    ("msg", Value::Name),
    ("me", Value::Address),
    ("setVersion", Value::Number(0, 2_147_483_647)),
    ("setName", Value::Name),
    ("hidden", Value::Truth),
    ("secondary", Value::Truth),
    ("arbiterOnly", Value::Truth),
    ("isreplicaset", Value::Truth),
    (
        "logicalSessionTimeoutMinutes",
        Value::Number(0, 18_446_744_073_709_551_615),
    ),
    ("minWireVersion", Value::Number(0, 2_147_483_647)),
    ("maxWireVersion", Value::Number(0, 2_147_483_647)),
    ("tags", Value::Tags),
    ("electionId", Value::ObjectId),
    ("primary", Value::Address),
    ("topologyVersion", Value::Version),
    ("connectionId", Value::Number(0, 9_223_372_036_854_775_807)),
    ("more", Value::Flag),
];

// Why the parts, if there are any, are refused.
fn parts(
    alloc: Global,
    line: &str,
    text: Option<&str>,
    table: &[Part],
) -> Result<Option<Reason>, OutOfMemory> {
    match text {
        Some(text) => parts_reason(alloc, column(line, text), text, table),
        None => Ok(None),
    }
}

// Why an error is refused, which should stand here.
fn error(alloc: Global, line: &str, text: Option<&str>) -> Result<Option<Reason>, OutOfMemory> {
    match text {
        Some(text) => error_reason(alloc, line, text),
        None => Ok(Some(at(
            alloc,
            line.len().saturating_add(1),
            "an error is wanted: KIND msg=TEXT",
        )?)),
    }
}

fn established(alloc: Global, line: &str, text: &str) -> Result<Option<Reason>, OutOfMemory> {
    if text.starts_with("wire=") {
        parts(alloc, line, Some(text), &ESTABLISHED)
    } else {
        Ok(Some(at(
            alloc,
            column(line, text),
            "`wire=n` is wanted, and then ` sid=OID` and ` server=n` where they are known",
        )?))
    }
}

fn failed(alloc: Global, line: &str, text: &str) -> Result<Option<Reason>, OutOfMemory> {
    let (word, rest) = cut_word(text);
    match (word, rest) {
        ("pre", rest) => error(alloc, line, rest),
        ("post", Some(rest)) if rest.starts_with("sid=") => {
            let (service, behind) = cut_word(rest);
            match parts_reason(alloc, column(line, rest), service, &ESTABLISHED)? {
                Some(reason) => Ok(Some(reason)),
                None => error(alloc, line, behind),
            }
        }
        ("post", rest) => error(alloc, line, rest),
        _ => Ok(Some(of_word(
            alloc,
            column(line, text),
            word,
            "does not say when: pre (before its hello) or post",
        )?)),
    }
}

fn hello(alloc: Global, line: &str, text: &str) -> Result<Option<Reason>, OutOfMemory> {
    let (word, rest) = cut_word(text);
    match (word, rest) {
        ("ok", Some(rest)) if rest.starts_with("rtt=") => parts(alloc, line, Some(rest), &FIELDS),
        ("ok", _) => Ok(Some(at(
            alloc,
            column(line, text).saturating_add(3),
            "`rtt=NS` is wanted behind `ok`",
        )?)),
        ("err", rest) => error(alloc, line, rest),
        _ => Ok(Some(of_word(
            alloc,
            column(line, text),
            word,
            "is no outcome: ok rtt=NS and fields, or err and an error",
        )?)),
    }
}

fn beaten(alloc: Global, line: &str, text: &str) -> Result<Option<Reason>, OutOfMemory> {
    let (word, rest) = cut_word(text);
    match word {
        "ok" => parts(alloc, line, rest, &FIELDS),
        "err" | "cancelled" => error(alloc, line, rest),
        _ => Ok(Some(of_word(
            alloc,
            column(line, text),
            word,
            "is no outcome: ok and fields, err and an error, or cancelled and an error",
        )?)),
    }
}

// Why what stands behind the words at fixed places is refused, if that can be told.
fn found(alloc: Global, line: &str, tail: Tail, text: &str) -> Result<Option<Reason>, OutOfMemory> {
    match tail {
        Tail::Nothing => Ok(Some(of_word(
            alloc,
            column(line, text),
            text,
            "is too much: nothing stands here",
        )?)),
        Tail::Established => established(alloc, line, text),
        Tail::Failed => failed(alloc, line, text),
        Tail::Error => error_reason(alloc, line, text),
        Tail::Hello => hello(alloc, line, text),
        Tail::Beaten => beaten(alloc, line, text),
    }
}

// What is wanted where the line ends behind the words at fixed places.
fn wanted(tail: Tail) -> &'static str {
    match tail {
        Tail::Nothing => "the line fits no step",
        Tail::Established =>
            "` wire=n` is wanted, and then ` sid=OID` and ` server=n` where they are known",
        Tail::Failed => "` pre` or ` post` is wanted, and an error",
        Tail::Error => "an error is wanted: KIND msg=TEXT",
        Tail::Hello => "an outcome is wanted: ok rtt=NS and fields, or err and an error",
        Tail::Beaten =>
            "an outcome is wanted: ok and fields, err and an error, or cancelled and an error",
    }
}

/// Why what stands behind the words at fixed places is refused.
pub(crate) fn tail_reason(
    alloc: Global,
    line: &str,
    tail: Tail,
    rest: Option<&str>,
) -> Result<Reason, OutOfMemory> {
    let Some(text) = rest else {
        return at(alloc, line.len().saturating_add(1), wanted(tail));
    };
    match found(alloc, line, tail, text)? {
        Some(reason) => Ok(reason),
        None => at(alloc, 1, "the parts of this line do not go together"),
    }
}
