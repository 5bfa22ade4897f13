//! Errors by their words.

use crate::page::Page;
use crate::words::{named, signed, some_version, value_of};
use mdb_base::{Error, ErrorKind, Items};

const KINDS: [(&str, ErrorKind); 5] = [
    ("network", ErrorKind::Network),
    ("timeout", ErrorKind::NetworkTimeout),
    ("auth", ErrorKind::Auth),
    ("incompatible", ErrorKind::IncompatibleServer),
    ("other", ErrorKind::Other),
];

fn kind(word: &str) -> ErrorKind {
    match named(&KINDS, word) {
        Some(kind) => kind,
        None => ErrorKind::Command(signed(word)),
    }
}

/// The error that the words name: `kind=`, `labels=` and `version=`.
pub fn made_error(page: &mut Page, words: &str, message: &str) -> Error {
    Error {
        kind: kind(value_of(words, "kind")),
        labels: page.texts(value_of(words, "labels")),
        topology_version: some_version(value_of(words, "version")),
        message: page.text(message),
    }
}

/// A network error.
pub fn down(page: &mut Page) -> Error {
    Error {
        kind: ErrorKind::Network,
        labels: Items::new(Vec::new(page.alloc)),
        topology_version: None,
        message: page.text("down"),
    }
}
