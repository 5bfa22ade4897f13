//! Which errors a line spells.

ghost use Rattle.std.specs.Prelude.{◌≡◌, ◌<◌, IfSome};
ghost use Rattle.std.specs.List.{list_all};
ghost use Rattle.mdb_parts.specs.ErrorParts.{is_version, is_kind, are_labels, is_message, is_error, IsVersionOfTypes, IsKindOfTypes, IsErrorOfTypes};
ghost use Rattle.mdb_parts.specs.Reading.{lacks};
ghost use Rattle.mdb_parts.specs.WordRule.{is_word, keeps};

use crate::number_types::id_types;
use crate::word_rule::is_word;
use mdb_base::{Error, ErrorKind, Text, TopologyVersion};

fn is_kind(kind: ErrorKind) -> bool
    ensures { result ≡ is_kind kind }
{
    match kind {
        ErrorKind::Command(code) => 0 <= code,
        _ => true,
    }
}

fn are_words(texts: &[Text]) -> bool
    ensures { result ≡ list_all is_word texts.now }
{
    texts.iter().all(|t| is_word(t.as_str()))
}

#[tactic(auto, unfolding(crate::specs::ErrorParts::are_labels))]
fn are_labels(labels: &[Text]) -> bool
    ensures { result ≡ are_labels labels.now }
{
    labels.len() <= 8 && are_words(labels)
}

/// The counter of the version, where it is there, is not negative.
pub fn is_optional_version(version: Option<TopologyVersion>) -> bool
    ensures { result ≡ keeps is_version version }
{
    match version {
        Some(version) => 0 <= version.counter,
        None => true,
    }
}

fn has_no_bar(bytes: &[u8]) -> bool
    ensures { result ≡ lacks 124 bytes.now }
{
    bytes.iter().all(|b| *b != b'|')
}

#[tactic(auto, unfolding(crate::specs::ErrorParts::is_message))]
fn is_message(text: &str) -> bool
    ensures { result ≡ is_message text.now }
{
    let bytes = text.as_bytes();
    bytes.len() <= 256 && has_no_bar(bytes)
}

/// A line can spell the error.
#[tactic(auto, unfolding(crate::specs::ErrorParts::is_error))]
pub fn is_error(e: &Error) -> bool
    ensures { result ≡ is_error e.now }
{
    is_kind(e.kind)
        && are_labels(e.labels.as_slice())
        && is_optional_version(e.topology_version)
        && is_message(e.message.as_str())
}

fn kind_types(kind: ErrorKind)
    ensures { IsKindOfTypes kind }
{
    match kind {
        ErrorKind::Command(_code) => {}
        _ => {}
    }
}

/// The numbers of a version that is there are those of its types.
pub fn version_types(version: Option<TopologyVersion>)
    ensures { IfSome version IsVersionOfTypes }
{
    match version {
        Some(version) => {
            id_types(&version.process_id);
            let _counter = version.counter;
        }
        None => {}
    }
}

/// The numbers of an error are those of its types.
pub fn error_types(e: &Error)
    ensures { IsErrorOfTypes e.now }
{
    kind_types(e.kind);
    version_types(e.topology_version);
}
