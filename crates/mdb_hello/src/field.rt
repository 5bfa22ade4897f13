//! Fields of a document, read by the type that is wanted.

ghost use Rattle.std.specs.Prelude.{◌≡◌, ◌++◌, ◌∷◌, [], IfOk, OnOk, is_some, option_map, map};
ghost use Rattle.mdb_base.specs.Document.{value_content, doc_content, named_content};
ghost use Rattle.mdb_hello.specs.Kinds.{named, document_in, list_in, text_in};
ghost use Rattle.mdb_hello.specs.Table.{optional_in, required_in, optional_field};
ghost use Rattle.mdb_hello.specs.Reading.{Gives};

use crate::error::HelloError;
use crate::making::push_field;
use mdb_base::{Doc, OutOfMemory, Value};
use std::alloc::Global;

/// A type of the values of a reply's fields.
pub trait FieldValue: Sized + Drop {
    ghost use Rattle.std.specs.Prelude.{Option};
    ghost use Rattle.mdb_base.specs.Document.{Content};

    /// The value that a content is, where it is one of this type.
    ghost value_in: { Content → Option Self };

    /// What a value is written as.
    ghost content: { Self → Content };

    /// Whether the value is one of this type. No memory is taken.
    fn fits(value: &Value) -> bool
        ensures { result ≡ is_some (value_in (value_content value.now)) };

    /// The value, and `None` where it is of another type.
    fn from_value(alloc: Global, value: &Value) -> Result<Option<Self>, OutOfMemory>
        ensures { IfOk result (λ x. x ≡ value_in (value_content value.now)) };

    fn to_value(&self, alloc: Global) -> Result<Value, OutOfMemory>
        ensures { IfOk result (λ v. value_content v ≡ content self.now) };
}

/// The first value of this name.
pub fn field<'a>(doc: &'a Doc, name: &str) -> Option<&'a Value>
    ensures { option_map (λ v. value_content v.now) result ≡ named name.now (doc_content doc.now) }
{
    first(doc.fields.as_slice(), name)
}

fn first<'a>(fields: &'a [(String, Value)], name: &str) -> Option<&'a Value>
    ensures { option_map (λ v. value_content v.now) result ≡ named name.now (map named_content fields.now) }
{
    let mut rest = fields;
    while let [(own, value), more @ ..] = rest {
        if own.as_str() == name {
            return Some(value);
        }
        rest = more;
    }
    None
}

/// The document that a value is, where it is one.
pub fn nested(value: &Value) -> Option<&Doc>
    ensures { option_map (λ d. doc_content d.now) result ≡ document_in (value_content value.now) }
{
    match value {
        Value::Nested(doc) => Some(doc),
        _ => None,
    }
}

/// The text that a value is, where it is one.
pub fn text_of(value: &Value) -> Option<&str>
    ensures { option_map (λ text. text.now) result ≡ text_in (value_content value.now) }
{
    match value {
        Value::Text(text) => Some(text.as_str()),
        _ => None,
    }
}

/// The values of a list, where the value is one.
pub fn listed(value: &Value) -> Option<&[Value]>
    ensures { option_map (λ vs. map value_content vs.now) result ≡ list_in (value_content value.now) }
{
    match value {
        Value::List(values) => Some(values.as_slice()),
        _ => None,
    }
}

/// What the document says in a field that may be absent.
pub fn optional<T: FieldValue>(
    alloc: Global,
    doc: &Doc,
    name: &'static str,
) -> Result<Option<T>, HelloError>
    ensures { Gives result (optional_in T.value_in name.now (named name.now (doc_content doc.now))) }
{
    match field(doc, name) {
        None => Ok(None),
        Some(value) => match T::from_value(alloc, value)? {
            None => Err(HelloError::BadField(name)),
            Some(x) => Ok(Some(x)),
        },
    }
}

/// What the document says in a field that each document has.
pub fn required<T: FieldValue>(
    alloc: Global,
    doc: &Doc,
    name: &'static str,
) -> Result<T, HelloError>
    ensures { Gives result (required_in T.value_in name.now (named name.now (doc_content doc.now))) }
{
    match field(doc, name) {
        None => Err(HelloError::BadField(name)),
        Some(value) => match T::from_value(alloc, value)? {
            None => Err(HelloError::BadField(name)),
            Some(x) => Ok(x),
        },
    }
}

/// Adds a field at the end, where it is there.
pub fn push_optional<T: FieldValue>(
    alloc: Global,
    fields: &mut Vec<(String, Value)>,
    name: &str,
    value: &Option<T>,
) -> Result<(), OutOfMemory>
    ensures { OnOk result (map named_content fields.new.items ≡ map named_content fields.old.items ++ optional_field T.content name.now value.now) }
{
    match value {
        Some(x) => push_field(alloc, fields, name, x.to_value(alloc)?),
        None => Ok(()),
    }
}

/// Adds a field at the end.
pub fn push_required<T: FieldValue>(
    alloc: Global,
    fields: &mut Vec<(String, Value)>,
    name: &str,
    value: &T,
) -> Result<(), OutOfMemory>
    ensures { OnOk result (map named_content fields.new.items ≡ map named_content fields.old.items ++ (name.now, T.content value.now) ∷ []) }
{
    push_field(alloc, fields, name, value.to_value(alloc)?)
}
