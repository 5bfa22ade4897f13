//! Making documents.

ghost use Rattle.std.specs.Prelude.{◌≡◌, ◌++◌, ◌∷◌, [], OnOk, map};
ghost use Rattle.mdb_base.specs.Document.{value_content, doc_content, named_content, nested, list, fields_of, contents_of};

use mdb_base::{Doc, OutOfMemory, Value};
use std::alloc::Global;

/// Adds a field at the end.
pub fn push_field(
    alloc: Global,
    fields: &mut Vec<(String, Value)>,
    name: &str,
    value: Value,
) -> Result<(), OutOfMemory>
    ensures { OnOk result (map named_content fields.new.items ≡ map named_content fields.old.items ++ (name.now, value_content value) ∷ []) }
{
    let name = String::from_str(alloc, name)?;
    fields.push((name, value))?;
    Ok(())
}

/// A document of these fields.
pub fn doc_of(fields: Vec<(String, Value)>) -> Doc
    ensures { doc_content result ≡ map named_content fields.items }
{
    Doc { fields }
}

/// A document of these fields, as a value.
pub fn nest(fields: Vec<(String, Value)>) -> Value
    ensures { value_content result ≡ nested (fields_of (map named_content fields.items)) }
{
    Value::Nested(Doc { fields })
}

/// A list of these values, as a value.
pub fn list_of(values: Vec<Value>) -> Value
    ensures { value_content result ≡ list (contents_of (map value_content values.items)) }
{
    Value::List(values)
}
