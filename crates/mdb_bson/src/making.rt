//! Making values.

ghost use Rattle.std.specs.Prelude.{◌≡◌, ◌++◌, IfOk, OnOk, map, option_map};
ghost use Rattle.mdb_base.specs.Document.{value_content, named_content, nested, list, fields_of, contents_of};
ghost use Rattle.mdb_bson.specs.Reading.{found, field_of, values_of};

use mdb_base::{Doc, Value};
use std::alloc::{AllocError, Global};

/// A document of these fields, as a value.
pub fn nest(fields: Vec<(String, Value)>) -> Value
    ensures { value_content result ≡ nested (fields_of (map named_content fields.items)) }
{
    Value::Nested(Doc { fields })
}

/// A list of these values, as a value.
pub fn list_of(values: Vec<Value>) -> Value
    ensures { value_content result ≡ list (contents_of (map value_content values.items)) }
{
    Value::List(values)
}

/// The values of the fields, in their order.
pub fn values_of(alloc: Global, fields: Vec<(String, Value)>) -> Result<Vec<Value>, AllocError>
    ensures { IfOk result (λ values. map value_content values.items ≡ values_of (map named_content fields.items)) }
{
    let mut rest = fields;
    let mut values = Vec::with_capacity(alloc, rest.len())?;
    while let Some((_, value)) = rest.pop() {
        values.push(value)?;
    }
    values.reverse();
    Ok(values)
}

/// The field of this name, where there is a value.
pub fn field(
    alloc: Global,
    name: &str,
    value: Option<Value>,
) -> Result<Option<(String, Value)>, AllocError>
    ensures { IfOk result (λ field. found field ≡ field_of name.now (option_map value_content value)) }
{
    match value {
        Some(value) => Ok(Some((String::from_str(alloc, name)?, value))),
        None => Ok(None),
    }
}

/// Adds a field at the end, where there is one.
pub fn push_found(
    fields: &mut Vec<(String, Value)>,
    field: Option<(String, Value)>,
) -> Result<(), AllocError>
    ensures { OnOk result (map named_content fields.new.items ≡ map named_content fields.old.items ++ found field) }
{
    if let Some(field) = field {
        fields.push(field)?;
    }
    Ok(())
}
