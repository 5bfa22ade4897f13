//! `clone` of documents, written out since a derived one says nothing of a type that holds itself.

ghost use Rattle.std.specs.Prelude.{◌≡◌, IfOk, map};
ghost use Rattle.mdb_base.specs.Document.{value_content, doc_content, named_content};

use crate::document::{Doc, Value};
use std::alloc::AllocError;

impl Clone for Value {
    ghost is_clone = { λ v w. value_content w ≡ value_content v };

    fn clone(&self) -> Result<Value, AllocError> {
        copy_value(self)
    }
}

impl Clone for Doc {
    ghost is_clone = { λ d e. doc_content e ≡ doc_content d };

    fn clone(&self) -> Result<Doc, AllocError> {
        copy_doc(self)
    }
}

#[cycle(copy)]
fn copy_value(value: &Value) -> Result<Value, AllocError>
    ensures { IfOk result (λ v. value_content v ≡ value_content value.now) }
{
    match value {
        Value::Int(n) => Ok(Value::Int(*n)),
        Value::Bool(b) => Ok(Value::Bool(*b)),
        Value::Text(text) => Ok(Value::Text(text.clone()?)),
        Value::List(values) => Ok(Value::List(copy_values(values)?)),
        Value::Id(id) => Ok(Value::Id(*id)),
        Value::Date(date) => Ok(Value::Date(*date)),
        Value::Nested(doc) => Ok(Value::Nested(copy_doc(doc)?)),
    }
}

#[cycle(copy)]
fn copy_values(values: &Vec<Value>) -> Result<Vec<Value>, AllocError>
    ensures { IfOk result (λ v. map value_content v.items ≡ map value_content values.now.items) }
{
    let mut copies = Vec::with_capacity(*values.allocator(), values.len())?;
    for value in values {
        copies.push(copy_value(value)?)?;
    }
    Ok(copies)
}

#[cycle(copy)]
fn copy_doc(doc: &Doc) -> Result<Doc, AllocError>
    ensures { IfOk result (λ d. doc_content d ≡ doc_content doc.now) }
{
    let fields = copy_fields(&doc.fields)?;
    Ok(Doc { fields })
}

#[cycle(copy)]
fn copy_fields(fields: &Vec<(String, Value)>) -> Result<Vec<(String, Value)>, AllocError>
    ensures { IfOk result (λ v. map named_content v.items ≡ map named_content fields.now.items) }
{
    let mut copies = Vec::with_capacity(*fields.allocator(), fields.len())?;
    for (name, value) in fields {
        copies.push((name.clone()?, copy_value(value)?))?;
    }
    Ok(copies)
}
