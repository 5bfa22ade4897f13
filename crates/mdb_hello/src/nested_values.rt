//! The values of a reply's fields that stand in a document as lists and as documents of their own.

ghost use Rattle.std.specs.Prelude.{◌≡◌, IfOk, is_some, option_map, map};
ghost use Rattle.mdb_base.specs.Document.{value_content, doc_content};
ghost use Rattle.mdb_hello.specs.Kinds.{all_texts, last_write_of, version_of};

use crate::field::{FieldValue, field, listed, nested, text_of};
use crate::making::{list_of, nest, push_field};
use crate::response::LastWrite;
use mdb_base::{Doc, Items, OutOfMemory, Text, TopologyVersion, Value};
use std::alloc::Global;

impl FieldValue for LastWrite {
    ghost use Rattle.mdb_hello.specs.Kinds.{last_write_in, last_write_content};

    ghost value_in = { last_write_in };

    ghost content = { last_write_content };

    fn fits(value: &Value) -> bool {
        match nested(value) {
            Some(doc) => last_write_of(doc).is_some(),
            None => false,
        }
    }

    fn from_value(_alloc: Global, value: &Value) -> Result<Option<LastWrite>, OutOfMemory> {
        match nested(value) {
            Some(doc) => Ok(last_write_of(doc)),
            None => Ok(None),
        }
    }

    fn to_value(&self, alloc: Global) -> Result<Value, OutOfMemory> {
        let mut fields = Vec::new(alloc);
        push_field(
            alloc,
            &mut fields,
            "lastWriteDate",
            Value::Date(self.last_write_date),
        )?;
        Ok(nest(fields))
    }
}

fn last_write_of(doc: &Doc) -> Option<LastWrite>
    ensures { result ≡ last_write_of (doc_content doc.now) }
{
    match field(doc, "lastWriteDate") {
        Some(Value::Date(date)) => Some(LastWrite {
            last_write_date: *date,
        }),
        _ => None,
    }
}

impl FieldValue for TopologyVersion {
    ghost use Rattle.mdb_hello.specs.Kinds.{version_in, version_content};

    ghost value_in = { version_in };

    ghost content = { version_content };

    fn fits(value: &Value) -> bool {
        match nested(value) {
            Some(doc) => version_of(doc).is_some(),
            None => false,
        }
    }

    fn from_value(_alloc: Global, value: &Value) -> Result<Option<TopologyVersion>, OutOfMemory> {
        match nested(value) {
            Some(doc) => Ok(version_of(doc)),
            None => Ok(None),
        }
    }

    fn to_value(&self, alloc: Global) -> Result<Value, OutOfMemory> {
        let mut fields = Vec::new(alloc);
        push_field(alloc, &mut fields, "processId", Value::Id(self.process_id))?;
        push_field(alloc, &mut fields, "counter", Value::Int(self.counter))?;
        Ok(nest(fields))
    }
}

fn version_of(doc: &Doc) -> Option<TopologyVersion>
    ensures { result ≡ version_of (doc_content doc.now) }
{
    match (field(doc, "processId"), field(doc, "counter")) {
        (Some(Value::Id(process_id)), Some(Value::Int(counter))) => Some(TopologyVersion {
            process_id: *process_id,
            counter: *counter,
        }),
        _ => None,
    }
}

impl FieldValue for Items<Text> {
    ghost use Rattle.mdb_hello.specs.Kinds.{texts_in, texts_content};

    ghost value_in = { texts_in };

    ghost content = { texts_content };

    fn fits(value: &Value) -> bool {
        match listed(value) {
            Some(values) => are_texts(values),
            None => false,
        }
    }

    fn from_value(alloc: Global, value: &Value) -> Result<Option<Items<Text>>, OutOfMemory> {
        match listed(value) {
            Some(values) => match texts_of(alloc, values)? {
                Some(texts) => Ok(Some(Items::new(texts))),
                None => Ok(None),
            },
            None => Ok(None),
        }
    }

    fn to_value(&self, alloc: Global) -> Result<Value, OutOfMemory> {
        let mut values = Vec::new(alloc);
        for text in self.as_slice() {
            values.push(Value::Text(String::from_str(alloc, text.as_str())?))?;
        }
        Ok(list_of(values))
    }
}

// Whether each of the values is a text.
fn are_texts(values: &[Value]) -> bool
    ensures { result ≡ is_some (all_texts (map value_content values.now)) }
{
    let mut rest = values;
    while let [value, more @ ..] = rest {
        if text_of(value).is_none() {
            return false;
        }
        rest = more;
    }
    true
}

// The texts, where each of the values is one.
fn texts_of(alloc: Global, values: &[Value]) -> Result<Option<Vec<Text>>, OutOfMemory>
    ensures { IfOk result (λ found. option_map (λ texts. texts.items) found ≡ all_texts (map value_content values.now)) }
{
    let mut texts = Vec::new(alloc);
    let mut rest = values;
    while let [value, more @ ..] = rest {
        let Some(text) = text_of(value) else {
            return Ok(None);
        };
        texts.push(Text::new(String::from_str(alloc, text)?))?;
        rest = more;
    }
    Ok(Some(texts))
}
