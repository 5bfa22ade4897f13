//! The values of a reply's fields that stand in a document as they are.

ghost use Rattle.std.specs.Prelude.{◌≡◌, ◌-◌, ◌^◌, min, pos};
ghost use Rattle.mdb_hello.specs.Kinds.{small_number, count_of};

use crate::field::{FieldValue, nested, text_of};
use mdb_base::{Document, ObjectId, OutOfMemory, Text, Value};
use std::alloc::Global;

impl FieldValue for bool {
    ghost use Rattle.mdb_base.specs.Document.{boolean};
    ghost use Rattle.mdb_hello.specs.Kinds.{flag_in};

    ghost value_in = { flag_in };

    ghost content = { boolean };

    fn fits(value: &Value) -> bool {
        matches!(value, Value::Bool(_))
    }

    fn from_value(_alloc: Global, value: &Value) -> Result<Option<bool>, OutOfMemory> {
        match value {
            Value::Bool(answer) => Ok(Some(*answer)),
            _ => Ok(None),
        }
    }

    fn to_value(&self, _alloc: Global) -> Result<Value, OutOfMemory> {
        Ok(Value::Bool(*self))
    }
}

impl FieldValue for Text {
    ghost use Rattle.mdb_base.specs.Document.{text};
    ghost use Rattle.mdb_hello.specs.Kinds.{text_in};

    ghost value_in = { text_in };

    ghost content = { text };

    fn fits(value: &Value) -> bool {
        text_of(value).is_some()
    }

    fn from_value(alloc: Global, value: &Value) -> Result<Option<Text>, OutOfMemory> {
        match text_of(value) {
            Some(text) => Ok(Some(Text::new(String::from_str(alloc, text)?))),
            None => Ok(None),
        }
    }

    fn to_value(&self, alloc: Global) -> Result<Value, OutOfMemory> {
        let text = String::from_str(alloc, self.as_str())?;
        Ok(Value::Text(text))
    }
}

impl FieldValue for i64 {
    ghost use Rattle.mdb_base.specs.Document.{int};
    ghost use Rattle.mdb_hello.specs.Kinds.{number_in};

    ghost value_in = { number_in };

    ghost content = { int };

    fn fits(value: &Value) -> bool {
        matches!(value, Value::Int(_))
    }

    fn from_value(_alloc: Global, value: &Value) -> Result<Option<i64>, OutOfMemory> {
        match value {
            Value::Int(n) => Ok(Some(*n)),
            _ => Ok(None),
        }
    }

    fn to_value(&self, _alloc: Global) -> Result<Value, OutOfMemory> {
        Ok(Value::Int(*self))
    }
}

impl FieldValue for i32 {
    ghost use Rattle.mdb_base.specs.Document.{int};
    ghost use Rattle.mdb_hello.specs.Kinds.{small_number_in};

    ghost value_in = { small_number_in };

    ghost content = { int };

    fn fits(value: &Value) -> bool {
        match value {
            Value::Int(n) => small(*n).is_some(),
            _ => false,
        }
    }

    fn from_value(_alloc: Global, value: &Value) -> Result<Option<i32>, OutOfMemory> {
        match value {
            Value::Int(n) => Ok(small(*n)),
            _ => Ok(None),
        }
    }

    fn to_value(&self, _alloc: Global) -> Result<Value, OutOfMemory> {
        Ok(Value::Int(*self as i64))
    }
}

// The number in 32 bits, where it fits.
fn small(n: i64) -> Option<i32>
    ensures { result ≡ small_number n }
{
    if n < -2_147_483_648 || n > 2_147_483_647 {
        None
    } else {
        Some(n as i32)
    }
}

impl FieldValue for u64 {
    ghost use Rattle.mdb_hello.specs.Kinds.{count_in, count_content};

    ghost value_in = { count_in };

    ghost content = { count_content };

    fn fits(value: &Value) -> bool {
        match value {
            Value::Int(n) => count(*n).is_some(),
            _ => false,
        }
    }

    fn from_value(_alloc: Global, value: &Value) -> Result<Option<u64>, OutOfMemory> {
        match value {
            Value::Int(n) => Ok(count(*n)),
            _ => Ok(None),
        }
    }

    fn to_value(&self, _alloc: Global) -> Result<Value, OutOfMemory> {
        Ok(Value::Int(capped(*self)))
    }
}

// The number without its sign, where it is at least 0.
fn count(n: i64) -> Option<u64>
    ensures { result ≡ count_of n }
{
    if n < 0 { None } else { Some(n as u64) }
}

/// The number, or the greatest one with a sign.
pub fn capped(n: u64) -> i64
    ensures { result ≡ pos (min n (2 ^ 63 - 1)) }
{
    n.min(9_223_372_036_854_775_807) as i64
}

impl FieldValue for ObjectId {
    ghost use Rattle.mdb_base.specs.Document.{id};
    ghost use Rattle.mdb_hello.specs.Kinds.{id_in};

    ghost value_in = { id_in };

    ghost content = { id };

    fn fits(value: &Value) -> bool {
        matches!(value, Value::Id(_))
    }

    fn from_value(_alloc: Global, value: &Value) -> Result<Option<ObjectId>, OutOfMemory> {
        match value {
            Value::Id(id) => Ok(Some(*id)),
            _ => Ok(None),
        }
    }

    fn to_value(&self, _alloc: Global) -> Result<Value, OutOfMemory> {
        Ok(Value::Id(*self))
    }
}

impl FieldValue for Document {
    ghost use Rattle.mdb_hello.specs.Kinds.{document_in, document_content};

    ghost value_in = { document_in };

    ghost content = { document_content };

    fn fits(value: &Value) -> bool {
        nested(value).is_some()
    }

    fn from_value(_alloc: Global, value: &Value) -> Result<Option<Document>, OutOfMemory> {
        match nested(value) {
            Some(doc) => Ok(Some(Document::new(doc.clone()?))),
            None => Ok(None),
        }
    }

    fn to_value(&self, _alloc: Global) -> Result<Value, OutOfMemory> {
        Ok(Value::Nested(self.as_doc().clone()?))
    }
}
