//! Documents, as commands and replies carry them.

use crate::object_id::ObjectId;
use crate::times::DateTime;

/// The value of a field.
#[cycle(document)]
#[derive(Debug, Drop)]
pub enum Value {
    Int(i64),
    Bool(bool),
    Text(String),
    List(Vec<Value>),
    Id(ObjectId),
    Date(DateTime),
    Nested(Doc),
}

/// Named fields in order. A name may come again.
#[cycle(document)]
#[derive(Debug, Drop)]
pub struct Doc {
    pub fields: Vec<(String, Value)>,
}
