//! Values in which no document stands.

ghost use Rattle.std.specs.Prelude.{◌≡◌, option_map};
ghost use Rattle.mdb_base.specs.Document.{value_content};
ghost use Rattle.mdb_bson.specs.Reading.{Gives, truth, id, date, text_value, int32_value, int64_value, passed, binary, regex, pointer, code};

use crate::fault::{Fault, Stop};
use crate::front::{front, int32, int64, length_at};
use crate::text::{name, string};
use mdb_base::{DateTime, ObjectId, Value};
use std::alloc::Global;

/// A truth value: the byte 0 or 1.
#[tactic(auto, unfolding(crate::specs::Reading::truth))]
pub fn truth(bytes: &[u8]) -> Result<(Option<Value>, &[u8]), Stop>
    ensures { Gives (λ x. (option_map value_content x.0, x.1.now)) result (truth bytes.now) }
{
    match bytes {
        [] => Err(Stop::Bad(Fault::Short, 0)),
        [0, rest @ ..] => Ok((Some(Value::Bool(false)), rest)),
        [1, rest @ ..] => Ok((Some(Value::Bool(true)), rest)),
        [_, ..] => Err(Stop::Bad(Fault::Bool, bytes.len())),
    }
}

/// An id of twelve bytes.
#[tactic(auto, unfolding(crate::specs::Reading::id))]
pub fn id(bytes: &[u8]) -> Result<(Option<Value>, &[u8]), Stop>
    ensures { Gives (λ x. (option_map value_content x.0, x.1.now)) result (id bytes.now) }
{
    let (own, rest) = front(bytes, 12)?;
    let id = ObjectId([
        own[0], own[1], own[2], own[3], own[4], own[5], own[6], own[7], own[8], own[9], own[10],
        own[11],
    ]);
    Ok((Some(Value::Id(id)), rest))
}

/// A time.
#[tactic(auto, unfolding(crate::specs::Reading::date))]
pub fn date(bytes: &[u8]) -> Result<(Option<Value>, &[u8]), Stop>
    ensures { Gives (λ x. (option_map value_content x.0, x.1.now)) result (date bytes.now) }
{
    let (time, rest) = int64(bytes)?;
    Ok((Some(Value::Date(DateTime(time))), rest))
}

/// A text.
#[tactic(auto, unfolding(crate::specs::Reading::text_value))]
pub fn text_value(alloc: Global, bytes: &[u8]) -> Result<(Option<Value>, &[u8]), Stop>
    ensures { Gives (λ x. (option_map value_content x.0, x.1.now)) result (text_value bytes.now) }
{
    let (text, rest) = string(bytes)?;
    let own = String::from_str(alloc, text)?;
    Ok((Some(Value::Text(own)), rest))
}

/// A number of four bytes.
#[tactic(auto, unfolding(crate::specs::Reading::int32_value))]
pub fn int32_value(bytes: &[u8]) -> Result<(Option<Value>, &[u8]), Stop>
    ensures { Gives (λ x. (option_map value_content x.0, x.1.now)) result (int32_value bytes.now) }
{
    let (number, rest) = int32(bytes)?;
    Ok((Some(Value::Int(number as i64)), rest))
}

/// A number of eight bytes.
#[tactic(auto, unfolding(crate::specs::Reading::int64_value))]
pub fn int64_value(bytes: &[u8]) -> Result<(Option<Value>, &[u8]), Stop>
    ensures { Gives (λ x. (option_map value_content x.0, x.1.now)) result (int64_value bytes.now) }
{
    let (number, rest) = int64(bytes)?;
    Ok((Some(Value::Int(number)), rest))
}

/// A value of so many bytes, passed over.
#[tactic(auto, unfolding(crate::specs::Reading::passed))]
pub fn passed(bytes: &[u8], count: usize) -> Result<(Option<Value>, &[u8]), Stop>
    ensures { Gives (λ x. (option_map value_content x.0, x.1.now)) result (passed count bytes.now) }
{
    let (_, rest) = front(bytes, count)?;
    Ok((None, rest))
}

/// Bytes behind their number and a subtype, passed over.
#[tactic(auto, unfolding(crate::specs::Reading::binary))]
pub fn binary(bytes: &[u8]) -> Result<(Option<Value>, &[u8]), Stop>
    ensures { Gives (λ x. (option_map value_content x.0, x.1.now)) result (binary bytes.now) }
{
    let (count, rest) = length_at(bytes)?;
    if rest.len() <= count as usize {
        return Err(Stop::Bad(Fault::Length, bytes.len()));
    }
    passed(rest, count as usize + 1)
}

/// A pattern and its options, passed over.
#[tactic(auto, unfolding(crate::specs::Reading::regex))]
pub fn regex(bytes: &[u8]) -> Result<(Option<Value>, &[u8]), Stop>
    ensures { Gives (λ x. (option_map value_content x.0, x.1.now)) result (regex bytes.now) }
{
    let (_, rest) = name(bytes)?;
    let (_, rest) = name(rest)?;
    Ok((None, rest))
}

/// A text and an id, passed over.
#[tactic(auto, unfolding(crate::specs::Reading::pointer))]
pub fn pointer(bytes: &[u8]) -> Result<(Option<Value>, &[u8]), Stop>
    ensures { Gives (λ x. (option_map value_content x.0, x.1.now)) result (pointer bytes.now) }
{
    let (_, rest) = string(bytes)?;
    passed(rest, 12)
}

/// A text that is code or a symbol, passed over.
#[tactic(auto, unfolding(crate::specs::Reading::code))]
pub fn code(bytes: &[u8]) -> Result<(Option<Value>, &[u8]), Stop>
    ensures { Gives (λ x. (option_map value_content x.0, x.1.now)) result (code bytes.now) }
{
    let (_, rest) = string(bytes)?;
    Ok((None, rest))
}
