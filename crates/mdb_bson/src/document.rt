//! Documents, and the values in which they stand.

ghost use Rattle.std.specs.Prelude.{◌≡◌, map, option_map};
ghost use Rattle.mdb_base.specs.Document.{value_content, named_content};
ghost use Rattle.mdb_bson.specs.Reading.{Gives, found, document, framed, value, value_of, element, elements, last, nested_value, list_value, scoped};

use crate::fault::{Fault, Stop};
use crate::front::{first, length_at};
use crate::kind::{Kind, kind_of};
use crate::making::{field, list_of, nest, push_found, values_of};
use crate::plain::{
    binary, code, date, id, int32_value, int64_value, passed, pointer, regex, text_value, truth,
};
use crate::text::{name, string};
use mdb_base::Value;
use std::alloc::Global;

/// The fields of a document, where so many documents may stand within one another.
#[cycle(document)]
#[tactic(auto, unfolding(crate::specs::Reading::document))]
pub fn document(
    alloc: Global,
    depth: usize,
    bytes: &[u8],
) -> Result<(Vec<(String, Value)>, &[u8]), Stop>
    ensures { Gives (λ x. (map named_content x.0.items, x.1.now)) result (document depth bytes.now) }
{
    if depth == 0 {
        Err(Stop::Bad(Fault::Depth, bytes.len()))
    } else {
        framed(alloc, depth - 1, bytes)
    }
}

// A length, and the fields, in which so many documents may stand within one another.
#[cycle(document)]
#[tactic(auto, unfolding(crate::specs::Reading::framed))]
fn framed(alloc: Global, depth: usize, bytes: &[u8]) -> Result<(Vec<(String, Value)>, &[u8]), Stop>
    ensures { Gives (λ x. (map named_content x.0.items, x.1.now)) result (framed (document depth) bytes.now) }
{
    let (count, rest) = length_at(bytes)?;
    let count = count as usize;
    if count < 5 || bytes.len() < count {
        return Err(Stop::Bad(Fault::Length, bytes.len()));
    }
    elements(alloc, depth, bytes.len() - count, rest)
}

// The fields up to the zero byte, behind which so many bytes stand.
#[cycle(document)]
fn elements(
    alloc: Global,
    depth: usize,
    end: usize,
    bytes: &[u8],
) -> Result<(Vec<(String, Value)>, &[u8]), Stop>
    ensures { Gives (λ x. (map named_content x.0.items, x.1.now)) result (elements (document depth) end bytes.now bytes.now) }
{
    let mut fields = Vec::new(alloc);
    let mut rest = bytes;
    for _ in bytes {
        let Some((number, after)) = first(rest) else {
            return Err(Stop::Bad(Fault::Zero, 0));
        };
        if number == 0 {
            return last(fields, end, after);
        }
        let (field, after) = element(alloc, depth, end, number, after)?;
        push_found(&mut fields, field)?;
        rest = after;
    }
    Err(Stop::Bad(Fault::Zero, rest.len()))
}

// All fields, where so many bytes stand behind the last zero byte.
#[tactic(auto, unfolding(crate::specs::Reading::last))]
fn last(
    fields: Vec<(String, Value)>,
    end: usize,
    rest: &[u8],
) -> Result<(Vec<(String, Value)>, &[u8]), Stop>
    ensures { Gives (λ x. (map named_content x.0.items, x.1.now)) result (last (map named_content fields.items) end rest.now) }
{
    if rest.len() == end {
        Ok((fields, rest))
    } else {
        Err(Stop::Bad(Fault::Zero, rest.len() + 1))
    }
}

// A name and a value of this type, that end before their document does.
#[cycle(document)]
#[tactic(auto, unfolding(crate::specs::Reading::element))]
fn element(
    alloc: Global,
    depth: usize,
    end: usize,
    number: u8,
    bytes: &[u8],
) -> Result<(Option<(String, Value)>, &[u8]), Stop>
    ensures { Gives (λ x. (found x.0, x.1.now)) result (element (document depth) end number bytes.now) }
{
    let (own, rest) = name(bytes)?;
    let (value, rest) = value(alloc, depth, number, rest)?;
    if end < rest.len() {
        Ok((field(alloc, own, value)?, rest))
    } else {
        Err(Stop::Bad(Fault::Past, bytes.len() + 1))
    }
}

#[cycle(document)]
#[tactic(auto, unfolding(crate::specs::Reading::value))]
fn value(
    alloc: Global,
    depth: usize,
    number: u8,
    bytes: &[u8],
) -> Result<(Option<Value>, &[u8]), Stop>
    ensures { Gives (λ x. (option_map value_content x.0, x.1.now)) result (value (document depth) number bytes.now) }
{
    match kind_of(number) {
        Some(kind) => value_of(alloc, depth, kind, bytes),
        None => Err(Stop::Bad(Fault::Kind, bytes.len())),
    }
}

#[cycle(document)]
#[tactic(auto, unfolding(crate::specs::Reading::value_of))]
fn value_of(
    alloc: Global,
    depth: usize,
    kind: Kind,
    bytes: &[u8],
) -> Result<(Option<Value>, &[u8]), Stop>
    ensures { Gives (λ x. (option_map value_content x.0, x.1.now)) result (value_of (document depth) kind bytes.now) }
{
    match kind {
        Kind::Text => text_value(alloc, bytes),
        Kind::Document => nested_value(alloc, depth, bytes),
        Kind::List => list_value(alloc, depth, bytes),
        Kind::Binary => binary(bytes),
        Kind::Id => id(bytes),
        Kind::Bool => truth(bytes),
        Kind::Date => date(bytes),
        Kind::Regex => regex(bytes),
        Kind::Pointer => pointer(bytes),
        Kind::Code => code(bytes),
        Kind::Scoped => scoped(alloc, depth, bytes),
        Kind::Int32 => int32_value(bytes),
        Kind::Int64 => int64_value(bytes),
        Kind::Passed(count) => passed(bytes, count),
    }
}

// A document within another.
#[cycle(document)]
#[tactic(auto, unfolding(crate::specs::Reading::nested_value))]
fn nested_value(alloc: Global, depth: usize, bytes: &[u8]) -> Result<(Option<Value>, &[u8]), Stop>
    ensures { Gives (λ x. (option_map value_content x.0, x.1.now)) result (nested_value (document depth) bytes.now) }
{
    let (fields, rest) = document(alloc, depth, bytes)?;
    Ok((Some(nest(fields)), rest))
}

// A list: a document whose names say nothing.
#[cycle(document)]
#[tactic(auto, unfolding(crate::specs::Reading::list_value))]
fn list_value(alloc: Global, depth: usize, bytes: &[u8]) -> Result<(Option<Value>, &[u8]), Stop>
    ensures { Gives (λ x. (option_map value_content x.0, x.1.now)) result (list_value (document depth) bytes.now) }
{
    let (fields, rest) = document(alloc, depth, bytes)?;
    let values = values_of(alloc, fields)?;
    Ok((Some(list_of(values)), rest))
}

// Code with the values of its names, behind the length of all of it, passed over.
#[cycle(document)]
#[tactic(auto, unfolding(crate::specs::Reading::scoped))]
fn scoped(alloc: Global, depth: usize, bytes: &[u8]) -> Result<(Option<Value>, &[u8]), Stop>
    ensures { Gives (λ x. (option_map value_content x.0, x.1.now)) result (scoped (document depth) bytes.now) }
{
    let (count, rest) = length_at(bytes)?;
    let (_, rest) = string(rest)?;
    let (_, rest) = document(alloc, depth, rest)?;
    if bytes.len().saturating_sub(rest.len()) == count as usize {
        Ok((None, rest))
    } else {
        Err(Stop::Bad(Fault::Length, bytes.len()))
    }
}
