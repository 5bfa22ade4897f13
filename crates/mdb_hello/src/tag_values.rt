//! Tags, as a reply's document has them.

ghost use Rattle.std.specs.Prelude.{◌≡◌, IfOk, OnOk, is_some, map, []};
ghost use Rattle.mdb_base.specs.Document.{doc_content, named_content};
ghost use Rattle.mdb_hello.specs.Kinds.{put_tag, put_tags};

use crate::field::{FieldValue, nested, text_of};
use crate::making::{nest, push_field};
use mdb_base::{Doc, Items, OutOfMemory, TagSet, Text, Value};
use std::alloc::Global;
use std::cmp::Ordering;

impl FieldValue for TagSet {
    ghost use Rattle.mdb_hello.specs.Kinds.{tags_in, tags_content};

    ghost value_in = { tags_in };

    ghost content = { tags_content };

    fn fits(value: &Value) -> bool {
        match nested(value) {
            Some(doc) => are_tags(doc),
            None => false,
        }
    }

    fn from_value(alloc: Global, value: &Value) -> Result<Option<TagSet>, OutOfMemory> {
        match nested(value) {
            Some(doc) => tags_of(alloc, doc),
            None => Ok(None),
        }
    }

    fn to_value(&self, alloc: Global) -> Result<Value, OutOfMemory> {
        let mut fields = Vec::new(alloc);
        for (name, value) in self.as_slice() {
            let text = String::from_str(alloc, value.as_str())?;
            push_field(alloc, &mut fields, name.as_str(), Value::Text(text))?;
        }
        Ok(nest(fields))
    }
}

fn are_tags(doc: &Doc) -> bool
    ensures { result ≡ is_some (put_tags [] (doc_content doc.now)) }
{
    hold_texts(doc.fields.as_slice())
}

// Whether each of the fields is a text.
fn hold_texts(fields: &[(String, Value)]) -> bool
    ensures { result ≡ is_some (put_tags [] (map named_content fields.now)) }
{
    let mut rest = fields;
    while let [(_, value), more @ ..] = rest {
        if text_of(value).is_none() {
            return false;
        }
        rest = more;
    }
    true
}

fn tags_of(alloc: Global, doc: &Doc) -> Result<Option<TagSet>, OutOfMemory>
    ensures { IfOk result (λ found. found ≡ put_tags [] (doc_content doc.now)) }
{
    tags_of_fields(alloc, doc.fields.as_slice())
}

// The tags, where each of the fields is a text. Of repeated names the first counts.
fn tags_of_fields(alloc: Global, fields: &[(String, Value)]) -> Result<Option<TagSet>, OutOfMemory>
    ensures { IfOk result (λ found. found ≡ put_tags [] (map named_content fields.now)) }
{
    let mut tags = Vec::new(alloc);
    let mut at = fields.len();
    while at > 0 {
        at -= 1;
        let (name, value) = &fields[at];
        let Some(text) = text_of(value) else {
            return Ok(None);
        };
        let text = Text::new(String::from_str(alloc, text)?);
        put(&mut tags, Text::new(name.clone()?), text)?;
    }
    Ok(TagSet::new(Items::new(tags)))
}

// Puts a tag in its place by name, or its value in place of that of the same name.
fn put(tags: &mut Vec<(Text, Text)>, name: Text, value: Text) -> Result<(), OutOfMemory>
    ensures { OnOk result (tags.new.items ≡ put_tag (name, value) tags.old.items) }
{
    for at in 0..tags.len() {
        match name.as_str().cmp(tags[at].0.as_str()) {
            Ordering::Less => {
                tags.insert(at, (name, value))?;
                return Ok(());
            }
            Ordering::Equal => {
                tags[at].1 = value;
                return Ok(());
            }
            Ordering::Greater => {}
        }
    }
    tags.push((name, value))?;
    Ok(())
}
