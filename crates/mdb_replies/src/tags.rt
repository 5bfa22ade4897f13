//! Reading tags.

ghost use Rattle.std.specs.Prelude.{◌≡◌, ◌<◌, List, length, true};
ghost use Rattle.std.specs.List.{list_all};
ghost use Rattle.mdb_base.specs.Tags.{Tag};
ghost use Rattle.mdb_parts.specs.Reading.{Gives};
ghost use Rattle.mdb_replies.specs.Values.{tag_text, tags_text, is_tag, are_tags};

use mdb_base::{Items, TagSet, Text, cut};
use mdb_parts::LineError;
use mdb_parts::texts::text;
use mdb_parts::words::last;
use std::alloc::Global;

fn tag(alloc: Global, word: &str) -> Result<(Text, Text), LineError>
    ensures { (t : Tag) → is_tag t ≡ true → word.now ≡ tag_text t → Gives t result }
{
    let (name, rest) = cut(word, ':');
    let value = last(rest, ":")?;
    let name = text(alloc, name)?;
    let value = text(alloc, value)?;
    Ok((name, value))
}

// Tags with commas between them.
fn pairs(alloc: Global, word: &str) -> Result<Items<(Text, Text)>, LineError>
    ensures { (all : List Tag) → 0 < length all → list_all is_tag all ≡ true → word.now ≡ tags_text all → Gives all result }
{
    let mut found = Vec::new(alloc);
    let mut rest = word;
    while let Some((first, more)) = rest.split_once(',') {
        let tag = tag(alloc, first)?;
        found.push(tag)?;
        rest = more;
    }
    let tag = tag(alloc, rest)?;
    found.push(tag)?;
    Ok(Items::new(found))
}

/// Tags by name, with commas between them.
pub fn tags_word(alloc: Global, word: &str) -> Result<TagSet, LineError>
    ensures { (all : List Tag) → are_tags all ≡ true → word.now ≡ tags_text all → Gives all result }
{
    let pairs = pairs(alloc, word)?;
    match TagSet::new(pairs) {
        Some(tags) => Ok(tags),
        None => Err(LineError::Bad),
    }
}
