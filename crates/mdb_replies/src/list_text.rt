//! The text of optional lists of a reply, with commas between the values.

use mdb_base::{Items, TagSet, Text};
use std::fmt;

// Texts with commas between them.
#[derive(Drop)]
struct Texts<'a>(&'a [Text]);

impl fmt::Display for Texts<'_> {
    ghost use Rattle.std.specs.Prelude.{Some};
    ghost use Rattle.mdb_parts.specs.Parts.{texts};

    ghost output = { λ x. Some (texts x.0.now) };

    fn fmt<W: fmt::Write>(&self, f: &mut fmt::Formatter<W>) -> fmt::Result {
        match self.0 {
            [] => Ok(()),
            [first, more @ ..] => {
                write!(f, "{first}")?;
                for text in more {
                    write!(f, ",{text}")?;
                }
                Ok(())
            }
        }
    }
}

/// Texts behind a name.
#[derive(Drop)]
pub struct TextsPart<'a>(pub &'static str, pub &'a Option<Items<Text>>);

impl fmt::Display for TextsPart<'_> {
    ghost use Rattle.std.specs.Prelude.{Some, option_map};
    ghost use Rattle.mdb_parts.specs.Parts.{part_text, texts};

    ghost output = { λ x. Some (part_text x.0.now (option_map texts x.1.now)) };

    fn fmt<W: fmt::Write>(&self, f: &mut fmt::Formatter<W>) -> fmt::Result {
        let name = self.0;
        match self.1 {
            Some(texts) => {
                let texts = Texts(texts.as_slice());
                write!(f, "{name}{texts}")
            }
            None => Ok(()),
        }
    }
}

// A name and its value.
#[derive(Drop)]
struct Tag<'a>(&'a (Text, Text));

impl fmt::Display for Tag<'_> {
    ghost use Rattle.std.specs.Prelude.{Some};
    ghost use Rattle.mdb_replies.specs.Values.{tag_text};

    ghost output = { λ x. Some (tag_text x.0.now) };

    fn fmt<W: fmt::Write>(&self, f: &mut fmt::Formatter<W>) -> fmt::Result {
        let name = self.0.0.as_str();
        let value = self.0.1.as_str();
        write!(f, "{name}:{value}")
    }
}

// Tags with commas between them.
#[derive(Drop)]
struct Tags<'a>(&'a [(Text, Text)]);

impl fmt::Display for Tags<'_> {
    ghost use Rattle.std.specs.Prelude.{Some};
    ghost use Rattle.mdb_replies.specs.Values.{tags_text};

    ghost output = { λ x. Some (tags_text x.0.now) };

    fn fmt<W: fmt::Write>(&self, f: &mut fmt::Formatter<W>) -> fmt::Result {
        match self.0 {
            [] => Ok(()),
            [first, more @ ..] => {
                let first = Tag(first);
                write!(f, "{first}")?;
                for tag in more {
                    let tag = Tag(tag);
                    write!(f, ",{tag}")?;
                }
                Ok(())
            }
        }
    }
}

/// Tags behind a name.
#[derive(Drop)]
pub struct TagsPart<'a>(pub &'static str, pub &'a Option<TagSet>);

impl fmt::Display for TagsPart<'_> {
    ghost use Rattle.std.specs.Prelude.{Some, option_map};
    ghost use Rattle.mdb_parts.specs.Parts.{part_text};
    ghost use Rattle.mdb_replies.specs.Values.{tags_text};

    ghost output = { λ x. Some (part_text x.0.now (option_map tags_text x.1.now)) };

    fn fmt<W: fmt::Write>(&self, f: &mut fmt::Formatter<W>) -> fmt::Result {
        let name = self.0;
        match self.1 {
            Some(tags) => {
                let tags = Tags(tags.as_slice());
                write!(f, "{name}{tags}")
            }
            None => Ok(()),
        }
    }
}
