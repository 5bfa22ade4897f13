//! The text of optional parts of a reply.

ghost use Rattle.std.specs.Prelude.{◌≡◌, option_map};
ghost use Rattle.std.specs.Fmt.{signed_decimal};
ghost use Rattle.mdb_parts.specs.Parts.{part_text};

use mdb_base::{ObjectId, Text, TopologyVersion};
use std::fmt;

/// True or false behind a name.
#[derive(Drop)]
pub struct BoolPart(pub &'static str, pub Option<bool>);

impl fmt::Display for BoolPart {
    ghost use Rattle.std.specs.Prelude.{Some, option_map};
    ghost use Rattle.mdb_parts.specs.Parts.{part_text};
    ghost use Rattle.mdb_replies.specs.Values.{bool_word};

    ghost output = { λ x. Some (part_text x.0.now (option_map bool_word x.1)) };

    fn fmt<W: fmt::Write>(&self, f: &mut fmt::Formatter<W>) -> fmt::Result {
        let name = self.0;
        match self.1 {
            Some(true) => write!(f, "{name}true"),
            Some(false) => write!(f, "{name}false"),
            None => Ok(()),
        }
    }
}

/// A number with a sign behind a name.
#[derive(Drop)]
pub struct SignedPart(pub &'static str, pub Option<i64>);

impl fmt::Display for SignedPart {
    ghost use Rattle.std.specs.Prelude.{Some, option_map};
    ghost use Rattle.std.specs.Fmt.{signed_decimal};
    ghost use Rattle.mdb_parts.specs.Parts.{part_text};

    ghost output = { λ x. Some (part_text x.0.now (option_map signed_decimal x.1)) };

    fn fmt<W: fmt::Write>(&self, f: &mut fmt::Formatter<W>) -> fmt::Result {
        let name = self.0;
        match self.1 {
            Some(number) => write!(f, "{name}{number}"),
            None => Ok(()),
        }
    }
}

/// The part of a number of 32 bits.
pub fn narrow_signed(name: &'static str, number: Option<i32>) -> SignedPart
    ensures { part_text result.0.now (option_map signed_decimal result.1) ≡ part_text name.now (option_map signed_decimal number) }
{
    match number {
        Some(number) => SignedPart(name, Some(i64::from(number))),
        None => SignedPart(name, None),
    }
}

/// A text behind a name.
#[derive(Drop)]
pub struct TextPart<'a>(pub &'static str, pub &'a Option<Text>);

impl fmt::Display for TextPart<'_> {
    ghost use Rattle.std.specs.Prelude.{Some};
    ghost use Rattle.mdb_parts.specs.Parts.{part_text};

    ghost output = { λ x. Some (part_text x.0.now x.1.now) };

    fn fmt<W: fmt::Write>(&self, f: &mut fmt::Formatter<W>) -> fmt::Result {
        let name = self.0;
        match self.1 {
            Some(text) => write!(f, "{name}{text}"),
            None => Ok(()),
        }
    }
}

/// An id behind a name.
#[derive(Drop)]
pub struct IdPart(pub &'static str, pub Option<ObjectId>);

impl fmt::Display for IdPart {
    ghost use Rattle.std.specs.Prelude.{Some, option_map};
    ghost use Rattle.mdb_base.specs.Spelling.{object_id};
    ghost use Rattle.mdb_parts.specs.Parts.{part_text};

    ghost output = { λ x. Some (part_text x.0.now (option_map object_id x.1)) };

    fn fmt<W: fmt::Write>(&self, f: &mut fmt::Formatter<W>) -> fmt::Result {
        let name = self.0;
        match self.1 {
            Some(id) => write!(f, "{name}{id}"),
            None => Ok(()),
        }
    }
}

/// A topology version behind a name.
#[derive(Drop)]
pub struct VersionPart(pub &'static str, pub Option<TopologyVersion>);

impl fmt::Display for VersionPart {
    ghost use Rattle.std.specs.Prelude.{Some, option_map};
    ghost use Rattle.mdb_base.specs.ErrorText.{version_text};
    ghost use Rattle.mdb_parts.specs.Parts.{part_text};

    ghost output = { λ x. Some (part_text x.0.now (option_map version_text x.1)) };

    fn fmt<W: fmt::Write>(&self, f: &mut fmt::Formatter<W>) -> fmt::Result {
        let name = self.0;
        match self.1 {
            Some(version) => write!(f, "{name}{version}"),
            None => Ok(()),
        }
    }
}
