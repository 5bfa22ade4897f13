//! What is told of one server, as a text.

ghost use Rattle.std.specs.Prelude.{◌≡◌, option_copied};

use crate::description::ServerDescription;
use mdb_base::{DateTime, Nanos, TagSet, Text};
use mdb_hello::ServerType;
use std::fmt;

/// A type of a server, printed as its name.
#[derive(Drop)]
pub struct TypeName(pub ServerType);

impl fmt::Display for TypeName {
    ghost use Rattle.std.specs.Prelude.{Some};
    ghost use Rattle.mdb_describe.specs.InfoText.{type_name};

    ghost output = { λ name. Some (type_name name.0) };

    fn fmt<W: fmt::Write>(&self, f: &mut fmt::Formatter<W>) -> fmt::Result {
        match self.0 {
            ServerType::Standalone => write!(f, "Standalone"),
            ServerType::Mongos => write!(f, "Mongos"),
            ServerType::RsPrimary => write!(f, "RsPrimary"),
            ServerType::RsSecondary => write!(f, "RsSecondary"),
            ServerType::RsArbiter => write!(f, "RsArbiter"),
            ServerType::RsOther => write!(f, "RsOther"),
            ServerType::RsGhost => write!(f, "RsGhost"),
            ServerType::LoadBalancer => write!(f, "LoadBalancer"),
            ServerType::Unknown => write!(f, "Unknown"),
        }
    }
}

// A number after its name, and nothing where there is none.
#[derive(Drop)]
struct NumberPart<'a>(&'a str, Option<i32>);

impl fmt::Display for NumberPart<'_> {
    ghost use Rattle.std.specs.Prelude.{Some};
    ghost use Rattle.mdb_describe.specs.InfoText.{number_part};

    ghost output = { λ p. Some (number_part p.0.now p.1) };

    fn fmt<W: fmt::Write>(&self, f: &mut fmt::Formatter<W>) -> fmt::Result {
        let name = self.0;
        match self.1 {
            Some(number) => write!(f, ", {name}: {number}"),
            None => Ok(()),
        }
    }
}

// A text after its name, and nothing where there is none.
#[derive(Drop)]
struct TextPart<'a>(&'a str, Option<&'a str>);

impl fmt::Display for TextPart<'_> {
    ghost use Rattle.std.specs.Prelude.{Some, option_copied};
    ghost use Rattle.mdb_describe.specs.InfoText.{text_part};

    ghost output = { λ p. Some (text_part p.0.now (option_copied p.1)) };

    fn fmt<W: fmt::Write>(&self, f: &mut fmt::Formatter<W>) -> fmt::Result {
        let name = self.0;
        match self.1 {
            Some(text) => write!(f, ", {name}: {text}"),
            None => Ok(()),
        }
    }
}

#[derive(Drop)]
struct RoundTrip(Option<Nanos>);

impl fmt::Display for RoundTrip {
    ghost use Rattle.std.specs.Prelude.{Some};
    ghost use Rattle.mdb_describe.specs.InfoText.{round_trip_part};

    ghost output = { λ p. Some (round_trip_part p.0) };

    fn fmt<W: fmt::Write>(&self, f: &mut fmt::Formatter<W>) -> fmt::Result {
        match self.0 {
            Some(nanos) => write!(f, ", Average RTT: {nanos}ns"),
            None => Ok(()),
        }
    }
}

#[derive(Drop)]
struct UpdateTime(Option<DateTime>);

impl fmt::Display for UpdateTime {
    ghost use Rattle.std.specs.Prelude.{Some};
    ghost use Rattle.mdb_describe.specs.InfoText.{time_part};

    ghost output = { λ p. Some (time_part p.0) };

    fn fmt<W: fmt::Write>(&self, f: &mut fmt::Formatter<W>) -> fmt::Result {
        match self.0 {
            Some(time) => {
                let millis = time.0;
                write!(f, ", Last Update Time: {millis}")
            }
            None => Ok(()),
        }
    }
}

// A tag as its name and its value.
#[derive(Drop)]
struct TagText<'a>(&'a (Text, Text));

impl fmt::Display for TagText<'_> {
    ghost use Rattle.std.specs.Prelude.{Some};
    ghost use Rattle.mdb_describe.specs.InfoText.{tag_text};

    ghost output = { λ t. Some (tag_text t.0.now) };

    fn fmt<W: fmt::Write>(&self, f: &mut fmt::Formatter<W>) -> fmt::Result {
        let name = self.0.0.as_str();
        let value = self.0.1.as_str();
        write!(f, "{name}: {value}")
    }
}

// Tags with commas between.
#[derive(Drop)]
struct TagList<'a>(&'a [(Text, Text)]);

impl fmt::Display for TagList<'_> {
    ghost use Rattle.std.specs.Prelude.{Some};
    ghost use Rattle.mdb_describe.specs.InfoText.{tags_text};

    ghost output = { λ l. Some (tags_text l.0.now) };

    fn fmt<W: fmt::Write>(&self, f: &mut fmt::Formatter<W>) -> fmt::Result {
        match self.0 {
            [] => Ok(()),
            [first, more @ ..] => {
                let tag = TagText(first);
                write!(f, "{tag}")?;
                for other in more {
                    let tag = TagText(other);
                    write!(f, ", {tag}")?;
                }
                Ok(())
            }
        }
    }
}

#[derive(Drop)]
struct Tags<'a>(Option<&'a TagSet>);

impl fmt::Display for Tags<'_> {
    ghost use Rattle.std.specs.Prelude.{Some, option_copied};
    ghost use Rattle.mdb_describe.specs.InfoText.{tags_part};

    ghost output = { λ t. Some (tags_part (option_copied t.0)) };

    fn fmt<W: fmt::Write>(&self, f: &mut fmt::Formatter<W>) -> fmt::Result {
        match self.0 {
            Some(tags) => {
                let list = TagList(tags.as_slice());
                write!(f, ", Tags: {{{list}}}")
            }
            None => Ok(()),
        }
    }
}

/// What is told of a server, with the reason why the driver cannot speak to it.
#[derive(Drop)]
pub struct Info<'a> {
    pub description: &'a ServerDescription,
    pub message: Option<&'a str>,
}

// What the reply or the error adds to the address and the type.
#[derive(Drop)]
struct Details<'a>(&'a ServerDescription, Option<&'a str>);

impl fmt::Display for Details<'_> {
    ghost use Rattle.std.specs.Prelude.{Some, option_copied};
    ghost use Rattle.mdb_describe.specs.InfoText.{details_with};

    ghost output = { λ d. Some (details_with d.0.now.reply d.0.now (option_copied d.1)) };

    fn fmt<W: fmt::Write>(&self, f: &mut fmt::Formatter<W>) -> fmt::Result {
        match &self.0.reply {
            Ok(Some(_)) => {
                let reply = ReplyPart(self.0, self.1);
                write!(f, "{reply}")
            }
            Ok(None) => Ok(()),
            Err(error) => write!(f, ", Error: {error}"),
        }
    }
}

#[derive(Drop)]
struct ReplyPart<'a>(&'a ServerDescription, Option<&'a str>);

impl fmt::Display for ReplyPart<'_> {
    ghost use Rattle.std.specs.Prelude.{Some, option_copied};
    ghost use Rattle.mdb_describe.specs.InfoText.{reply_part_with};

    ghost output = { λ d. Some (reply_part_with d.0.now (option_copied d.1)) };

    fn fmt<W: fmt::Write>(&self, f: &mut fmt::Formatter<W>) -> fmt::Result {
        let round_trip = RoundTrip(self.0.average_round_trip_time);
        let time = UpdateTime(self.0.last_update_time);
        let max = NumberPart("Max Wire Version", self.0.max_wire_version());
        let min = NumberPart("Min Wire Version", self.0.min_wire_version());
        let name = TextPart("Replica Set Name", text_of(self.0.set_name()));
        let version = NumberPart("Replica Set Version", self.0.set_version());
        let tags = Tags(self.0.tags());
        let error = TextPart("Compatiblity Error", self.1);
        write!(
            f,
            "{round_trip}{time}{max}{min}{name}{version}{tags}{error}"
        )
    }
}

fn text_of(text: Option<&Text>) -> Option<&str>
    ensures { option_copied result ≡ option_copied text.entry }
{
    match text {
        Some(text) => Some(text.as_str()),
        None => None,
    }
}

impl fmt::Display for Info<'_> {
    ghost use Rattle.std.specs.Prelude.{Some, option_copied};
    ghost use Rattle.mdb_describe.specs.InfoText.{info_text_with};

    ghost output = { λ i. Some (info_text_with i.description.now (option_copied i.message)) };

    fn fmt<W: fmt::Write>(&self, f: &mut fmt::Formatter<W>) -> fmt::Result {
        let address = &self.description.address;
        let kind = TypeName(self.description.server_type);
        let details = Details(self.description, self.message);
        write!(f, "{{ Address: {address}, Type: {kind}{details} }}")
    }
}
