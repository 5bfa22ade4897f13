//! The text of a reply's fields.

use crate::list_text::{TagsPart, TextsPart};
use crate::value_text::{BoolPart, IdPart, SignedPart, TextPart, VersionPart, narrow_signed};
use mdb_hello::HelloCommandResponse;
use mdb_parts::part_text::{FlagPart, NumberPart};
use std::fmt;

// What the server does.
#[derive(Drop)]
struct RolesText<'a>(&'a HelloCommandResponse);

impl fmt::Display for RolesText<'_> {
    ghost use Rattle.std.specs.Prelude.{Some, take, false};
    ghost use Rattle.mdb_parts.specs.Parts.{parts_text};
    ghost use Rattle.mdb_replies.specs.ReplyParts.{reply_parts};

    ghost output = { λ x. Some (parts_text (take 3 (reply_parts x.0.now false))) };

    #[tactic(auto, unfolding(mdb_parts::specs::Parts::parts_text))]
    fn fmt<W: fmt::Write>(&self, f: &mut fmt::Formatter<W>) -> fmt::Result {
        let primary = BoolPart(" isWritablePrimary=", self.0.is_writable_primary);
        let master = BoolPart(" ismaster=", self.0.is_master);
        let hello_ok = BoolPart(" helloOk=", self.0.hello_ok);
        write!(f, "{primary}{master}{hello_ok}")
    }
}

// The members of its set.
#[derive(Drop)]
struct MembersText<'a>(&'a HelloCommandResponse);

impl fmt::Display for MembersText<'_> {
    ghost use Rattle.std.specs.Prelude.{Some, take, drop, false};
    ghost use Rattle.mdb_parts.specs.Parts.{parts_text};
    ghost use Rattle.mdb_replies.specs.ReplyParts.{reply_parts};

    ghost output = { λ x. Some (parts_text (take 3 (drop 3 (reply_parts x.0.now false)))) };

    #[tactic(auto, unfolding(mdb_parts::specs::Parts::parts_text))]
    fn fmt<W: fmt::Write>(&self, f: &mut fmt::Formatter<W>) -> fmt::Result {
        let hosts = TextsPart(" hosts=", &self.0.hosts);
        let passives = TextsPart(" passives=", &self.0.passives);
        let arbiters = TextsPart(" arbiters=", &self.0.arbiters);
        write!(f, "{hosts}{passives}{arbiters}")
    }
}

// Its names, and the version of its set.
#[derive(Drop)]
struct NamesText<'a>(&'a HelloCommandResponse);

impl fmt::Display for NamesText<'_> {
    ghost use Rattle.std.specs.Prelude.{Some, take, drop, false};
    ghost use Rattle.mdb_parts.specs.Parts.{parts_text};
    ghost use Rattle.mdb_replies.specs.ReplyParts.{reply_parts};

    ghost output = { λ x. Some (parts_text (take 4 (drop 6 (reply_parts x.0.now false)))) };

    #[tactic(auto, unfolding(mdb_parts::specs::Parts::parts_text))]
    fn fmt<W: fmt::Write>(&self, f: &mut fmt::Formatter<W>) -> fmt::Result {
        let msg = TextPart(" msg=", &self.0.msg);
        let me = TextPart(" me=", &self.0.me);
        let version = narrow_signed(" setVersion=", self.0.set_version);
        let name = TextPart(" setName=", &self.0.set_name);
        write!(f, "{msg}{me}{version}{name}")
    }
}

// What it is in its set.
#[derive(Drop)]
struct MarksText<'a>(&'a HelloCommandResponse);

impl fmt::Display for MarksText<'_> {
    ghost use Rattle.std.specs.Prelude.{Some, take, drop, false};
    ghost use Rattle.mdb_parts.specs.Parts.{parts_text};
    ghost use Rattle.mdb_replies.specs.ReplyParts.{reply_parts};

    ghost output = { λ x. Some (parts_text (take 4 (drop 10 (reply_parts x.0.now false)))) };

    #[tactic(auto, unfolding(mdb_parts::specs::Parts::parts_text))]
    fn fmt<W: fmt::Write>(&self, f: &mut fmt::Formatter<W>) -> fmt::Result {
        let hidden = BoolPart(" hidden=", self.0.hidden);
        let secondary = BoolPart(" secondary=", self.0.secondary);
        let arbiter = BoolPart(" arbiterOnly=", self.0.arbiter_only);
        let replica_set = BoolPart(" isreplicaset=", self.0.is_replica_set);
        write!(f, "{hidden}{secondary}{arbiter}{replica_set}")
    }
}

// How long sessions last, and the wire versions.
#[derive(Drop)]
struct WiresText<'a>(&'a HelloCommandResponse);

impl fmt::Display for WiresText<'_> {
    ghost use Rattle.std.specs.Prelude.{Some, take, drop, false};
    ghost use Rattle.mdb_parts.specs.Parts.{parts_text};
    ghost use Rattle.mdb_replies.specs.ReplyParts.{reply_parts};

    ghost output = { λ x. Some (parts_text (take 3 (drop 14 (reply_parts x.0.now false)))) };

    #[tactic(auto, unfolding(mdb_parts::specs::Parts::parts_text))]
    fn fmt<W: fmt::Write>(&self, f: &mut fmt::Formatter<W>) -> fmt::Result {
        let timeout = self.0.logical_session_timeout_minutes;
        let timeout = NumberPart(" logicalSessionTimeoutMinutes=", timeout);
        let min = narrow_signed(" minWireVersion=", self.0.min_wire_version);
        let max = narrow_signed(" maxWireVersion=", self.0.max_wire_version);
        write!(f, "{timeout}{min}{max}")
    }
}

// The last five, and whether more replies are to come.
#[derive(Drop)]
struct IdsText<'a>(&'a HelloCommandResponse, bool);

impl fmt::Display for IdsText<'_> {
    ghost use Rattle.std.specs.Prelude.{Some, drop};
    ghost use Rattle.mdb_parts.specs.Parts.{parts_text};
    ghost use Rattle.mdb_replies.specs.ReplyParts.{reply_parts};

    ghost output = { λ x. Some (parts_text (drop 17 (reply_parts x.0.now x.1))) };

    #[tactic(auto, unfolding(mdb_parts::specs::Parts::parts_text))]
    fn fmt<W: fmt::Write>(&self, f: &mut fmt::Formatter<W>) -> fmt::Result {
        let tags = TagsPart(" tags=", &self.0.tags);
        let election = IdPart(" electionId=", self.0.election_id);
        let primary = TextPart(" primary=", &self.0.primary);
        let version = VersionPart(" topologyVersion=", self.0.topology_version);
        let connection = SignedPart(" connectionId=", self.0.connection_id);
        let more = FlagPart(" more", self.1);
        write!(f, "{tags}{election}{primary}{version}{connection}{more}")
    }
}

/// The fields of a reply that are there, each behind a space, and then ` more` where more replies are to come.
#[derive(Drop)]
pub struct ReplyText<'a>(pub &'a HelloCommandResponse, pub bool);

impl fmt::Display for ReplyText<'_> {
    ghost use Rattle.std.specs.Prelude.{Some};
    ghost use Rattle.mdb_replies.specs.ReplyParts.{fields_text};

    ghost output = { λ x. Some (fields_text x.0.now x.1) };

    #[tactic(auto, unfolding(mdb_parts::specs::Parts::parts_text, crate::specs::ReplyParts::fields_text))]
    fn fmt<W: fmt::Write>(&self, f: &mut fmt::Formatter<W>) -> fmt::Result {
        let roles = RolesText(self.0);
        let members = MembersText(self.0);
        let names = NamesText(self.0);
        let marks = MarksText(self.0);
        let wires = WiresText(self.0);
        let ids = IdsText(self.0, self.1);
        write!(f, "{roles}{members}{names}{marks}{wires}{ids}")
    }
}
