//! Reading the fields of a reply, group by group: the proof of a function grows with the ways out of it times the values that live there, so no function reads them all.

ghost use Rattle.std.specs.Prelude.{◌≡◌, Bool, drop, true};
ghost use Rattle.mdb_hello.specs.declared.response.HelloCommandResponse.{HelloCommandResponse};
ghost use Rattle.mdb_parts.specs.Parts.{parts_text};
ghost use Rattle.mdb_parts.specs.Reading.{GivesFirst};
ghost use Rattle.mdb_replies.specs.ReplyParts.{reply_parts, is_reply, IsReplyOfTypes};
ghost use Rattle.mdb_replies.specs.Groups.{roles_of, members_of, names_of, marks_of, wires_of, ids_of};

use crate::value_parts::{bool_part, i32_part, optional_hosts, optional_tags, optional_text};
use mdb_base::{Items, ObjectId, TagSet, Text, TopologyVersion};
use mdb_parts::parts::{i64_part, id_part, part, u64_part};
use mdb_parts::{LineError, version_part};
use std::alloc::Global;

/// What the server does.
#[derive(Clone, Copy)]
pub struct Roles {
    pub is_writable_primary: Option<bool>,
    pub is_master: Option<bool>,
    pub hello_ok: Option<bool>,
}

/// The members of its set.
#[derive(Drop)]
pub struct Members {
    pub hosts: Option<Items<Text>>,
    pub passives: Option<Items<Text>>,
    pub arbiters: Option<Items<Text>>,
}

/// Its names, and the version of its set.
#[derive(Drop)]
pub struct Names {
    pub msg: Option<Text>,
    pub me: Option<Text>,
    pub set_version: Option<i32>,
    pub set_name: Option<Text>,
}

/// What it is in its set.
#[derive(Clone, Copy)]
pub struct Marks {
    pub hidden: Option<bool>,
    pub secondary: Option<bool>,
    pub arbiter_only: Option<bool>,
    pub is_replica_set: Option<bool>,
}

/// How long sessions last, and the wire versions.
#[derive(Clone, Copy)]
pub struct Wires {
    pub timeout: Option<u64>,
    pub min: Option<i32>,
    pub max: Option<i32>,
}

/// The tags, and what tells the server and its connection from others.
#[derive(Drop)]
pub struct Ids {
    pub tags: Option<TagSet>,
    pub election: Option<ObjectId>,
    pub primary: Option<Text>,
    pub version: Option<TopologyVersion>,
    pub connection: Option<i64>,
}

pub fn read_roles(text: &str) -> (Roles, &str)
    ensures { (r : HelloCommandResponse) (more : Bool) → text.now ≡ parts_text (reply_parts r more)
        → (result.0 ≡ roles_of r) × (result.1.now ≡ parts_text (drop 3 (reply_parts r more))) }
{
    let (is_writable_primary, rest) = bool_part(text, " isWritablePrimary=");
    let (is_master, rest) = bool_part(rest, " ismaster=");
    let (hello_ok, rest) = bool_part(rest, " helloOk=");
    let roles = Roles {
        is_writable_primary,
        is_master,
        hello_ok,
    };
    (roles, rest)
}

pub fn read_members(alloc: Global, text: &str) -> Result<(Members, &str), LineError>
    ensures { (r : HelloCommandResponse) (more : Bool) → is_reply r ≡ true → text.now ≡ parts_text (drop 3 (reply_parts r more))
        → GivesFirst (members_of r) (parts_text (drop 6 (reply_parts r more))) result }
{
    let (hosts, rest) = part(text, " hosts=");
    let (passives, rest) = part(rest, " passives=");
    let (arbiters, rest) = part(rest, " arbiters=");
    let hosts = optional_hosts(alloc, hosts)?;
    let passives = optional_hosts(alloc, passives)?;
    let arbiters = optional_hosts(alloc, arbiters)?;
    let members = Members {
        hosts,
        passives,
        arbiters,
    };
    Ok((members, rest))
}

pub fn read_names(alloc: Global, text: &str) -> Result<(Names, &str), LineError>
    ensures { (r : HelloCommandResponse) (more : Bool) → IsReplyOfTypes r → is_reply r ≡ true → text.now ≡ parts_text (drop 6 (reply_parts r more))
        → GivesFirst (names_of r) (parts_text (drop 10 (reply_parts r more))) result }
{
    let (msg, rest) = part(text, " msg=");
    let (me, rest) = part(rest, " me=");
    let (set_version, rest) = i32_part(rest, " setVersion=");
    let (set_name, rest) = part(rest, " setName=");
    let msg = optional_text(alloc, msg)?;
    let me = optional_text(alloc, me)?;
    let set_name = optional_text(alloc, set_name)?;
    let names = Names {
        msg,
        me,
        set_version,
        set_name,
    };
    Ok((names, rest))
}

pub fn read_marks(text: &str) -> (Marks, &str)
    ensures { (r : HelloCommandResponse) (more : Bool) → text.now ≡ parts_text (drop 10 (reply_parts r more))
        → (result.0 ≡ marks_of r) × (result.1.now ≡ parts_text (drop 14 (reply_parts r more))) }
{
    let (hidden, rest) = bool_part(text, " hidden=");
    let (secondary, rest) = bool_part(rest, " secondary=");
    let (arbiter_only, rest) = bool_part(rest, " arbiterOnly=");
    let (is_replica_set, rest) = bool_part(rest, " isreplicaset=");
    let marks = Marks {
        hidden,
        secondary,
        arbiter_only,
        is_replica_set,
    };
    (marks, rest)
}

pub fn read_wires(text: &str) -> (Wires, &str)
    ensures { (r : HelloCommandResponse) (more : Bool) → IsReplyOfTypes r → text.now ≡ parts_text (drop 14 (reply_parts r more))
        → (result.0 ≡ wires_of r) × (result.1.now ≡ parts_text (drop 17 (reply_parts r more))) }
{
    let (timeout, rest) = u64_part(text, " logicalSessionTimeoutMinutes=");
    let (min, rest) = i32_part(rest, " minWireVersion=");
    let (max, rest) = i32_part(rest, " maxWireVersion=");
    let wires = Wires { timeout, min, max };
    (wires, rest)
}

pub fn read_ids(alloc: Global, text: &str) -> Result<(Ids, &str), LineError>
    ensures { (r : HelloCommandResponse) (more : Bool) → IsReplyOfTypes r → is_reply r ≡ true → text.now ≡ parts_text (drop 17 (reply_parts r more))
        → GivesFirst (ids_of r) (parts_text (drop 22 (reply_parts r more))) result }
{
    let (tags, rest) = part(text, " tags=");
    let (election, rest) = id_part(rest, " electionId=");
    let (primary, rest) = part(rest, " primary=");
    let (version, rest) = version_part(rest, " topologyVersion=");
    let (connection, rest) = i64_part(rest, " connectionId=");
    let tags = optional_tags(alloc, tags)?;
    let primary = optional_text(alloc, primary)?;
    let ids = Ids {
        tags,
        election,
        primary,
        version,
        connection,
    };
    Ok((ids, rest))
}
