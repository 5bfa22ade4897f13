//! Reading a reply from a document.
//!
//! The fields are read in the order of their table, five at a time: the proof of a function grows with the ways out of it times the values that live there, so one
//! that read all thirty would be dear. The groups mean nothing else.

ghost use Rattle.std.specs.Prelude.{◌≡◌, take, drop};
ghost use Rattle.mdb_base.specs.Document.{doc_content};
ghost use Rattle.mdb_hello.specs.Groups.{greeting_values, membership_values, role_values, state_values, election_values, limits_values, front_values, back_values, halves_values, read_front, read_back};
ghost use Rattle.mdb_hello.specs.Reading.{Gives};
ghost use Rattle.mdb_hello.specs.Table.{on_ok, beside, read_rows, reply_fields};

use crate::command::LEGACY_HELLO_COMMAND_NAME_LOWERCASE;
use crate::error::HelloError;
use crate::field::{optional, required};
use crate::response::LastWrite;
use mdb_base::{Doc, Document, Items, ObjectId, TagSet, Text, TopologyVersion};
use std::alloc::Global;

#[derive(Drop)]
pub struct Greeting {
    pub is_writable_primary: Option<bool>,
    pub is_master: Option<bool>,
    pub hello_ok: Option<bool>,
    pub hosts: Option<Items<Text>>,
    pub passives: Option<Items<Text>>,
}

fn read_greeting(alloc: Global, doc: &Doc) -> Result<Greeting, HelloError>
    ensures { Gives (on_ok greeting_values result) (read_rows (take 5 reply_fields) (doc_content doc.now)) }
{
    Ok(Greeting {
        is_writable_primary: optional(alloc, doc, "isWritablePrimary")?,
        is_master: optional(alloc, doc, LEGACY_HELLO_COMMAND_NAME_LOWERCASE)?,
        hello_ok: optional(alloc, doc, "helloOk")?,
        hosts: optional(alloc, doc, "hosts")?,
        passives: optional(alloc, doc, "passives")?,
    })
}

#[derive(Drop)]
pub struct Membership {
    pub arbiters: Option<Items<Text>>,
    pub msg: Option<Text>,
    pub me: Option<Text>,
    pub compressors: Option<Items<Text>>,
    pub set_version: Option<i32>,
}

fn read_membership(alloc: Global, doc: &Doc) -> Result<Membership, HelloError>
    ensures { Gives (on_ok membership_values result) (read_rows (take 5 (drop 5 reply_fields)) (doc_content doc.now)) }
{
    Ok(Membership {
        arbiters: optional(alloc, doc, "arbiters")?,
        msg: optional(alloc, doc, "msg")?,
        me: optional(alloc, doc, "me")?,
        compressors: optional(alloc, doc, "compression")?,
        set_version: optional(alloc, doc, "setVersion")?,
    })
}

#[derive(Drop)]
pub struct Role {
    pub set_name: Option<Text>,
    pub hidden: Option<bool>,
    pub secondary: Option<bool>,
    pub arbiter_only: Option<bool>,
    pub is_replica_set: Option<bool>,
}

fn read_role(alloc: Global, doc: &Doc) -> Result<Role, HelloError>
    ensures { Gives (on_ok role_values result) (read_rows (take 5 (drop 10 reply_fields)) (doc_content doc.now)) }
{
    Ok(Role {
        set_name: optional(alloc, doc, "setName")?,
        hidden: optional(alloc, doc, "hidden")?,
        secondary: optional(alloc, doc, "secondary")?,
        arbiter_only: optional(alloc, doc, "arbiterOnly")?,
        is_replica_set: optional(alloc, doc, "isreplicaset")?,
    })
}

#[derive(Drop)]
pub struct State {
    pub logical_session_timeout_minutes: Option<u64>,
    pub last_write: Option<LastWrite>,
    pub min_wire_version: Option<i32>,
    pub max_wire_version: Option<i32>,
    pub tags: Option<TagSet>,
}

fn read_state(alloc: Global, doc: &Doc) -> Result<State, HelloError>
    ensures { Gives (on_ok state_values result) (read_rows (take 5 (drop 15 reply_fields)) (doc_content doc.now)) }
{
    Ok(State {
        logical_session_timeout_minutes: optional(alloc, doc, "logicalSessionTimeoutMinutes")?,
        last_write: optional(alloc, doc, "lastWrite")?,
        min_wire_version: optional(alloc, doc, "minWireVersion")?,
        max_wire_version: optional(alloc, doc, "maxWireVersion")?,
        tags: optional(alloc, doc, "tags")?,
    })
}

#[derive(Drop)]
pub struct Election {
    pub election_id: Option<ObjectId>,
    pub primary: Option<Text>,
    pub sasl_supported_mechs: Option<Items<Text>>,
    pub speculative_authenticate: Option<Document>,
    pub max_bson_object_size: i64,
}

fn read_election(alloc: Global, doc: &Doc) -> Result<Election, HelloError>
    ensures { Gives (on_ok election_values result) (read_rows (take 5 (drop 20 reply_fields)) (doc_content doc.now)) }
{
    Ok(Election {
        election_id: optional(alloc, doc, "electionId")?,
        primary: optional(alloc, doc, "primary")?,
        sasl_supported_mechs: optional(alloc, doc, "saslSupportedMechs")?,
        speculative_authenticate: optional(alloc, doc, "speculativeAuthenticate")?,
        max_bson_object_size: required(alloc, doc, "maxBsonObjectSize")?,
    })
}

#[derive(Drop)]
pub struct Limits {
    pub max_write_batch_size: Option<i64>,
    pub service_id: Option<ObjectId>,
    pub topology_version: Option<TopologyVersion>,
    pub max_message_size_bytes: i32,
    pub connection_id: Option<i64>,
}

fn read_limits(alloc: Global, doc: &Doc) -> Result<Limits, HelloError>
    ensures { Gives (on_ok limits_values result) (read_rows (take 5 (drop 25 reply_fields)) (doc_content doc.now)) }
{
    Ok(Limits {
        max_write_batch_size: optional(alloc, doc, "maxWriteBatchSize")?,
        service_id: optional(alloc, doc, "serviceId")?,
        topology_version: optional(alloc, doc, "topologyVersion")?,
        max_message_size_bytes: required(alloc, doc, "maxMessageSizeBytes")?,
        connection_id: optional(alloc, doc, "connectionId")?,
    })
}

pub type Front = (Greeting, Membership, Role);

pub type Back = (State, Election, Limits);

// The first fifteen fields.
fn read_front(alloc: Global, doc: &Doc) -> Result<Front, HelloError>
    ensures { Gives (on_ok front_values result) (read_front (doc_content doc.now)) }
{
    let greeting = read_greeting(alloc, doc)?;
    let membership = read_membership(alloc, doc)?;
    let role = read_role(alloc, doc)?;
    Ok((greeting, membership, role))
}

// The last fifteen fields.
fn read_back(alloc: Global, doc: &Doc) -> Result<Back, HelloError>
    ensures { Gives (on_ok back_values result) (read_back (doc_content doc.now)) }
{
    let state = read_state(alloc, doc)?;
    let election = read_election(alloc, doc)?;
    let limits = read_limits(alloc, doc)?;
    Ok((state, election, limits))
}

/// All fields, in two halves.
pub fn read_halves(alloc: Global, doc: &Doc) -> Result<(Front, Back), HelloError>
    ensures { Gives (on_ok halves_values result) (beside (read_front (doc_content doc.now)) (read_back (doc_content doc.now))) }
{
    let front = read_front(alloc, doc)?;
    let back = read_back(alloc, doc)?;
    Ok((front, back))
}
