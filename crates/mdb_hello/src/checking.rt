//! Whether a document is a reply, without memory: its first bad field, in the order of the table of fields.

ghost use Rattle.std.specs.Prelude.{◌≡◌, option_map, take, drop};
ghost use Rattle.std.specs.Option.{option_or};
ghost use Rattle.std.specs.Result.{result_err};
ghost use Rattle.mdb_base.specs.Document.{doc_content};
ghost use Rattle.mdb_hello.specs.Groups.{bad_in_front, bad_in_back};
ghost use Rattle.mdb_hello.specs.Kinds.{named};
ghost use Rattle.mdb_hello.specs.Table.{optional_in, required_in, first_bad, reply_fields};

use crate::command::LEGACY_HELLO_COMMAND_NAME_LOWERCASE;
use crate::error::BadField;
use crate::field::{FieldValue, field};
use crate::response::LastWrite;
use mdb_base::{Doc, Document, Items, ObjectId, TagSet, Text, TopologyVersion};

// A field that may be absent.
fn optional<T: FieldValue>(doc: &Doc, name: &'static str) -> Result<(), BadField>
    ensures { option_map (λ bad. bad.0.now) (result_err result) ≡ result_err (optional_in T.value_in name.now (named name.now (doc_content doc.now))) }
{
    match field(doc, name) {
        Some(value) if !T::fits(value) => Err(BadField(name)),
        _ => Ok(()),
    }
}

// A field that each document has.
fn required<T: FieldValue>(doc: &Doc, name: &'static str) -> Result<(), BadField>
    ensures { option_map (λ bad. bad.0.now) (result_err result) ≡ result_err (required_in T.value_in name.now (named name.now (doc_content doc.now))) }
{
    match field(doc, name) {
        Some(value) if T::fits(value) => Ok(()),
        _ => Err(BadField(name)),
    }
}

fn check_greeting(doc: &Doc) -> Result<(), BadField>
    ensures { option_map (λ bad. bad.0.now) (result_err result) ≡ first_bad (take 5 reply_fields) (doc_content doc.now) }
{
    optional::<bool>(doc, "isWritablePrimary")?;
    optional::<bool>(doc, LEGACY_HELLO_COMMAND_NAME_LOWERCASE)?;
    optional::<bool>(doc, "helloOk")?;
    optional::<Items<Text>>(doc, "hosts")?;
    optional::<Items<Text>>(doc, "passives")
}

fn check_membership(doc: &Doc) -> Result<(), BadField>
    ensures { option_map (λ bad. bad.0.now) (result_err result) ≡ first_bad (take 5 (drop 5 reply_fields)) (doc_content doc.now) }
{
    optional::<Items<Text>>(doc, "arbiters")?;
    optional::<Text>(doc, "msg")?;
    optional::<Text>(doc, "me")?;
    optional::<Items<Text>>(doc, "compression")?;
    optional::<i32>(doc, "setVersion")
}

fn check_role(doc: &Doc) -> Result<(), BadField>
    ensures { option_map (λ bad. bad.0.now) (result_err result) ≡ first_bad (take 5 (drop 10 reply_fields)) (doc_content doc.now) }
{
    optional::<Text>(doc, "setName")?;
    optional::<bool>(doc, "hidden")?;
    optional::<bool>(doc, "secondary")?;
    optional::<bool>(doc, "arbiterOnly")?;
    optional::<bool>(doc, "isreplicaset")
}

fn check_state(doc: &Doc) -> Result<(), BadField>
    ensures { option_map (λ bad. bad.0.now) (result_err result) ≡ first_bad (take 5 (drop 15 reply_fields)) (doc_content doc.now) }
{
    optional::<u64>(doc, "logicalSessionTimeoutMinutes")?;
    optional::<LastWrite>(doc, "lastWrite")?;
    optional::<i32>(doc, "minWireVersion")?;
    optional::<i32>(doc, "maxWireVersion")?;
    optional::<TagSet>(doc, "tags")
}

fn check_election(doc: &Doc) -> Result<(), BadField>
    ensures { option_map (λ bad. bad.0.now) (result_err result) ≡ first_bad (take 5 (drop 20 reply_fields)) (doc_content doc.now) }
{
    optional::<ObjectId>(doc, "electionId")?;
    optional::<Text>(doc, "primary")?;
    optional::<Items<Text>>(doc, "saslSupportedMechs")?;
    optional::<Document>(doc, "speculativeAuthenticate")?;
    required::<i64>(doc, "maxBsonObjectSize")
}

fn check_limits(doc: &Doc) -> Result<(), BadField>
    ensures { option_map (λ bad. bad.0.now) (result_err result) ≡ first_bad (take 5 (drop 25 reply_fields)) (doc_content doc.now) }
{
    optional::<i64>(doc, "maxWriteBatchSize")?;
    optional::<ObjectId>(doc, "serviceId")?;
    optional::<TopologyVersion>(doc, "topologyVersion")?;
    required::<i32>(doc, "maxMessageSizeBytes")?;
    optional::<i64>(doc, "connectionId")
}

// The first fifteen fields.
fn check_front(doc: &Doc) -> Result<(), BadField>
    ensures { option_map (λ bad. bad.0.now) (result_err result) ≡ bad_in_front (doc_content doc.now) }
{
    check_greeting(doc)?;
    check_membership(doc)?;
    check_role(doc)
}

// The last fifteen fields.
fn check_back(doc: &Doc) -> Result<(), BadField>
    ensures { option_map (λ bad. bad.0.now) (result_err result) ≡ bad_in_back (doc_content doc.now) }
{
    check_state(doc)?;
    check_election(doc)?;
    check_limits(doc)
}

/// Refuses a document by its first bad field. No memory is taken.
pub fn check(doc: &Doc) -> Result<(), BadField>
    ensures { option_map (λ bad. bad.0.now) (result_err result) ≡ option_or (bad_in_front (doc_content doc.now)) (bad_in_back (doc_content doc.now)) }
{
    check_front(doc)?;
    check_back(doc)
}
