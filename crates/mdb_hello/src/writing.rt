//! Writing a reply as a document.
//!
//! The fields are written in the order of their table, five at a time.

ghost use Rattle.std.specs.Prelude.{◌≡◌, ◌++◌, OnOk, map, IfOk};
ghost use Rattle.mdb_base.specs.Document.{doc_content, named_content};
ghost use Rattle.mdb_hello.specs.Groups.{five, reply_greeting, reply_membership, reply_role, reply_state, reply_election, reply_limits};
ghost use Rattle.mdb_hello.specs.ReadBack.{IsShort};
ghost use Rattle.mdb_hello.specs.Reply.{read, written};
ghost use Rattle.mdb_hello.specs.Table.{written_rows};

use crate::command::LEGACY_HELLO_COMMAND_NAME_LOWERCASE;
use crate::field::{push_optional, push_required};
use crate::making::doc_of;
use crate::plain_reply::plain_reply;
use crate::response::HelloCommandResponse;
use mdb_base::{Doc, OutOfMemory, Value};
use std::alloc::Global;

type Fields = Vec<(String, Value)>;

fn write_greeting(
    alloc: Global,
    fields: &mut Fields,
    reply: &HelloCommandResponse,
) -> Result<(), OutOfMemory>
    ensures { OnOk result (map named_content fields.new.items ≡ map named_content fields.old.items ++ written_rows (five 0) (reply_greeting reply.now)) }
{
    push_optional(
        alloc,
        fields,
        "isWritablePrimary",
        &reply.is_writable_primary,
    )?;
    push_optional(
        alloc,
        fields,
        LEGACY_HELLO_COMMAND_NAME_LOWERCASE,
        &reply.is_master,
    )?;
    push_optional(alloc, fields, "helloOk", &reply.hello_ok)?;
    push_optional(alloc, fields, "hosts", &reply.hosts)?;
    push_optional(alloc, fields, "passives", &reply.passives)?;
    Ok(())
}

fn write_membership(
    alloc: Global,
    fields: &mut Fields,
    reply: &HelloCommandResponse,
) -> Result<(), OutOfMemory>
    ensures { OnOk result (map named_content fields.new.items ≡ map named_content fields.old.items ++ written_rows (five 5) (reply_membership reply.now)) }
{
    push_optional(alloc, fields, "arbiters", &reply.arbiters)?;
    push_optional(alloc, fields, "msg", &reply.msg)?;
    push_optional(alloc, fields, "me", &reply.me)?;
    push_optional(alloc, fields, "compression", &reply.compressors)?;
    push_optional(alloc, fields, "setVersion", &reply.set_version)?;
    Ok(())
}

fn write_role(
    alloc: Global,
    fields: &mut Fields,
    reply: &HelloCommandResponse,
) -> Result<(), OutOfMemory>
    ensures { OnOk result (map named_content fields.new.items ≡ map named_content fields.old.items ++ written_rows (five 10) (reply_role reply.now)) }
{
    push_optional(alloc, fields, "setName", &reply.set_name)?;
    push_optional(alloc, fields, "hidden", &reply.hidden)?;
    push_optional(alloc, fields, "secondary", &reply.secondary)?;
    push_optional(alloc, fields, "arbiterOnly", &reply.arbiter_only)?;
    push_optional(alloc, fields, "isreplicaset", &reply.is_replica_set)?;
    Ok(())
}

fn write_state(
    alloc: Global,
    fields: &mut Fields,
    reply: &HelloCommandResponse,
) -> Result<(), OutOfMemory>
    ensures { OnOk result (map named_content fields.new.items ≡ map named_content fields.old.items ++ written_rows (five 15) (reply_state reply.now)) }
{
    push_optional(
        alloc,
        fields,
        "logicalSessionTimeoutMinutes",
        &reply.logical_session_timeout_minutes,
    )?;
    push_optional(alloc, fields, "lastWrite", &reply.last_write)?;
    push_optional(alloc, fields, "minWireVersion", &reply.min_wire_version)?;
    push_optional(alloc, fields, "maxWireVersion", &reply.max_wire_version)?;
    push_optional(alloc, fields, "tags", &reply.tags)?;
    Ok(())
}

fn write_election(
    alloc: Global,
    fields: &mut Fields,
    reply: &HelloCommandResponse,
) -> Result<(), OutOfMemory>
    ensures { OnOk result (map named_content fields.new.items ≡ map named_content fields.old.items ++ written_rows (five 20) (reply_election reply.now)) }
{
    push_optional(alloc, fields, "electionId", &reply.election_id)?;
    push_optional(alloc, fields, "primary", &reply.primary)?;
    push_optional(
        alloc,
        fields,
        "saslSupportedMechs",
        &reply.sasl_supported_mechs,
    )?;
    push_optional(
        alloc,
        fields,
        "speculativeAuthenticate",
        &reply.speculative_authenticate,
    )?;
    push_required(
        alloc,
        fields,
        "maxBsonObjectSize",
        &reply.max_bson_object_size,
    )?;
    Ok(())
}

fn write_limits(
    alloc: Global,
    fields: &mut Fields,
    reply: &HelloCommandResponse,
) -> Result<(), OutOfMemory>
    ensures { OnOk result (map named_content fields.new.items ≡ map named_content fields.old.items ++ written_rows (five 25) (reply_limits reply.now)) }
{
    push_optional(
        alloc,
        fields,
        "maxWriteBatchSize",
        &reply.max_write_batch_size,
    )?;
    push_optional(alloc, fields, "serviceId", &reply.service_id)?;
    push_optional(alloc, fields, "topologyVersion", &reply.topology_version)?;
    push_required(
        alloc,
        fields,
        "maxMessageSizeBytes",
        &reply.max_message_size_bytes,
    )?;
    push_optional(alloc, fields, "connectionId", &reply.connection_id)?;
    Ok(())
}

impl HelloCommandResponse {
    /// Writes the reply as a document: the fields that it has, in the order of this struct. A session timeout above
    /// 2^63 - 1 is written as that number.
    pub fn to_doc(&self, alloc: Global) -> Result<Doc, OutOfMemory>
        ensures written { IfOk result (λ doc. doc_content doc ≡ written self.now) }
        // `from_doc` reads the reply back, where the session timeout is below 2^63.
        ensures back { IfOk result (λ doc. IsShort self.now.logical_session_timeout_minutes → read (doc_content doc) ≡ Ok self.now) }
    {
        plain_reply(self);
        let mut fields = Vec::new(alloc);
        write_greeting(alloc, &mut fields, self)?;
        write_membership(alloc, &mut fields, self)?;
        write_role(alloc, &mut fields, self)?;
        write_state(alloc, &mut fields, self)?;
        write_election(alloc, &mut fields, self)?;
        write_limits(alloc, &mut fields, self)?;
        Ok(doc_of(fields))
    }
}
