//! Reading a reply from a document.

ghost use Rattle.std.specs.Prelude.{◌≡◌, IfOk, codes};
ghost use Rattle.mdb_base.specs.Document.{doc_content};
ghost use Rattle.mdb_hello.specs.Groups.{halves_values, reply_of_halves};
ghost use Rattle.mdb_hello.specs.Kinds.{named};
ghost use Rattle.mdb_hello.specs.TagRule.{HasTagsOf};
ghost use Rattle.mdb_hello.specs.Reading.{Gives, Reads};
ghost use Rattle.mdb_hello.specs.Reply.{read};

use crate::checking::check;
use crate::error::{BadField, HelloError};
use crate::groups::{Back, Front, read_halves};
use crate::response::HelloCommandResponse;
use mdb_base::Doc;
use std::alloc::Global;

impl HelloCommandResponse {
    /// Reads a server's answer to a hello. `BadField` names the first field, in the order of this struct, that has
    /// another type, or that is one of the two sizes and is absent. Of repeated names the first counts, and other
    /// names are ignored. `OutOfMemory` comes only where no field is bad.
    pub fn from_doc(alloc: Global, doc: &Doc) -> Result<HelloCommandResponse, HelloError>
        ensures read { Reads result (read (doc_content doc.now)) }
        ensures tags { IfOk result (λ reply. HasTagsOf (named (codes "tags") (doc_content doc.now)) reply.tags) }
    {
        match check(doc) {
            Ok(()) => read_reply(alloc, doc),
            Err(BadField(name)) => Err(HelloError::BadField(name)),
        }
    }
}

// Reads a reply, copying each field in turn.
fn read_reply(alloc: Global, doc: &Doc) -> Result<HelloCommandResponse, HelloError>
    ensures { Gives result (read (doc_content doc.now)) }
{
    match read_halves(alloc, doc) {
        Ok((front, back)) => Ok(reply_of(front, back)),
        Err(e) => Err(e),
    }
}

fn reply_of(front: Front, back: Back) -> HelloCommandResponse
    ensures { result ≡ reply_of_halves (halves_values (front, back)) }
{
    let (greeting, membership, role) = front;
    let (state, election, limits) = back;
    HelloCommandResponse {
        is_writable_primary: greeting.is_writable_primary,
        is_master: greeting.is_master,
        hello_ok: greeting.hello_ok,
        hosts: greeting.hosts,
        passives: greeting.passives,
        arbiters: membership.arbiters,
        msg: membership.msg,
        me: membership.me,
        compressors: membership.compressors,
        set_version: membership.set_version,
        set_name: role.set_name,
        hidden: role.hidden,
        secondary: role.secondary,
        arbiter_only: role.arbiter_only,
        is_replica_set: role.is_replica_set,
        logical_session_timeout_minutes: state.logical_session_timeout_minutes,
        last_write: state.last_write,
        min_wire_version: state.min_wire_version,
        max_wire_version: state.max_wire_version,
        tags: state.tags,
        election_id: election.election_id,
        primary: election.primary,
        sasl_supported_mechs: election.sasl_supported_mechs,
        speculative_authenticate: election.speculative_authenticate,
        max_bson_object_size: election.max_bson_object_size,
        max_write_batch_size: limits.max_write_batch_size,
        service_id: limits.service_id,
        topology_version: limits.topology_version,
        max_message_size_bytes: limits.max_message_size_bytes,
        connection_id: limits.connection_id,
    }
}
