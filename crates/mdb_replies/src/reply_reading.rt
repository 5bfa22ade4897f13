//! Reading a reply.

ghost use Rattle.std.specs.Prelude.{◌≡◌, Bool, true};
ghost use Rattle.mdb_hello.specs.declared.response.HelloCommandResponse.{HelloCommandResponse};
ghost use Rattle.mdb_parts.specs.Reading.{Gives};
ghost use Rattle.mdb_replies.specs.ReplyParts.{fields_text, names_all, sizes_none, is_reply, IsReplyOfTypes};
ghost use Rattle.mdb_replies.specs.Groups.{roles_of, members_of, names_of, marks_of, wires_of, ids_of};

use crate::groups::{
    Ids, Marks, Members, Names, Roles, Wires, read_ids, read_marks, read_members, read_names,
    read_roles, read_wires,
};
use mdb_hello::HelloCommandResponse;
use mdb_parts::LineError;
use mdb_parts::parts::flag_part;
use std::alloc::Global;

// The reply of these fields, which lacks every field that no line names.
fn reply_of(
    roles: Roles,
    members: Members,
    names: Names,
    marks: Marks,
    wires: Wires,
    ids: Ids,
) -> HelloCommandResponse
    ensures { (r : HelloCommandResponse) → names_all r ≡ true → sizes_none r ≡ true → roles ≡ roles_of r → members ≡ members_of r → names ≡ names_of r → marks ≡ marks_of r → wires ≡ wires_of r → ids ≡ ids_of r → result ≡ r }
{
    HelloCommandResponse {
        is_writable_primary: roles.is_writable_primary,
        is_master: roles.is_master,
        hello_ok: roles.hello_ok,
        hosts: members.hosts,
        passives: members.passives,
        arbiters: members.arbiters,
        msg: names.msg,
        me: names.me,
        compressors: None,
        set_version: names.set_version,
        set_name: names.set_name,
        hidden: marks.hidden,
        secondary: marks.secondary,
        arbiter_only: marks.arbiter_only,
        is_replica_set: marks.is_replica_set,
        logical_session_timeout_minutes: wires.timeout,
        last_write: None,
        min_wire_version: wires.min,
        max_wire_version: wires.max,
        tags: ids.tags,
        election_id: ids.election,
        primary: ids.primary,
        sasl_supported_mechs: None,
        speculative_authenticate: None,
        max_bson_object_size: 0,
        max_write_batch_size: None,
        service_id: None,
        topology_version: ids.version,
        max_message_size_bytes: 0,
        connection_id: ids.connection,
    }
}

/// The fields of a reply, and whether more replies are to come.
pub fn reply(alloc: Global, text: &str) -> Result<(HelloCommandResponse, bool), LineError>
    ensures { (r : HelloCommandResponse) (more : Bool) → IsReplyOfTypes r → is_reply r ≡ true → text.now ≡ fields_text r more → Gives (r, more) result }
{
    let (roles, rest) = read_roles(text);
    let (members, rest) = read_members(alloc, rest)?;
    let (names, rest) = read_names(alloc, rest)?;
    let (marks, rest) = read_marks(rest);
    let (wires, rest) = read_wires(rest);
    let (ids, rest) = read_ids(alloc, rest)?;
    let (more, _rest) = flag_part(rest, " more");
    let reply = reply_of(roles, members, names, marks, wires, ids);
    Ok((reply, more))
}
