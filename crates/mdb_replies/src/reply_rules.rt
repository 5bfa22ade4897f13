//! Which replies a line spells.

ghost use Rattle.std.specs.Prelude.{◌≡◌, IfOk, IfSome, FitsSigned};
ghost use Rattle.std.specs.Int.{w32};
ghost use Rattle.mdb_replies.specs.ReplyParts.{are_members, are_names, are_versions, are_marks, names_all, sizes_none, is_reply, IsReplyOfTypes};

use crate::value_rules::{
    are_optional_hosts, are_optional_tags, is_optional_address, is_optional_id, is_optional_natural,
};
use mdb_base::OutOfMemory;
use mdb_hello::HelloCommandResponse;
use mdb_parts::number_types::{optional_id, signed, wide};
use mdb_parts::word_rule::is_optional_word;
use mdb_parts::{is_optional_version, version_types};
use std::alloc::Global;

#[tactic(auto, unfolding(crate::specs::ReplyParts::are_members))]
fn are_members(alloc: Global, r: &HelloCommandResponse) -> Result<bool, OutOfMemory>
    ensures { IfOk result (λ spelled. spelled ≡ are_members r.now) }
{
    let hosts = are_optional_hosts(alloc, &r.hosts)?;
    let passives = are_optional_hosts(alloc, &r.passives)?;
    let arbiters = are_optional_hosts(alloc, &r.arbiters)?;
    Ok(hosts && passives && arbiters)
}

#[tactic(auto, unfolding(crate::specs::ReplyParts::are_names))]
fn are_names(alloc: Global, r: &HelloCommandResponse) -> Result<bool, OutOfMemory>
    ensures { IfOk result (λ spelled. spelled ≡ are_names r.now) }
{
    let me = is_optional_address(alloc, &r.me)?;
    let primary = is_optional_address(alloc, &r.primary)?;
    Ok(is_optional_word(&r.msg) && me && is_optional_word(&r.set_name) && primary)
}

#[tactic(auto, unfolding(crate::specs::ReplyParts::are_versions))]
fn are_versions(r: &HelloCommandResponse) -> bool
    ensures { result ≡ are_versions r.now }
{
    is_optional_natural(r.set_version)
        && is_optional_natural(r.min_wire_version)
        && is_optional_natural(r.max_wire_version)
}

#[tactic(auto, unfolding(crate::specs::ReplyParts::are_marks))]
fn are_marks(r: &HelloCommandResponse) -> bool
    ensures { result ≡ are_marks r.now }
{
    are_optional_tags(&r.tags)
        && is_optional_version(r.topology_version)
        && is_optional_id(r.connection_id)
}

#[tactic(auto, unfolding(crate::specs::ReplyParts::names_all))]
fn names_all(r: &HelloCommandResponse) -> bool
    ensures { result ≡ names_all r.now }
{
    r.compressors.is_none()
        && r.last_write.is_none()
        && r.sasl_supported_mechs.is_none()
        && r.speculative_authenticate.is_none()
        && r.service_id.is_none()
}

#[tactic(auto, unfolding(crate::specs::ReplyParts::sizes_none))]
fn sizes_none(r: &HelloCommandResponse) -> bool
    ensures { result ≡ sizes_none r.now }
{
    r.max_bson_object_size == 0 && r.max_write_batch_size.is_none() && r.max_message_size_bytes == 0
}

/// A line can spell the reply.
#[tactic(auto, unfolding(crate::specs::ReplyParts::is_reply))]
pub fn is_reply(alloc: Global, r: &HelloCommandResponse) -> Result<bool, OutOfMemory>
    ensures { IfOk result (λ spelled. spelled ≡ is_reply r.now) }
{
    let members = are_members(alloc, r)?;
    let names = are_names(alloc, r)?;
    Ok(members && names && are_versions(r) && are_marks(r) && names_all(r) && sizes_none(r))
}

fn narrow_signed(number: Option<i32>)
    ensures { IfSome number (FitsSigned w32) }
{
    match number {
        Some(_n) => {}
        None => {}
    }
}

/// The numbers of a reply are those of its types.
pub fn reply_types(r: &HelloCommandResponse)
    ensures { IsReplyOfTypes r.now }
{
    narrow_signed(r.set_version);
    wide(r.logical_session_timeout_minutes);
    narrow_signed(r.min_wire_version);
    narrow_signed(r.max_wire_version);
    optional_id(r.election_id);
    version_types(r.topology_version);
    signed(r.connection_id);
}
