//! The replies of members.

ghost use Rattle.std.specs.Prelude.{◌≡◌, ◌<◌, ◌≤◌, ◌^◌, IfOk};
ghost use Rattle.mdb_fleets.specs.MemberReplies.{address_text, address_texts, election_id, process_of, reply_of};

use crate::member::Member;
use mdb_base::{Items, ObjectId, OutOfMemory, Text, TopologyVersion};
use mdb_hello::HelloCommandResponse;
use std::alloc::Global;

fn address_text(alloc: Global, member: u32) -> Result<Text, OutOfMemory>
    ensures { IfOk result (λ text. text ≡ address_text member) }
{
    Ok(Text::new(format!(in alloc; "m{member}:27017")?))
}

fn address_texts(alloc: Global, count: u32) -> Result<Items<Text>, OutOfMemory>
    ensures { IfOk result (λ texts. texts ≡ address_texts count) }
{
    let mut texts = Vec::new(alloc);
    for member in 0..count {
        texts.push(address_text(alloc, member)?)?;
    }
    Ok(Items::new(texts))
}

fn process_of(member: u32) -> ObjectId
    requires { member < 50 }
    ensures { result ≡ process_of member }
{
    let number = member as u8 + 1;
    ObjectId([0, 0, 0, 0, 0, 0, 0, 0, 0, 0, 0, number])
}

fn election_id(election: u64) -> ObjectId
    ensures { result ≡ election_id election }
{
    let bytes = election.to_be_bytes();
    let mut id = [0u8; 12];
    let (_zeros, number) = id.split_at_mut(4);
    number.copy_from_slice(&bytes);
    ObjectId(id)
}

/// The reply of the member with this number among so many.
pub fn reply_of(
    alloc: Global,
    count: u32,
    number: u32,
    member: &Member,
) -> Result<HelloCommandResponse, OutOfMemory>
    requires few { number < 50 }
    requires small { member.now.set_version < 2 ^ 31 }
    ensures { IfOk result (λ reply. reply ≡ reply_of count number member.now) }
{
    let hosts = address_texts(alloc, count)?;
    let me = address_text(alloc, number)?;
    let set_name = Text::new(String::from_str(alloc, "rs")?);
    let is_primary = member.election.is_some();
    Ok(HelloCommandResponse {
        is_writable_primary: Some(is_primary),
        hello_ok: Some(true),
        hosts: Some(hosts),
        me: Some(me),
        set_version: Some(member.set_version as i32),
        set_name: Some(set_name),
        secondary: Some(!is_primary),
        min_wire_version: Some(0),
        max_wire_version: Some(21),
        election_id: member.election.map(election_id),
        topology_version: Some(TopologyVersion {
            process_id: process_of(number),
            counter: i64::from(member.counter),
        }),
        ..HelloCommandResponse::default()
    })
}
