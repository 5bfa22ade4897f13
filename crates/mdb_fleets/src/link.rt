//! A link to a member of a replica set.

ghost use Rattle.std.specs.Prelude.{◌≡◌, ◌<◌, length, IfOk, None};
ghost use Rattle.mdb_fleets.specs.MemberReplies.{address_of};
ghost use Rattle.mdb_fleets.specs.ReplicaSet.{reply_now};

use crate::fleet::Fleet;
use crate::member::member_address;
use mdb_base::{Doc, OutOfMemory};
use mdb_hello::{Command, HelloReply, Link, LinkError, RunHelloError, run_hello};
use std::alloc::Global;

/// A link over which one member answers each command with its reply to a hello, as it is now. It never fails but for want of
/// memory.
#[derive(Drop)]
pub struct FleetLink<'a> {
    pub(crate) fleet: &'a Fleet,
    pub(crate) member: u32,
    ghost there: { member < length fleet.now.members },
}

impl Link for FleetLink<'_> {
    ghost use Rattle.std.specs.Prelude.{Some};
    ghost use Rattle.mdb_hello.specs.Reply.{written};
    ghost use Rattle.mdb_fleets.specs.FleetLinks.{link_reply, link_state, GivesReply};

    ghost document = { λ l c. Some (written (link_reply l)) };

    ghost state = { λ l. link_state };

    ghost exchanged = { λ l c answer m. (m ≡ l) × GivesReply (link_reply l) answer };

    fn exchange(&mut self, alloc: Global, _command: &Command) -> Result<Doc, LinkError> {
        let reply = match self.fleet.reply_now(alloc, self.member) {
            Ok(reply) => reply,
            Err(_) => return Err(LinkError::OutOfMemory),
        };
        match reply.to_doc(alloc) {
            Ok(doc) => Ok(doc),
            Err(_) => Err(LinkError::OutOfMemory),
        }
    }
}

/// Greets a member over its link.
pub fn greet(
    alloc: Global,
    fleet: &Fleet,
    member: u32,
    command: &Command,
) -> Result<HelloReply, OutOfMemory>
    requires { member < length fleet.now.members }

    // The reply is exactly that of the member now, under its address.
    ensures response { IfOk result (λ reply. reply.command_response ≡ reply_now fleet.now member) }
    ensures address { IfOk result (λ reply. reply.server_address ≡ address_of member) }
    ensures cluster_time { IfOk result (λ reply. reply.cluster_time ≡ None) }
{
    let address = member_address(alloc, member)?;
    let mut link = fleet.link(member);
    let greeted = run_hello(alloc, &mut link, &address, command);
    match greeted {
        Ok(reply) => Ok(reply),
        Err(RunHelloError::OutOfMemory) => Err(OutOfMemory),
        Err(_) => unreachable!(),
    }
}
