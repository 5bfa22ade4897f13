//! The replies of members to hellos, as texts.

ghost use Rattle.std.specs.Prelude.{◌≡◌, ◌<◌, ◌^◌, IfOk, IfErr, string_bytes, false};
ghost use Rattle.mdb_replies.specs.ReplyParts.{fields_text};
ghost use Rattle.mdb_fleets.specs.MemberReplies.{reply_of};
ghost use Rattle.mdb_fleets.specs.ReplicaSet.{reply_now};
ghost use Rattle.mdb_fleet_session.specs.Fleets.{set_of, Unanswered};

use crate::fleet::find;
use crate::member_numbers::{MemberNumbers, member_at};
use mdb_base::OutOfMemory;
use mdb_fleets::{Member, reply_of};
use mdb_hello::HelloCommandResponse;
use mdb_replies::ReplyText;
use mdb_session::{NO_MEMORY, OK, Status};
use std::alloc::Global;

// The fields of the reply, as a line has them.
fn text_of(alloc: Global, reply: &HelloCommandResponse) -> Result<String, OutOfMemory>
    ensures { IfOk result (λ text. string_bytes text ≡ fields_text reply.now false) }
{
    let fields = ReplyText(reply, false);
    Ok(format!(in alloc; "{fields}")?)
}

// The fields of the reply of the member with the number among so many.
fn reply_text(
    alloc: Global,
    count: u32,
    number: u32,
    member: &Member,
) -> Result<String, OutOfMemory>
    requires few { number < 50 }
    requires small { member.now.set_version < 2 ^ 31 }
    ensures { IfOk result (λ text. string_bytes text ≡ fields_text (reply_of count number member.now) false) }
{
    let reply = reply_of(alloc, count, number, member)?;
    text_of(alloc, &reply)
}

/// What the member answers to a hello now, as the fields of a line. Fails with the status of a call from C.
pub fn reply(alloc: Global, members: &[MemberNumbers], member: u32) -> Result<String, Status>
    ensures ok { IfOk result (λ text. string_bytes text ≡ fields_text (reply_now (set_of members.now 0) member) false) }
    ensures err { IfErr result (λ why. Unanswered members.now member why) }
{
    let found = find(members, member);
    if found != OK {
        return Err(found);
    }
    let said = member_at(members, member);
    match reply_text(alloc, members.len() as u32, member, &said) {
        Ok(text) => Ok(text),
        Err(_) => Err(NO_MEMORY),
    }
}
