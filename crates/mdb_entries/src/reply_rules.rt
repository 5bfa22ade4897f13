//! Which replies a text spells.

ghost use Rattle.std.specs.Prelude.{◌≡◌, ◌<◌, ◌^◌};
ghost use Rattle.mdb_entries.specs.Replies.{is_reply, IsRefusedOfTypes, IsReplyOfTypes};

use mdb_event_reading::{end_types, is_end};
use mdb_log::{Refused, Reply};

/// The error of a reply keeps the rules of errors.
pub fn is_reply(reply: &Reply) -> bool
    ensures { result ≡ is_reply reply.now }
{
    match reply {
        Reply::Ended(end) => is_end(end),
        _ => true,
    }
}

fn refused_types(why: Refused)
    ensures { IsRefusedOfTypes why }
{
    match why {
        Refused::TimeBack(_moment) => {}
        _ => {}
    }
}

/// The numbers of a reply are those of its types.
pub fn reply_types(reply: &Reply)
    ensures { IsReplyOfTypes reply.now }
{
    match reply {
        Reply::Pooled(p, c) => {
            let _numbers = (*p, *c);
        }
        Reply::Establishing(p, c) => {
            let _numbers = (*p, *c);
        }
        Reply::Job(p, c) => {
            let _numbers = (*p, *c);
        }
        Reply::Ended(end) => end_types(end),
        Reply::Count(n) => {
            let _number = *n;
        }
        Reply::Refused(why) => refused_types(*why),
        _ => {}
    }
}
