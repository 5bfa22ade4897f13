//! What the types of a reply's fields say of their values: small numbers are of 32 bits, and tags stand by name.
//! The functions below do nothing; their clauses hand on what the types say.

ghost use Rattle.std.specs.Prelude.{false, IsTrue};
ghost use Rattle.mdb_hello.specs.Kinds.{a_small_number, some_tags, is_small};
ghost use Rattle.mdb_hello.specs.ReadBack.{IsPlainSlot, IsPlainReply, IsShort};

use crate::response::HelloCommandResponse;
use mdb_base::TagSet;

fn small(n: Option<i32>)
    ensures { IsPlainSlot false a_small_number n }
{
    match n {
        Some(_n) => {}
        None => {}
    }
}

fn size(n: &i32)
    ensures { IsTrue (is_small n.now) }
{
    let _n = *n;
}

fn tagged(tags: &Option<TagSet>)
    ensures { IsPlainSlot false some_tags tags.now }
{
    match tags {
        Some(tags) => {
            let _ = tags.as_slice();
        }
        None => {}
    }
}

/// A reply with a session timeout below 2^63 is read back from what it is written as.
pub fn plain_reply(reply: &HelloCommandResponse)
    ensures { IsShort reply.now.logical_session_timeout_minutes → IsPlainReply reply.now }
{
    small(reply.set_version);
    small(reply.min_wire_version);
    small(reply.max_wire_version);
    tagged(&reply.tags);
    size(&reply.max_message_size_bytes);
}
