//! Reading a reply.

ghost use Rattle.std.specs.Prelude.{◌≡◌, IfOk};
ghost use Rattle.mdb_log.specs.declared.reply.Reply.{Reply};
ghost use Rattle.mdb_lines.specs.LogText.{reply_text};
ghost use Rattle.mdb_entries.specs.Replies.{IsReply, ReadsEnded, ReadsChanged, ReadsCount, ReadsRefused, ReadsReply, ReadsNamed};
ghost use Rattle.mdb_parts.specs.Reading.{Gives};

use crate::places::place;
use crate::refusals::refusal;
use crate::reply_kind::{ReplyKind, reply_kind};
use crate::reply_rules::{is_reply, reply_types};
use mdb_base::cut;
use mdb_event_reading::read_end;
use mdb_log::Reply;
use mdb_parts::LineError;
use mdb_parts::words::{last, number64};
use std::alloc::Global;

fn ended(alloc: Global, text: &str) -> Result<Reply, LineError>
    ensures { ReadsEnded text.now result }
{
    let word = last(text, " ")?;
    let end = read_end(alloc, word)?;
    Ok(Reply::Ended(end))
}

fn changed(text: &str) -> Result<Reply, LineError>
    ensures { ReadsChanged text.now result }
{
    let word = last(text, " ")?;
    Ok(Reply::Changed(word == "true"))
}

fn count(text: &str) -> Result<Reply, LineError>
    ensures { ReadsCount text.now result }
{
    let word = last(text, " ")?;
    let number = number64(word).ok_or(LineError::Bad)?;
    Ok(Reply::Count(number))
}

fn refused(text: &str) -> Result<Reply, LineError>
    ensures { ReadsRefused text.now result }
{
    let word = last(text, " ")?;
    let why = refusal(word)?;
    Ok(Reply::Refused(why))
}

fn read_kind(alloc: Global, kind: ReplyKind, text: &str) -> Result<Reply, LineError>
    ensures { ReadsReply kind text.now result }
{
    match kind {
        ReplyKind::Pooled => {
            let (pool, id) = place(text)?;
            Ok(Reply::Pooled(pool, id))
        }
        ReplyKind::Establishing => {
            let (pool, id) = place(text)?;
            Ok(Reply::Establishing(pool, id))
        }
        ReplyKind::Waiting => Ok(Reply::Waiting),
        ReplyKind::Ended => ended(alloc, text),
        ReplyKind::Job => {
            let (pool, id) = place(text)?;
            Ok(Reply::Job(pool, id))
        }
        ReplyKind::NoJob => Ok(Reply::NoJob),
        ReplyKind::Changed => changed(text),
        ReplyKind::Count => count(text),
        ReplyKind::Done => Ok(Reply::Done),
        ReplyKind::Refused => refused(text),
    }
}

fn read_named(alloc: Global, text: &str) -> Result<Reply, LineError>
    ensures { ReadsNamed text.now result }
{
    let (name, rest) = cut(text, ' ');
    match reply_kind(name) {
        Some(kind) => read_kind(alloc, kind, rest),
        None => Err(LineError::Bad),
    }
}

/// The reply that a text spells. It may take more than is spelled: what is read is compared with its text.
pub fn read_reply(alloc: Global, text: &str) -> Result<Reply, LineError>
    ensures found { IfOk result IsReply }
    ensures only { (r : Reply) → IsReply r → text.now ≡ reply_text r → Gives r result }
{
    let reply = read_named(alloc, text)?;
    reply_types(&reply);
    if is_reply(&reply) {
        Ok(reply)
    } else {
        drop(reply);
        Err(LineError::Bad)
    }
}
