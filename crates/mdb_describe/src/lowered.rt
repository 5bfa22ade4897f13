//! The texts of hosts in lower case.

ghost use Rattle.std.specs.Prelude.{◌≡◌, map, IfOk, OnOk};
ghost use Rattle.mdb_describe.specs.Listed.{lower};
ghost use Rattle.mdb_describe.specs.Descriptions.{lower_list, lower_text, lowered, lowered_reply};

use mdb_base::{Items, OutOfMemory, Text};
use mdb_hello::{HelloCommandResponse, HelloReply};
use std::alloc::Global;

fn lower(text: Text) -> Text
    ensures { result ≡ lower text }
{
    let mut text = text.into_inner();
    text.make_ascii_lowercase();
    Text::new(text)
}

fn lower_text(text: Option<Text>) -> Option<Text>
    ensures { result ≡ lower_text text }
{
    match text {
        Some(text) => Some(lower(text)),
        None => None,
    }
}

fn lower_all(alloc: Global, texts: Vec<Text>) -> Result<Vec<Text>, OutOfMemory>
    ensures { IfOk result (λ all. all.items ≡ map lower texts.items) }
{
    let mut all = Vec::with_capacity(alloc, texts.len())?;
    for text in texts {
        all.push(lower(text))?;
    }
    Ok(all)
}

fn lower_list(alloc: Global, texts: Option<Items<Text>>) -> Result<Option<Items<Text>>, OutOfMemory>
    ensures { IfOk result (λ all. all ≡ lower_list texts) }
{
    match texts {
        Some(texts) => {
            let all = lower_all(alloc, texts.into_inner())?;
            Ok(Some(Items::new(all)))
        }
        None => Ok(None),
    }
}

fn lower_in_place(alloc: Global, texts: &mut Option<Items<Text>>) -> Result<(), OutOfMemory>
    ensures { OnOk result (texts.new ≡ lower_list texts.old) }
{
    *texts = lower_list(alloc, texts.take())?;
    Ok(())
}

// Lowers hosts, passives, arbiters and `me`.
fn lower_hosts(alloc: Global, response: &mut HelloCommandResponse) -> Result<(), OutOfMemory>
    ensures { OnOk result (response.new ≡ lowered response.old) }
{
    lower_in_place(alloc, &mut response.hosts)?;
    lower_in_place(alloc, &mut response.passives)?;
    lower_in_place(alloc, &mut response.arbiters)?;
    response.me = lower_text(response.me.take());
    Ok(())
}

/// The reply with its hosts, passives, arbiters and `me` in lower case.
pub fn lowered_reply(alloc: Global, reply: HelloReply) -> Result<HelloReply, OutOfMemory>
    ensures { IfOk result (λ r. r ≡ lowered_reply reply) }
{
    let mut reply = reply;
    lower_hosts(alloc, &mut reply.command_response)?;
    Ok(reply)
}
