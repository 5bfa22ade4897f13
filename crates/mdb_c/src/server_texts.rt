//! The texts of a server.

ghost use Rattle.std.specs.Prelude.{◌≡◌, IfOk, option_map, option_copied, string_bytes};
ghost use Rattle.mdb_base.specs.ErrorText.{error_text};
ghost use Rattle.mdb_c.specs.Servers.{reply_text, server_text, text_at};

use crate::given::{list_in_reply, text_in_reply, text_of_id};
use crate::which::{
    ADDRESS, ARBITERS, ELECTION_ID, ERROR, HOSTS, INFO, ME, PASSIVES, PRIMARY, REPLY, SET_NAME,
};
use mdb_base::{Error, OutOfMemory};
use mdb_describe::{ServerDescription, ServerInfo};
use mdb_hello::HelloCommandResponse;
use mdb_replies::ReplyText;
use std::alloc::Global;

// The text of this number, if the reply has it.
fn text_of_reply(
    alloc: Global,
    reply: &HelloCommandResponse,
    which: u32,
) -> Result<Option<String>, OutOfMemory>
    ensures { IfOk result (λ text. option_map string_bytes text ≡ reply_text which reply.now) }
{
    if which == SET_NAME {
        text_in_reply(alloc, &reply.set_name)
    } else if which == ELECTION_ID {
        text_of_id(alloc, reply.election_id)
    } else if which == ME {
        text_in_reply(alloc, &reply.me)
    } else if which == PRIMARY {
        text_in_reply(alloc, &reply.primary)
    } else if which == HOSTS {
        list_in_reply(alloc, &reply.hosts)
    } else if which == PASSIVES {
        list_in_reply(alloc, &reply.passives)
    } else if which == ARBITERS {
        list_in_reply(alloc, &reply.arbiters)
    } else if which == REPLY {
        let fields = ReplyText(reply, false);
        Ok(Some(format!(in alloc; "{fields}")?))
    } else {
        Ok(None)
    }
}

// The text of the error, if there is one.
fn text_of_error(alloc: Global, error: Option<&Error>) -> Result<Option<String>, OutOfMemory>
    ensures { IfOk result (λ text. option_map string_bytes text ≡ option_map error_text (option_copied error.entry)) }
{
    match error {
        Some(error) => Ok(Some(format!(in alloc; "{error}")?)),
        None => Ok(None),
    }
}

// The text of this number, if the server has it.
fn text_of_server(
    alloc: Global,
    server: &ServerDescription,
    which: u32,
) -> Result<Option<String>, OutOfMemory>
    ensures { IfOk result (λ text. option_map string_bytes text ≡ server_text which server.now) }
{
    if which == ERROR {
        return text_of_error(alloc, server.error());
    }
    if which == ADDRESS {
        let address = &server.address;
        return Ok(Some(format!(in alloc; "{address}")?));
    }
    if which == INFO {
        return Ok(Some(ServerInfo::new(server).text(alloc)?));
    }
    match server.response() {
        Some(reply) => text_of_reply(alloc, reply, which),
        None => Ok(None),
    }
}

/// The text of this number of the server at the place, if there is such a server and it has the text.
pub fn text_at(
    alloc: Global,
    servers: &[ServerDescription],
    index: usize,
    which: u32,
) -> Result<Option<String>, OutOfMemory>
    ensures { IfOk result (λ text. option_map string_bytes text ≡ text_at servers.now index which) }
{
    match servers.get(index) {
        Some(server) => text_of_server(alloc, server, which),
        None => Ok(None),
    }
}
