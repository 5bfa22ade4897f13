//! Cases of mdb_describe: servers.

use crate::hello::response;
use mdb_base::{Doc, Document, OutOfMemory, ServerAddress};
use mdb_cases::{Page, down, parted};
use mdb_describe::{ServerDescription, ServerInfo};
use mdb_hello::HelloReply;

fn made(
    page: &mut Page,
    made: Result<ServerDescription, OutOfMemory>,
) -> Option<ServerDescription> {
    match made {
        Ok(description) => Some(description),
        Err(_) => {
            page.fail();
            None
        }
    }
}

fn failed(page: &mut Page, address: ServerAddress, words: &str) -> ServerDescription {
    let reply = response(page, words);
    let version = reply.topology_version;
    drop(reply);
    let mut error = down(page);
    error.topology_version = version;
    ServerDescription::new_from_error(address, error)
}

fn reply(page: &mut Page, server_address: ServerAddress, words: &str) -> HelloReply {
    HelloReply {
        server_address,
        command_response: response(page, words),
        raw_command_response: Document::new(Doc {
            fields: Vec::new(page.alloc),
        }),
        cluster_time: None,
    }
}

fn replied(page: &mut Page, address: ServerAddress, words: &str) -> Option<ServerDescription> {
    let own = page.same_address(&address)?;
    let reply = reply(page, own, words);
    let description = ServerDescription::new_from_hello_reply(page.alloc, address, reply, 1, 2);
    made(page, description)
}

fn unknown(page: &mut Page, address: &ServerAddress) -> Option<ServerDescription> {
    let description = ServerDescription::new(page.alloc, address);
    made(page, description)
}

fn balancer(page: &mut Page, address: &ServerAddress) -> Option<ServerDescription> {
    let address = page.same_address(address)?;
    Some(ServerDescription::new_load_balancer(address))
}

// The description of a server by its address, its kind and its fields; none where the first word is no address, or where memory is short.
pub fn server(page: &mut Page, given: &str) -> Option<ServerDescription> {
    let (host, words) = parted(given);
    let address = page.address(host)?;
    match words {
        "" => unknown(page, &address),
        "balancer" => balancer(page, &address),
        _ if words.starts_with("error") => Some(failed(page, address, words)),
        _ => replied(page, address, words),
    }
}

fn show_info(page: &mut Page, server: &ServerDescription) {
    match ServerInfo::new(server).text(page.alloc) {
        Ok(text) => page.put(text.as_str()),
        Err(_) => page.fail(),
    }
}

fn show_compatible(page: &mut Page, server: &ServerDescription) {
    match server.compatibility_error_message(page.alloc) {
        Ok(Some(message)) => page.put(message.as_str()),
        Ok(None) => page.put("yes"),
        Err(_) => page.fail(),
    }
}

fn show_fault(page: &mut Page, server: &ServerDescription) {
    match server.error() {
        Some(error) => page.show(error),
        None => page.put("none"),
    }
}

fn show_versions(page: &mut Page, info: &ServerInfo) {
    page.debug(&info.min_wire_version());
    page.put(" ");
    page.debug(&info.max_wire_version());
    page.put(" ");
    page.debug(&info.replica_set_version());
}

fn show_times(page: &mut Page, info: &ServerInfo) {
    page.debug(&info.average_round_trip_time());
    page.put(" ");
    page.debug(&info.last_update_time());
}

// Each single thing that is told of a server.
fn show_told(page: &mut Page, info: &ServerInfo) {
    page.show(info.address());
    page.put(" ");
    page.debug(&info.server_type());
    page.put(" ");
    show_times(page, info);
    page.put(" ");
    show_versions(page, info);
    page.put(" ");
    page.put(info.replica_set_name().unwrap_or("-"));
    page.put_if(info.tags().is_some(), " tags");
    page.put_if(info.error().is_some(), " error");
}

fn show_server(page: &mut Page, kind: &str, server: &ServerDescription) {
    match kind {
        "info" => show_info(page, server),
        "compatible" => show_compatible(page, server),
        "told" => show_told(page, &ServerInfo::new(server)),
        "own" => page.answer(!server.invalid_me()),
        "available" => page.answer(server.is_available()),
        "bearing" => page.answer(server.is_data_bearing()),
        "fault" => show_fault(page, server),
        _ => page.put("malformed"),
    }
}

fn alike_to(page: &mut Page, one: &ServerDescription, words: &str) {
    let made = server(page, words);
    if let Some(other) = &made {
        page.answer(one.same(other));
    }
    drop(made);
}

// `alike a:1 standalone, a:1 standalone wire=7`: whether the two descriptions say the same.
fn alike(page: &mut Page, given: &str) {
    let (one, other) = given.split_once(", ").unwrap_or((given, ""));
    let made = server(page, one);
    if let Some(one) = &made {
        alike_to(page, one, other);
    }
    drop(made);
}

// `literal a:1 secondary set=foo me=A:1`: whether a server names its own address or none, in a reply that stands as it is.
fn literal(page: &mut Page, given: &str) {
    let (host, words) = parted(given);
    let Some(address) = page.address(host) else {
        return;
    };
    let Some(own) = page.same_address(&address) else {
        return;
    };
    let reply = reply(page, own, words);
    let server = ServerDescription {
        address,
        server_type: reply.command_response.server_type(),
        last_update_time: None,
        average_round_trip_time: None,
        reply: Ok(Some(reply)),
    };
    page.answer(!server.invalid_me());
    drop(server);
}

fn tell_of_server(page: &mut Page, kind: &str, given: &str) {
    let made = server(page, given);
    if let Some(server) = &made {
        show_server(page, kind, server);
    }
    drop(made);
}

/// `server KIND ..`, of the server that the words describe: `info a:1 secondary`, its text; `told a:1 secondary`, each thing by itself;
/// `available a:1 secondary`, whether it can be used; `bearing a:1 secondary`, whether it holds data; `compatible a:1 standalone wire=7`, why
/// the driver cannot speak to it; `own a:1 secondary me=a:1`, whether it names its own address or none; `fault a:1 primary hosts=a:0`, its
/// error. `server alike ..` and `server literal ..` are of two servers, and of one whose reply stands as it is.
pub fn answer(page: &mut Page, given: &str) {
    let (kind, given) = parted(given);
    match kind {
        "alike" => alike(page, given),
        "literal" => literal(page, given),
        _ => tell_of_server(page, kind, given),
    }
}
