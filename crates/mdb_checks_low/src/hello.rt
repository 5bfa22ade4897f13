//! Cases of mdb_hello.

use mdb_base::{DateTime, Doc, Items, ObjectId, Text, Value};
use mdb_cases::{Page, down, parted, signed, some_version, value_of, version};
use mdb_hello::{
    AwaitableHelloOptions, Command, HelloCommandResponse, HelloError, HelloReply, MemLink,
    RunHelloError, ServerApi, hello_command, run_hello,
};

// The value of a field of a document within a document.
fn inner_value(page: &mut Page, word: &str) -> Value {
    match word.strip_prefix('@') {
        Some(date) => Value::Date(DateTime(date.parse::<i64>().unwrap_or(0))),
        None => Value::Text(page.string(word)),
    }
}

fn inner_document(page: &mut Page, words: &str) -> Value {
    let mut fields = Vec::new(page.alloc);
    for word in words.split(',') {
        let (name, word) = word.split_once(':').unwrap_or((word, ""));
        let field = (page.string(name), inner_value(page, word));
        page.keep(&mut fields, field);
    }
    Value::Nested(Doc { fields })
}

fn list(page: &mut Page, words: &str) -> Value {
    let mut values = Vec::new(page.alloc);
    for word in words.split(',') {
        let value = Value::Text(page.string(word));
        page.keep(&mut values, value);
    }
    Value::List(values)
}

fn plain(page: &mut Page, word: &str) -> Value {
    match word.parse::<i64>() {
        Ok(number) => Value::Int(number),
        Err(_) => Value::Text(page.string(word)),
    }
}

fn value(page: &mut Page, word: &str) -> Value {
    if let Some(words) = word.strip_prefix('{') {
        return inner_document(page, words);
    }
    match word.strip_prefix('[') {
        Some(words) => list(page, words),
        None => plain(page, word),
    }
}

/// The document of the words `name=value`: a number, a text, `[` and texts, or `{` and fields `name:text` or
/// `name:@date`.
pub fn document(page: &mut Page, words: &str) -> Doc {
    let mut fields = Vec::new(page.alloc);
    for word in words.split(' ') {
        if let Some((name, word)) = word.split_once('=') {
            let field = (page.string(name), value(page, word));
            page.keep(&mut fields, field);
        }
    }
    Doc { fields }
}

fn api(page: &mut Page, version: &str) -> Option<ServerApi> {
    if version.is_empty() {
        return None;
    }
    Some(ServerApi {
        version: page.text(version),
        strict: None,
        deprecation_errors: None,
    })
}

fn flag(word: &str) -> Option<bool> {
    match word {
        "true" => Some(true),
        "false" => Some(false),
        _ => None,
    }
}

fn awaiting(counter: &str) -> Option<AwaitableHelloOptions> {
    if counter.is_empty() {
        return None;
    }
    Some(AwaitableHelloOptions {
        topology_version: version(counter),
        max_await_time: u64::MAX,
    })
}

fn show_command(page: &mut Page, command: &Command) {
    page.show(&command.name);
    page.put(" to ");
    page.show(&command.target_db);
    page.put(if command.exhaust_allowed {
        " again: "
    } else {
        " once: "
    });
    page.debug(command.body.as_doc());
}

/// `greet api=1 balanced=true ok=true version=3`: the command.
pub fn greet(page: &mut Page, given: &str) {
    let api = api(page, value_of(given, "api"));
    let balanced = flag(value_of(given, "balanced"));
    let ok = flag(value_of(given, "ok"));
    let awaiting = awaiting(value_of(given, "version"));
    let made = hello_command(page.alloc, api.as_ref(), balanced, ok, awaiting);
    drop(api);
    match &made {
        Ok(command) => show_command(page, command),
        Err(_) => page.fail(),
    }
    drop(made);
}

fn show_document_of(page: &mut Page, reply: &HelloCommandResponse) {
    let made = reply.to_doc(page.alloc);
    match &made {
        Ok(doc) => page.debug(doc),
        Err(_) => page.fail(),
    }
    drop(made);
}

fn bad(page: &mut Page, name: &str) {
    page.put("bad ");
    page.put(name);
}

// `hello reply FIELDS`: the fields of the reply that this document is read as.
fn reply(page: &mut Page, given: &str) {
    let doc = document(page, given);
    let read = HelloCommandResponse::from_doc(page.alloc, &doc);
    drop(doc);
    match &read {
        Ok(reply) => show_document_of(page, reply),
        Err(HelloError::BadField(name)) => bad(page, name),
        Err(HelloError::OutOfMemory) => page.fail(),
    }
    drop(read);
}

fn set_text(page: &mut Page, reply: &mut HelloCommandResponse, name: &str, word: &str) {
    let text: Option<Text> = Some(page.text(word));
    match name {
        "set" => reply.set_name = text,
        "me" => reply.me = text,
        _ => page.put("malformed"),
    }
}

fn set_list(page: &mut Page, reply: &mut HelloCommandResponse, name: &str, word: &str) {
    let list = Some(page.texts(word));
    match name {
        "hosts" => reply.hosts = list,
        "passives" => reply.passives = list,
        "arbiters" => reply.arbiters = list,
        _ => page.put("malformed"),
    }
}

fn set_kind(page: &mut Page, reply: &mut HelloCommandResponse, kind: &str) {
    match kind {
        "" | "standalone" | "error" => {}
        "primary" => reply.is_writable_primary = Some(true),
        "secondary" => reply.secondary = Some(true),
        "arbiter" => reply.arbiter_only = Some(true),
        "other" => reply.hidden = Some(true),
        "ghost" => reply.is_replica_set = Some(true),
        "mongos" => reply.msg = Some(page.text("isdbgrid")),
        _ => page.put("malformed"),
    }
}

fn set_field(page: &mut Page, reply: &mut HelloCommandResponse, name: &str, word: &str) {
    match name {
        "minutes" => reply.logical_session_timeout_minutes = word.parse::<u64>().ok(),
        "v" => reply.set_version = Some(signed(word)),
        "min" => reply.min_wire_version = Some(signed(word)),
        "wire" => reply.max_wire_version = Some(signed(word)),
        "e" => reply.election_id = ObjectId::from_hex(word),
        "tv" => reply.topology_version = some_version(word),
        "set" | "me" => set_text(page, reply, name, word),
        _ => set_list(page, reply, name, word),
    }
}

/// The reply with the fields that the words name.
pub fn response(page: &mut Page, words: &str) -> HelloCommandResponse {
    let mut reply = HelloCommandResponse::default();
    for word in words.split(' ') {
        match word.split_once('=') {
            Some((name, value)) => set_field(page, &mut reply, name, value),
            None => set_kind(page, &mut reply, word),
        }
    }
    reply
}

// `hello kind set=rs other`: the kind of server that sends such a reply.
fn kind(page: &mut Page, given: &str) {
    let reply = response(page, given);
    page.debug(&reply.server_type());
    drop(reply);
}

// `hello written minutes=5`: the document of such a reply.
fn written(page: &mut Page, given: &str) {
    let reply = response(page, given);
    show_document_of(page, &reply);
    drop(reply);
}

fn show_reply(page: &mut Page, reply: &HelloReply) {
    let fields = reply.raw_command_response.as_doc().fields.len();
    page.debug(&reply.command_response.server_type());
    page.put(" at ");
    page.show(&reply.server_address);
    page.put(" wire ");
    page.show(&reply.command_response.max_wire_version.unwrap_or(0));
    page.put(" by ");
    page.show(&fields);
    page.put(" fields");
}

fn show_answer(page: &mut Page, answer: &Result<HelloReply, RunHelloError>) {
    match answer {
        Ok(reply) => show_reply(page, reply),
        Err(RunHelloError::Link(error)) => page.show(error),
        Err(RunHelloError::BadField(name)) => bad(page, name),
        Err(RunHelloError::OutOfMemory) => page.fail(),
    }
    page.put(".");
}

fn link(page: &mut Page, given: &str) -> MemLink {
    let mut documents = Vec::new(page.alloc);
    let document = document(page, given);
    page.keep(&mut documents, document);
    let mut fails = Vec::new(page.alloc);
    if given.starts_with("failing ") {
        page.keep(&mut fails, 1);
    }
    MemLink::new(documents, down(page), fails)
}

fn greet_by(page: &mut Page, link: &mut MemLink, command: &Command) {
    let Some(address) = page.address("a:27017") else {
        return;
    };
    for _ in 0..3 {
        let answer = run_hello(page.alloc, link, &address, command);
        show_answer(page, &answer);
        drop(answer);
    }
}

/// `exchange FIELDS`, `exchange failing FIELDS`: three hellos over a link with this one document, of which the first fails in the
/// second form.
pub fn exchange(page: &mut Page, given: &str) {
    let mut link = link(page, given);
    let made = hello_command(page.alloc, None, None, None, None);
    match &made {
        Ok(command) => greet_by(page, &mut link, command),
        Err(_) => page.fail(),
    }
    drop(made);
    drop(link);
}

/// `hello reply ..`, `hello kind ..`, `hello written ..`.
pub fn answer(page: &mut Page, given: &str) {
    let (kind_of_case, given) = parted(given);
    match kind_of_case {
        "reply" => reply(page, given),
        "kind" => kind(page, given),
        "written" => written(page, given),
        _ => page.put("malformed"),
    }
}
