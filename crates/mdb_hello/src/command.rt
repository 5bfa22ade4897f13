//! The command that greets a server.

ghost use Rattle.std.specs.Prelude.{◌≡◌, ◌++◌, OnOk, IfOk, map, if◌then◌else◌, option_map};
ghost use Rattle.mdb_base.specs.Document.{named_content};
ghost use Rattle.mdb_hello.specs.Commands.{is_current, command_of, name_of, greeting_of, awaiting_of, options_of};

use crate::field::push_required;
use crate::making::{doc_of, push_field};
use mdb_base::{Document, Moment, OutOfMemory, Text, TopologyVersion, Value};
use std::alloc::{AllocError, Global};

/// The name of the command.
pub const HELLO_COMMAND_NAME: &str = "hello";

/// The name of the command at a server that may be too old for `hello`.
pub const LEGACY_HELLO_COMMAND_NAME: &str = "isMaster";

/// The older name in lower case, in which replies have it.
pub const LEGACY_HELLO_COMMAND_NAME_LOWERCASE: &str = "ismaster";

/// The versioned interface that a server is to keep to.
#[derive(Debug, Drop)]
pub struct ServerApi {
    /// The version of the interface.
    pub version: Text,
    /// Whether the server refuses what the interface does not have.
    pub strict: Option<bool>,
    /// Whether the server refuses what the interface is to lose.
    pub deprecation_errors: Option<bool>,
}

impl Clone for ServerApi {
    ghost is_clone = { λ s t. t ≡ s };

    fn clone(&self) -> Result<ServerApi, AllocError> {
        Ok(ServerApi {
            version: self.version.clone()?,
            strict: self.strict,
            deprecation_errors: self.deprecation_errors,
        })
    }
}

/// What a server needs in order to answer once its description is no longer of this version, or the time is over.
#[derive(Clone, Copy, Debug, PartialEq, Eq)]
pub struct AwaitableHelloOptions {
    /// The version of the description that the driver has.
    pub topology_version: TopologyVersion,
    /// For how long the server may wait, in milliseconds.
    pub max_await_time: Moment,
}

/// A command for a server.
#[derive(Debug, Drop)]
pub struct Command {
    /// The command's name, which is also the first field of its body.
    pub name: Text,
    /// The database to which it goes.
    pub target_db: Text,
    /// The document that is sent.
    pub body: Document,
    /// The interface under which the command is sent.
    pub server_api: Option<ServerApi>,
    /// Whether the server may answer more than once.
    pub exhaust_allowed: bool,
}

/// The command that greets a server (SDAM, "Monitoring"). With a server API, behind a load balancer, or where the
/// server has said that it knows `hello`, that is its name; else it is the older name, and where nothing is known
/// the command asks for `hello` from then on. A maximum time above 2^63 - 1 is written as that number.
pub fn hello_command(
    alloc: Global,
    server_api: Option<&ServerApi>,
    load_balanced: Option<bool>,
    hello_ok: Option<bool>,
    awaitable_options: Option<AwaitableHelloOptions>,
) -> Result<Command, OutOfMemory>
    ensures { IfOk result (λ command. command ≡ command_of (option_map (λ api. api.now) server_api.entry) load_balanced hello_ok awaitable_options) }
{
    let current = is_current(server_api, load_balanced, hello_ok);
    let mut fields = Vec::new(alloc);
    push_greeting(alloc, &mut fields, current, hello_ok)?;
    let backpressure = String::from_str(alloc, "2")?;
    push_field(
        alloc,
        &mut fields,
        "backpressure",
        Value::Text(backpressure),
    )?;
    push_awaiting(alloc, &mut fields, &awaitable_options)?;
    Ok(Command {
        name: Text::new(String::from_str(alloc, name(current))?),
        target_db: Text::new(String::from_str(alloc, "admin")?),
        body: Document::new(doc_of(fields)),
        server_api: copy_of(server_api)?,
        exhaust_allowed: awaitable_options.is_some(),
    })
}

fn is_current(
    server_api: Option<&ServerApi>,
    load_balanced: Option<bool>,
    hello_ok: Option<bool>,
) -> bool
    ensures { result ≡ is_current (option_map (λ api. api.now) server_api.entry) load_balanced hello_ok }
{
    server_api.is_some() || load_balanced == Some(true) || hello_ok == Some(true)
}

fn name(current: bool) -> &'static str
    ensures { result.now ≡ name_of current }
{
    if current {
        HELLO_COMMAND_NAME
    } else {
        LEGACY_HELLO_COMMAND_NAME
    }
}

fn push_greeting(
    alloc: Global,
    fields: &mut Vec<(String, Value)>,
    current: bool,
    hello_ok: Option<bool>,
) -> Result<(), OutOfMemory>
    ensures { OnOk result (map named_content fields.new.items ≡ map named_content fields.old.items ++ greeting_of current hello_ok) }
{
    push_field(alloc, fields, name(current), Value::Int(1))?;
    if !current && hello_ok.is_none() {
        push_field(alloc, fields, "helloOk", Value::Bool(true))?;
    }
    Ok(())
}

fn push_awaiting(
    alloc: Global,
    fields: &mut Vec<(String, Value)>,
    options: &Option<AwaitableHelloOptions>,
) -> Result<(), OutOfMemory>
    ensures { OnOk result (map named_content fields.new.items ≡ map named_content fields.old.items ++ awaiting_of options.now) }
{
    match options {
        Some(options) => push_options(alloc, fields, options),
        None => Ok(()),
    }
}

fn push_options(
    alloc: Global,
    fields: &mut Vec<(String, Value)>,
    options: &AwaitableHelloOptions,
) -> Result<(), OutOfMemory>
    ensures { OnOk result (map named_content fields.new.items ≡ map named_content fields.old.items ++ options_of options.now) }
{
    push_required(alloc, fields, "topologyVersion", &options.topology_version)?;
    push_required(alloc, fields, "maxAwaitTimeMS", &options.max_await_time)?;
    Ok(())
}

fn copy_of(server_api: Option<&ServerApi>) -> Result<Option<ServerApi>, OutOfMemory>
    ensures { IfOk result (λ copy. copy ≡ option_map (λ api. api.now) server_api.entry) }
{
    match server_api {
        Some(api) => Ok(Some(api.clone()?)),
        None => Ok(None),
    }
}
