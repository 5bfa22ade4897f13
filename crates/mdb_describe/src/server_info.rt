//! What is told of one server.

ghost use Rattle.std.specs.Prelude.{◌≡◌, option_copied, IfOk, string_bytes};
ghost use Rattle.mdb_describe.specs.Fields.{error, set_name, set_version, tags, min_wire_version, max_wire_version};
ghost use Rattle.mdb_describe.specs.ServerInfo.{described};
ghost use Rattle.mdb_describe.specs.InfoText.{info_text, info_text_with};

use crate::description::ServerDescription;
use crate::info_text::Info;
use mdb_base::{DateTime, Error, Nanos, OutOfMemory, ServerAddress, TagSet};
use mdb_hello::ServerType;
use std::alloc::Global;

/// What is told of one server: a view of its description. Only `text` takes memory.
#[derive(Clone, Copy)]
pub struct ServerInfo<'a> {
    description: &'a ServerDescription,
}

impl<'a> ServerInfo<'a> {
    pub fn new(description: &'a ServerDescription) -> ServerInfo<'a>
        ensures { described result ≡ description.now }
    {
        ServerInfo { description }
    }

    pub fn address(&self) -> &ServerAddress
        ensures { result.now ≡ (described self.now).address }
    {
        &self.description.address
    }

    /// In nanoseconds.
    pub fn average_round_trip_time(&self) -> Option<Nanos>
        ensures { result ≡ (described self.now).average_round_trip_time }
    {
        self.description.average_round_trip_time
    }

    /// The moment of the last reply.
    pub fn last_update_time(&self) -> Option<DateTime>
        ensures { result ≡ (described self.now).last_update_time }
    {
        self.description.last_update_time
    }

    pub fn max_wire_version(&self) -> Option<i32>
        ensures { result ≡ max_wire_version (described self.now) }
    {
        self.description.max_wire_version()
    }

    pub fn min_wire_version(&self) -> Option<i32>
        ensures { result ≡ min_wire_version (described self.now) }
    {
        self.description.min_wire_version()
    }

    pub fn replica_set_name(&self) -> Option<&str>
        ensures { option_copied result ≡ set_name (described self.now) }
    {
        match self.description.set_name() {
            Some(name) => Some(name.as_str()),
            None => None,
        }
    }

    pub fn replica_set_version(&self) -> Option<i32>
        ensures { result ≡ set_version (described self.now) }
    {
        self.description.set_version()
    }

    pub fn server_type(&self) -> ServerType
        ensures { result ≡ (described self.now).server_type }
    {
        self.description.server_type
    }

    pub fn tags(&self) -> Option<&TagSet>
        ensures { option_copied result ≡ tags (described self.now) }
    {
        self.description.tags()
    }

    /// The error of the last check or of an operation.
    pub fn error(&self) -> Option<&Error>
        ensures { option_copied result ≡ error (described self.now) }
    {
        self.description.error()
    }

    /// The address and the type, then what the reply says of the rest, or the error.
    pub fn text(&self, alloc: Global) -> Result<String, OutOfMemory>
        ensures { IfOk result (λ text. string_bytes text ≡ info_text (described self.now)) }
    {
        let reason = self.description.compatibility_error_message(alloc)?;
        info_text(alloc, self.description, reason.as_deref())
    }
}

fn info_text<'a>(
    alloc: Global,
    description: &'a ServerDescription,
    message: Option<&'a str>,
) -> Result<String, OutOfMemory>
    ensures { IfOk result (λ text. string_bytes text ≡ info_text_with description.now (option_copied message.entry)) }
{
    let info = Info {
        description,
        message,
    };
    Ok(info.to_string(alloc)?)
}
