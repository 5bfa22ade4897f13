//! What a line tells of a server or of the topology.

ghost use Rattle.std.specs.Prelude.{◌≡◌, codes};
ghost use Rattle.json.specs.Value.{value_view};
ghost use Rattle.mdb_recording_lines.specs.LineForms.{changed_at, check_from, kind_at, line_view, sdam_from, server_from, server_named, text_at};

use crate::fields::{member, text_at};
use crate::line::Line;
use crate::server_names::{check_named, kind_named, topology_named};
use json::Value;
use mdb_recording_servers::{ServerKind, ServerTold};

// The kind of server that a member names, if it is there: nothing where it names none.
fn kind_at(object: &Value<'_>, key: &str) -> Option<Option<ServerKind>>
    ensures { result ≡ kind_at key.now (value_view object.now) }
{
    match member(object, key) {
        None => Some(None),
        Some(found) => {
            let kind = kind_named(found.as_str()?)?;
            Some(Some(kind))
        }
    }
}

// A server changed.
fn changed_at(object: &Value<'_>) -> Option<ServerTold>
    ensures { result ≡ changed_at (value_view object.now) }
{
    match (kind_at(object, "from"), kind_at(object, "to")) {
        (Some(from), Some(to)) => Some(ServerTold::Changed(from, to)),
        _ => None,
    }
}

// What an event of that name tells of a server.
#[tactic(auto, unfolding(crate::specs::LineForms::server_named))]
fn server_named(name: &str, object: &Value<'_>) -> Option<ServerTold>
    ensures { result ≡ server_named name.now (value_view object.now) }
{
    if name == "ServerDescriptionChanged" {
        changed_at(object)
    } else if name == "ServerOpening" {
        Some(ServerTold::Opened)
    } else if name == "ServerClosed" {
        Some(ServerTold::Closed)
    } else {
        None
    }
}

// An event of a server, which needs an address.
fn server_from<'a>(told: Option<ServerTold>, object: &Value<'a>) -> Line<'a>
    ensures { line_view result ≡ server_from told (value_view object.now) }
{
    match told {
        None => Line::Malformed,
        Some(told) => match text_at(object, "address") {
            None => Line::Malformed,
            Some(address) => Line::OfServer(address, told),
        },
    }
}

/// An event of a server or of the topology.
pub fn sdam_from<'a>(object: &Value<'a>) -> Line<'a>
    ensures { line_view result ≡ sdam_from (text_at (codes "event") (value_view object.now)) (value_view object.now) }
{
    match text_at(object, "event") {
        None => Line::Malformed,
        Some(name) => match topology_named(name) {
            Some(event) => Line::OfTopology(event),
            None => server_from(server_named(name, object), object),
        },
    }
}

/// An event of a check of a server.
pub fn check_from<'a>(object: &Value<'a>) -> Line<'a>
    ensures { line_view result ≡ check_from (text_at (codes "event") (value_view object.now)) (value_view object.now) }
{
    match text_at(object, "event") {
        None => Line::Malformed,
        Some(name) => server_from(check_named(name), object),
    }
}
