//! What one line tells.

ghost use Rattle.std.specs.Prelude.{◌≡◌, IfOk, codes, option_map};
ghost use Rattle.json.specs.Value.{value_view};
ghost use Rattle.mdb_recording_lines.specs.LineForms.{kind_from, limits_at, line_view, named_from, pool_from, said, text_at, told_at, told_from};

use crate::event_name::{EventName, event_named};
use crate::fields::{caller_at, flag_at, has_text, number_at, number_or, text_at, time_at};
use crate::reasons::{close_reason_at, fail_reason_at};
use crate::server_line::{check_from, sdam_from};
use json::{Error, Scratch, Value};
use mdb_base::OutOfMemory;
use mdb_recording_servers::{ServerEvent, ServerTold};
use mdb_recordings::{Event, Limits, Told};
use std::alloc::Global;

/// What a line tells.
#[derive(Clone, Copy, Debug)]
pub enum Line<'a> {
    /// It is no JSON object with a `kind`, names no event that is known of that kind, or lacks what its event needs.
    Malformed,
    /// It is of a kind that is not judged.
    Passed,
    /// An event of the pool at an address.
    Told(&'a str, Event),
    /// An event of the server at an address.
    OfServer(&'a str, ServerTold),
    /// An event of the topology.
    OfTopology(ServerEvent),
}

fn limits_at(object: &Value<'_>) -> Option<Limits>
    ensures { result ≡ limits_at (value_view object.now) }
{
    let size = number_or(object, "maxPoolSize", 100);
    let connecting = number_or(object, "maxConnecting", 0);
    let idle = number_or(object, "maxIdleTimeMS", 0);
    let balanced = flag_at(object, "loadBalanced");
    match (size, connecting, idle, balanced) {
        (Some(max_size), Some(max_connecting), Some(max_idle), Some(is_load_balanced)) => {
            Some(Limits {
                max_size,
                max_connecting,
                max_idle,
                is_load_balanced,
            })
        }
        _ => None,
    }
}

// What an event of that name tells, if it has all that it needs.
fn told_at(name: EventName, object: &Value<'_>) -> Option<Told>
    ensures { result ≡ told_at name (value_view object.now) }
{
    match name {
        EventName::PoolCreated => {
            let limits = limits_at(object)?;
            Some(Told::PoolCreated(limits))
        }
        EventName::PoolReady => Some(Told::PoolReady),
        EventName::PoolCleared => Some(Told::PoolCleared(!has_text(object, "serviceId"))),
        EventName::PoolClosed => Some(Told::PoolClosed),
        EventName::CheckOutStarted => Some(Told::CheckOutStarted),
        EventName::CheckOutFailed => {
            let reason = fail_reason_at(object)?;
            Some(Told::CheckOutFailed(reason))
        }
        EventName::ConnectionCreated => {
            let id = number_at(object, "connectionId")?;
            Some(Told::ConnectionCreated(id))
        }
        EventName::ConnectionReady => {
            let id = number_at(object, "connectionId")?;
            Some(Told::ConnectionReady(id))
        }
        EventName::ConnectionClosed => {
            let id = number_at(object, "connectionId")?;
            let reason = close_reason_at(object)?;
            Some(Told::ConnectionClosed(id, reason))
        }
        EventName::CheckedOut => {
            let id = number_at(object, "connectionId")?;
            Some(Told::CheckedOut(id))
        }
        EventName::CheckedIn => {
            let id = number_at(object, "connectionId")?;
            Some(Told::CheckedIn(id))
        }
    }
}

// An event, if all of it is there.
fn told_from(
    address: Option<&str>,
    told: Option<Told>,
    time: Option<Option<u64>>,
    caller: Option<Option<u64>>,
) -> Line<'_>
    ensures { line_view result ≡ told_from (option_map (λ a. a.now) address.entry) told time caller }
{
    match (address, told, time, caller) {
        (Some(address), Some(told), Some(at), Some(caller)) => {
            Line::Told(address, Event { at, caller, told })
        }
        _ => Line::Malformed,
    }
}

// An event of that name.
fn named_from<'a>(name: Option<EventName>, object: &Value<'a>) -> Line<'a>
    ensures { line_view result ≡ named_from name (value_view object.now) }
{
    match name {
        None => Line::Malformed,
        Some(name) => told_from(
            text_at(object, "address"),
            told_at(name, object),
            time_at(object),
            caller_at(object),
        ),
    }
}

// An event of a pool.
fn pool_from<'a>(object: &Value<'a>) -> Line<'a>
    ensures { line_view result ≡ pool_from (text_at (codes "event") (value_view object.now)) (value_view object.now) }
{
    match text_at(object, "event") {
        None => Line::Malformed,
        Some(name) => named_from(event_named(name), object),
    }
}

// An object.
fn object_from<'a>(object: &Value<'a>) -> Line<'a>
    ensures { line_view result ≡ kind_from (text_at (codes "kind") (value_view object.now)) (value_view object.now) }
{
    match text_at(object, "kind") {
        None => Line::Malformed,
        Some(kind) => {
            if kind == "pool" {
                pool_from(object)
            } else if kind == "sdam" {
                sdam_from(object)
            } else if kind == "beat" {
                check_from(object)
            } else {
                Line::Passed
            }
        }
    }
}

/// What a line tells. The scratch is kept from line to line.
pub fn read_line<'a>(
    alloc: Global,
    scratch: &'a mut Scratch,
    line: &'a [u8],
) -> Result<Line<'a>, OutOfMemory>
    ensures { IfOk result (λ r. line_view r ≡ said line.now) }
{
    match std::str::from_utf8(line) {
        Err(_) => Ok(Line::Malformed),
        Ok(text) => match Value::parse(alloc, text, scratch) {
            Ok(object) => {
                let line = object_from(&object);
                drop(object);
                Ok(line)
            }
            Err(Error::Invalid) => Ok(Line::Malformed),
            Err(_) => Err(OutOfMemory),
        },
    }
}
