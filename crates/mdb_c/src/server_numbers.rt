//! A server as numbers.

ghost use Rattle.std.specs.Prelude.{◌≡◌};
ghost use Rattle.mdb_c.specs.Servers.{since_epoch, server_numbers};

use crate::types::{flag_number, server_type_number};
use mdb_base::DateTime;
use mdb_describe::{ServerDescription, ServerInfo};

/// What is known of a server. A number that is not known is 0.
#[repr(C)]
#[derive(Clone, Copy)]
pub struct ServerNumbers {
    /// The average round trip, in nanoseconds.
    pub round_trip: u64,
    /// The moment of the last reply, in milliseconds.
    pub updated: i64,
    /// Its type, from 1.
    pub kind: u32,
    /// The lowest wire version that it speaks.
    pub min_wire: i32,
    /// The highest wire version that it speaks.
    pub max_wire: i32,
    /// The version of its set's configuration.
    pub set_version: i32,
    /// Whether a round trip is known.
    pub has_round_trip: u32,
    /// Whether there was a reply.
    pub has_updated: u32,
    /// Whether a version of its set's configuration is known.
    pub has_set_version: u32,
    /// Whether its last check or an operation failed.
    pub has_error: u32,
}

// The number of a time, and 0 where there is none.
fn since_epoch(time: Option<DateTime>) -> i64
    ensures { result ≡ since_epoch time }
{
    match time {
        Some(DateTime(time)) => time,
        None => 0,
    }
}

/// The numbers of a server.
pub fn numbers_of_server(server: &ServerDescription) -> ServerNumbers
    ensures { result ≡ server_numbers server.now }
{
    let info = ServerInfo::new(server);
    let round_trip = info.average_round_trip_time();
    let updated = info.last_update_time();
    let set_version = info.replica_set_version();
    ServerNumbers {
        round_trip: round_trip.unwrap_or(0),
        updated: since_epoch(updated),
        kind: server_type_number(info.server_type()),
        min_wire: info.min_wire_version().unwrap_or(0),
        max_wire: info.max_wire_version().unwrap_or(0),
        set_version: set_version.unwrap_or(0),
        has_round_trip: flag_number(round_trip.is_some()),
        has_updated: flag_number(updated.is_some()),
        has_set_version: flag_number(set_version.is_some()),
        has_error: flag_number(info.error().is_some()),
    }
}
