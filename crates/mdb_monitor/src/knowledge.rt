//! What a monitor knows of its server.

ghost use Rattle.std.specs.Prelude.{◌≡◌, Some};
ghost use Rattle.mdb_monitor.specs.Average.{next_average};
ghost use Rattle.mdb_monitor.specs.Items.{connection_with};
ghost use Rattle.mdb_monitor.specs.Standing.{nothing, known_connection, known_version, known_average, says_more};
ghost use Rattle.mdb_monitor.specs.Sessions.{average_after, session_after};

use crate::rtt::{RttInfo, next_average};
use mdb_base::{Nanos, TopologyVersion};
use mdb_hello::HelloReply;

/// The monitor's connection, by the number that the driver gave to it and the one that the server did.
#[derive(Clone, Copy, Debug, PartialEq, Eq)]
pub struct Connection {
    pub driver_id: u32,
    pub server_id: Option<i64>,
}

/// What the checks over one connection told.
#[derive(Clone, Copy, Debug, PartialEq, Eq)]
pub struct Session {
    pub connection: Connection,
    pub version: Option<TopologyVersion>,
    pub average: Nanos,
    // The last reply said that another one comes without a command.
    pub more_to_come: bool,
}

/// What is known since the last failure or cancellation.
#[derive(Clone, Copy, Debug, PartialEq, Eq)]
pub enum Knowledge {
    /// No check succeeded; round trips may have been measured beside the checks.
    Unconnected(RttInfo),
    /// A check succeeded.
    Connected(Session),
}

impl Knowledge {
    pub fn nothing() -> Knowledge
        ensures { result ≡ nothing }
    {
        Knowledge::Unconnected(RttInfo { average: None })
    }

    pub fn connection(&self) -> Option<Connection>
        ensures { result ≡ known_connection self.now }
    {
        match self {
            Knowledge::Unconnected(_) => None,
            Knowledge::Connected(session) => Some(session.connection),
        }
    }

    pub fn version(&self) -> Option<TopologyVersion>
        ensures { result ≡ known_version self.now }
    {
        match self {
            Knowledge::Unconnected(_) => None,
            Knowledge::Connected(session) => session.version,
        }
    }

    pub fn says_more(&self) -> bool
        ensures { result ≡ says_more self.now }
    {
        match self {
            Knowledge::Unconnected(_) => false,
            Knowledge::Connected(session) => session.more_to_come,
        }
    }

    // The average afterwards.
    pub fn add_sample(&mut self, sample: Nanos) -> Nanos
        ensures connection { known_connection self.new ≡ known_connection self.old }
        ensures version { known_version self.new ≡ known_version self.old }
        ensures more { says_more self.new ≡ says_more self.old }
        ensures average { known_average self.new ≡ Some (next_average (known_average self.old) sample) }
        ensures value { result ≡ next_average (known_average self.old) sample }
    {
        match self {
            Knowledge::Unconnected(round_trips) => {
                let average = next_average(round_trips.average, sample);
                round_trips.average = Some(average);
                average
            }
            Knowledge::Connected(session) => {
                session.average = next_average(Some(session.average), sample);
                session.average
            }
        }
    }

    // After a check that succeeded. One that connected is a sample, and then each one that was not awaited.
    fn average_after(&self, streaming: bool, duration: Nanos) -> Nanos
        ensures { result ≡ average_after streaming self.now duration }
    {
        match self {
            Knowledge::Unconnected(round_trips) => {
                let first = next_average(round_trips.average, duration);
                next_average(Some(first), duration)
            }
            Knowledge::Connected(session) => {
                if session.version.is_some() && streaming {
                    session.average
                } else {
                    next_average(Some(session.average), duration)
                }
            }
        }
    }

    // The connection of a check that succeeded.
    pub fn connection_with(&self, fresh: u32, reply: &HelloReply) -> Connection
        ensures { result ≡ connection_with (known_connection self.now) fresh reply.now }
    {
        match self {
            Knowledge::Unconnected(_) => Connection {
                driver_id: fresh,
                server_id: reply.command_response.connection_id,
            },
            Knowledge::Connected(session) => session.connection,
        }
    }

    // What is known after a check that succeeded.
    pub fn after(
        &self,
        streaming: bool,
        fresh: u32,
        duration: Nanos,
        reply: &HelloReply,
        more_to_come: bool,
    ) -> Session
        ensures { result ≡ session_after streaming self.now fresh duration reply.now more_to_come }
    {
        Session {
            connection: self.connection_with(fresh, reply),
            version: reply.command_response.topology_version,
            average: self.average_after(streaming, duration),
            more_to_come,
        }
    }
}
