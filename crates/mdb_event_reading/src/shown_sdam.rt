//! What the text of an event of a server or of the topology shows.

use mdb_base::{Error, Nanos, ServerAddress};
use mdb_hello::ServerType;
use mdb_srv::TopologyType;

/// The check of a server that an event tells of.
#[derive(Debug, Drop)]
pub struct ShownBeat {
    pub address: ServerAddress,
    pub awaited: bool,
    pub driver: u32,
    pub server: Option<i64>,
}

/// An event as far as its text shows it: of descriptions the types, and how many servers there are.
#[derive(Debug, Drop)]
pub enum ShownSdam {
    ServerChanged(ServerAddress, ServerType, ServerType),
    ServerOpening(ServerAddress),
    ServerClosed(ServerAddress),
    TopologyChanged(TopologyType, u64, TopologyType, u64),
    TopologyOpening,
    TopologyClosed,
    Started(ShownBeat),
    Succeeded(ShownBeat, Nanos),
    Failed(ShownBeat, Nanos, Error),
}
