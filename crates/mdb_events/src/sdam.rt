//! The events of servers and topologies, named as in the public standard (SDAM, "Logging and Monitoring").

use mdb_base::{Document, Error, Nanos, ObjectId, ServerAddress};
use mdb_describe::{ServerDescription, TopologyDescription};

/// What is known of a server changed (SDAM monitoring, "ServerDescriptionChangedEvent").
#[derive(Debug, Drop)]
pub struct ServerDescriptionChangedEvent {
    pub address: ServerAddress,
    pub topology_id: ObjectId,
    pub previous_description: ServerDescription,
    pub new_description: ServerDescription,
}

/// A server is monitored from now on (SDAM monitoring, "ServerOpeningEvent").
#[derive(Debug, Drop, PartialEq, Eq)]
pub struct ServerOpeningEvent {
    pub address: ServerAddress,
    pub topology_id: ObjectId,
}

/// A server is monitored no longer (SDAM monitoring, "ServerClosedEvent").
#[derive(Debug, Drop, PartialEq, Eq)]
pub struct ServerClosedEvent {
    pub address: ServerAddress,
    pub topology_id: ObjectId,
}

/// What is known of the topology changed (SDAM monitoring, "TopologyDescriptionChangedEvent").
#[derive(Debug, Drop)]
pub struct TopologyDescriptionChangedEvent {
    pub topology_id: ObjectId,
    pub previous_description: TopologyDescription,
    pub new_description: TopologyDescription,
}

/// A topology is monitored from now on (SDAM monitoring, "TopologyOpeningEvent").
#[derive(Debug, Drop)]
pub struct TopologyOpeningEvent {
    pub topology_id: ObjectId,
}

/// A topology is monitored no longer (SDAM monitoring, "TopologyClosedEvent").
#[derive(Debug, Drop)]
pub struct TopologyClosedEvent {
    pub topology_id: ObjectId,
}

/// A check of a server began (SDAM monitoring, "ServerHeartbeatStartedEvent").
#[derive(Debug, Drop)]
pub struct ServerHeartbeatStartedEvent {
    pub server_address: ServerAddress,
    /// The server answers when something changes.
    pub awaited: bool,
    /// The number that the driver gave to the monitor's connection.
    pub driver_connection_id: u32,
    /// The number that the server gave to it, where it is known.
    pub server_connection_id: Option<i64>,
}

/// A check of a server gave a reply (SDAM monitoring, "ServerHeartbeatSucceededEvent").
#[derive(Debug, Drop)]
pub struct ServerHeartbeatSucceededEvent {
    /// In nanoseconds.
    pub duration: Nanos,
    /// The reply's document, without what it says of an authentication.
    pub reply: Document,
    pub server_address: ServerAddress,
    /// The server answered when something had changed.
    pub awaited: bool,
    /// The number that the driver gave to the monitor's connection.
    pub driver_connection_id: u32,
    /// The number that the server gave to it, where it is known.
    pub server_connection_id: Option<i64>,
}

/// A check of a server failed or was cancelled (SDAM monitoring, "ServerHeartbeatFailedEvent").
#[derive(Debug, Drop)]
pub struct ServerHeartbeatFailedEvent {
    /// In nanoseconds.
    pub duration: Nanos,
    pub failure: Error,
    pub server_address: ServerAddress,
    /// The server was to answer when something changes.
    pub awaited: bool,
    /// The number that the driver gave to the monitor's connection.
    pub driver_connection_id: u32,
    /// The number that the server gave to it, where it is known.
    pub server_connection_id: Option<i64>,
}

/// An event of a server or a topology.
#[derive(Debug, Drop)]
pub enum SdamEvent {
    ServerDescriptionChanged(ServerDescriptionChangedEvent),
    ServerOpening(ServerOpeningEvent),
    ServerClosed(ServerClosedEvent),
    TopologyDescriptionChanged(TopologyDescriptionChangedEvent),
    TopologyOpening(TopologyOpeningEvent),
    TopologyClosed(TopologyClosedEvent),
    ServerHeartbeatStarted(ServerHeartbeatStartedEvent),
    ServerHeartbeatSucceeded(ServerHeartbeatSucceededEvent),
    ServerHeartbeatFailed(ServerHeartbeatFailedEvent),
}
