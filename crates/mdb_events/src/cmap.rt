//! The events of connection pools, named as in the public standard (CMAP, "Events").

use crate::boxed::Boxed;
use crate::reasons::{ConnectionCheckoutFailedReason, ConnectionClosedReason};
use mdb_base::{Moment, ObjectId, ServerAddress};

/// What names a connection to others: its number in its pool, the server's own number of it, and the address of its server.
#[derive(Debug, Drop, PartialEq, Eq)]
pub struct ConnectionInfo {
    pub id: u32,
    pub server_id: Option<i64>,
    pub address: ServerAddress,
}

/// The sizes of a pool, as its creation tells them. `None` means that the default holds.
#[derive(Clone, Copy, Debug, Default, PartialEq, Eq)]
pub struct ConnectionPoolOptions {
    pub max_idle_time: Option<Moment>,
    pub max_pool_size: Option<u32>,
    pub min_pool_size: Option<u32>,
}

/// A pool was made (CMAP, "PoolCreatedEvent").
#[derive(Debug, Drop, PartialEq, Eq)]
pub struct PoolCreatedEvent {
    pub address: ServerAddress,
    pub options: Option<Boxed<ConnectionPoolOptions>>,
}

/// A pool may create and hand out connections (CMAP, "PoolReadyEvent").
#[derive(Debug, Drop, PartialEq, Eq)]
pub struct PoolReadyEvent {
    pub address: ServerAddress,
}

/// The connections of a pool, or of one service behind it, became stale (CMAP, "PoolClearedEvent").
#[derive(Debug, Drop, PartialEq, Eq)]
pub struct PoolClearedEvent {
    pub address: ServerAddress,
    pub service_id: Option<ObjectId>,
    /// Connections in use are interrupted: the cause was a network timeout.
    pub interrupt_in_use_connections: bool,
}

/// A pool was closed (CMAP, "PoolClosedEvent").
#[derive(Debug, Drop, PartialEq, Eq)]
pub struct PoolClosedEvent {
    pub address: ServerAddress,
}

/// A connection was created, and is not established yet (CMAP, "ConnectionCreatedEvent").
#[derive(Debug, Drop, PartialEq, Eq)]
pub struct ConnectionCreatedEvent {
    pub address: ServerAddress,
    pub connection_id: u32,
}

/// A connection was established (CMAP, "ConnectionReadyEvent").
#[derive(Debug, Drop, PartialEq, Eq)]
pub struct ConnectionReadyEvent {
    pub address: ServerAddress,
    pub connection_id: u32,
    /// The milliseconds since its creation.
    pub duration: Moment,
}

/// A connection was closed (CMAP, "ConnectionClosedEvent").
#[derive(Debug, Drop, PartialEq, Eq)]
pub struct ConnectionClosedEvent {
    pub address: ServerAddress,
    pub connection_id: u32,
    pub reason: ConnectionClosedReason,
    /// The service of the connection, `None` until it is established.
    pub service_id: Option<ObjectId>,
}

/// A caller asked for a connection (CMAP, "ConnectionCheckOutStartedEvent").
#[derive(Debug, Drop, PartialEq, Eq)]
pub struct ConnectionCheckoutStartedEvent {
    pub address: ServerAddress,
}

/// A caller got no connection (CMAP, "ConnectionCheckOutFailedEvent").
#[derive(Debug, Drop, PartialEq, Eq)]
pub struct ConnectionCheckoutFailedEvent {
    pub address: ServerAddress,
    pub reason: ConnectionCheckoutFailedReason,
    /// The milliseconds since the caller asked.
    pub duration: Moment,
}

/// A caller got a connection (CMAP, "ConnectionCheckedOutEvent").
#[derive(Debug, Drop, PartialEq, Eq)]
pub struct ConnectionCheckedOutEvent {
    pub address: ServerAddress,
    pub connection_id: u32,
    /// The milliseconds since the caller asked.
    pub duration: Moment,
}

/// A connection came back to its pool (CMAP, "ConnectionCheckedInEvent").
#[derive(Debug, Drop, PartialEq, Eq)]
pub struct ConnectionCheckedInEvent {
    pub address: ServerAddress,
    pub connection_id: u32,
}

/// An event of a connection pool.
#[derive(Debug, Drop, PartialEq, Eq)]
pub enum CmapEvent {
    PoolCreated(PoolCreatedEvent),
    PoolReady(PoolReadyEvent),
    PoolCleared(PoolClearedEvent),
    PoolClosed(PoolClosedEvent),
    ConnectionCreated(ConnectionCreatedEvent),
    ConnectionReady(ConnectionReadyEvent),
    ConnectionClosed(ConnectionClosedEvent),
    ConnectionCheckoutStarted(ConnectionCheckoutStartedEvent),
    ConnectionCheckoutFailed(ConnectionCheckoutFailedEvent),
    ConnectionCheckedOut(ConnectionCheckedOutEvent),
    ConnectionCheckedIn(ConnectionCheckedInEvent),
}
