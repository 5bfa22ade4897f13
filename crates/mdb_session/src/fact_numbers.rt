//! A fact as numbers, for callers that know no enum.

ghost use Rattle.std.specs.Prelude.{◌≡◌};
ghost use Rattle.mdb_session.specs.Facts.{closed_number, fact_told, failed_number, flag_number, plain_told, pool_numbers, pool_told, sdam_numbers, sdam_told, service_bytes, with_service};

use mdb_base::ObjectId;
use mdb_events::{CmapEvent, ConnectionCheckoutFailedReason, ConnectionClosedReason, SdamEvent};

/// What a fact says. A number that it does not have is 0.
#[repr(C)]
#[derive(Clone, Copy)]
pub struct FactNumbers {
    /// The kind of the fact, from 1.
    pub kind: u32,
    /// The event that a pool made, from 1, or a server or the topology, from 32.
    pub event: u32,
    /// The pool, or the one at the address of the server.
    pub pool: u32,
    /// The connection, or the driver's number of a monitor's connection.
    pub id: u32,
    /// The party or the request.
    pub party: u32,
    /// How a request ended, or why a connection was closed or a checkout failed, from 1; 1 for a check that the server answers when something changes.
    pub why: u32,
    /// Milliseconds of a checkout or an establishment, nanoseconds of a check, or 1 for a clear that interrupts.
    pub number: u64,
    /// The service behind the load balancer.
    pub service: [u8; 12],
    /// Whether the fact names a service.
    pub has_service: u32,
    /// Whether the fact names a pool, or the address of a server that has one.
    pub has_pool: u32,
}

pub(crate) fn flag_number(flag: bool) -> u32
    ensures { result ≡ flag_number flag }
{
    if flag { 1 } else { 0 }
}

fn service_bytes(service: Option<ObjectId>) -> [u8; 12]
    ensures { result ≡ service_bytes service }
{
    match service {
        Some(service) => service.0,
        None => [0; 12],
    }
}

/// The numbers, with the service that the fact names.
pub(crate) fn with_service(told: FactNumbers, service: Option<ObjectId>) -> FactNumbers
    ensures { result ≡ with_service told service }
{
    FactNumbers {
        service: service_bytes(service),
        has_service: flag_number(service.is_some()),
        ..told
    }
}

// An event, or a fact that is none, of the pool.
fn told(kind: u32, event: u32, pool: Option<u32>, id: u32, why: u32, number: u64) -> FactNumbers
    ensures { result ≡ fact_told kind event pool id 0 why number }
{
    FactNumbers {
        kind,
        event,
        pool: pool.unwrap_or(0),
        id,
        party: 0,
        why,
        number,
        service: [0; 12],
        has_service: 0,
        has_pool: flag_number(pool.is_some()),
    }
}

/// A fact that is no event.
pub(crate) fn of_kind(kind: u32, pool: Option<u32>, id: u32, party: u32, why: u32) -> FactNumbers
    ensures { result ≡ plain_told kind pool id party why }
{
    FactNumbers {
        party,
        ..told(kind, 0, pool, id, why, 0)
    }
}

// An event of the pool.
fn of_pool(pool: u32, event: u32, id: u32, why: u32, number: u64) -> FactNumbers
    ensures { result ≡ pool_told pool event id why number }
{
    told(2, event, Some(pool), id, why, number)
}

// An event of the topology, or of the server of this number.
fn of_sdam(event: u32, server: Option<u32>, id: u32, awaited: bool, number: u64) -> FactNumbers
    ensures { result ≡ sdam_told event server id awaited number }
{
    told(6, event, server, id, flag_number(awaited), number)
}

fn closed_number(reason: ConnectionClosedReason) -> u32
    ensures { result ≡ closed_number reason }
{
    match reason {
        ConnectionClosedReason::Stale => 1,
        ConnectionClosedReason::Idle => 2,
        ConnectionClosedReason::Error => 3,
        ConnectionClosedReason::Dropped => 4,
        ConnectionClosedReason::PoolClosed => 5,
    }
}

fn failed_number(reason: ConnectionCheckoutFailedReason) -> u32
    ensures { result ≡ failed_number reason }
{
    match reason {
        ConnectionCheckoutFailedReason::Timeout => 1,
        ConnectionCheckoutFailedReason::ConnectionError => 2,
    }
}

/// The numbers of an event of the pool.
pub(crate) fn pool_numbers(pool: u32, event: &CmapEvent) -> FactNumbers
    ensures { result ≡ pool_numbers pool event.now }
{
    match event {
        CmapEvent::PoolCreated(_) => of_pool(pool, 1, 0, 0, 0),
        CmapEvent::PoolReady(_) => of_pool(pool, 2, 0, 0, 0),
        CmapEvent::PoolCleared(e) => {
            let interrupts = flag_number(e.interrupt_in_use_connections);
            with_service(of_pool(pool, 3, 0, 0, u64::from(interrupts)), e.service_id)
        }
        CmapEvent::PoolClosed(_) => of_pool(pool, 4, 0, 0, 0),
        CmapEvent::ConnectionCreated(e) => of_pool(pool, 5, e.connection_id, 0, 0),
        CmapEvent::ConnectionReady(e) => of_pool(pool, 6, e.connection_id, 0, e.duration),
        CmapEvent::ConnectionClosed(e) => {
            let why = closed_number(e.reason);
            with_service(of_pool(pool, 7, e.connection_id, why, 0), e.service_id)
        }
        CmapEvent::ConnectionCheckoutStarted(_) => of_pool(pool, 8, 0, 0, 0),
        CmapEvent::ConnectionCheckoutFailed(e) => {
            of_pool(pool, 9, 0, failed_number(e.reason), e.duration)
        }
        CmapEvent::ConnectionCheckedOut(e) => of_pool(pool, 10, e.connection_id, 0, e.duration),
        CmapEvent::ConnectionCheckedIn(e) => of_pool(pool, 11, e.connection_id, 0, 0),
    }
}

/// The numbers of an event of the topology, or of the server of this number.
pub(crate) fn sdam_numbers(server: Option<u32>, event: &SdamEvent) -> FactNumbers
    ensures { result ≡ sdam_numbers server event.now }
{
    match event {
        SdamEvent::ServerDescriptionChanged(_) => of_sdam(32, server, 0, false, 0),
        SdamEvent::ServerOpening(_) => of_sdam(33, server, 0, false, 0),
        SdamEvent::ServerClosed(_) => of_sdam(34, server, 0, false, 0),
        SdamEvent::TopologyDescriptionChanged(_) => of_sdam(35, server, 0, false, 0),
        SdamEvent::TopologyOpening(_) => of_sdam(36, server, 0, false, 0),
        SdamEvent::TopologyClosed(_) => of_sdam(37, server, 0, false, 0),
        SdamEvent::ServerHeartbeatStarted(e) => {
            of_sdam(38, server, e.driver_connection_id, e.awaited, 0)
        }
        SdamEvent::ServerHeartbeatSucceeded(e) => {
            of_sdam(39, server, e.driver_connection_id, e.awaited, e.duration)
        }
        SdamEvent::ServerHeartbeatFailed(e) => {
            of_sdam(40, server, e.driver_connection_id, e.awaited, e.duration)
        }
    }
}
