//! The events of pools by their words.

use crate::page::Page;
use crate::words::{named, number, parted, small, value_of};
use mdb_base::{ObjectId, ServerAddress};
use mdb_events::{
    Boxed, CmapEvent, ConnectionCheckedInEvent, ConnectionCheckedOutEvent,
    ConnectionCheckoutFailedEvent, ConnectionCheckoutFailedReason, ConnectionCheckoutStartedEvent,
    ConnectionClosedEvent, ConnectionClosedReason, ConnectionCreatedEvent, ConnectionPoolOptions,
    ConnectionReadyEvent, PoolClearedEvent, PoolClosedEvent, PoolCreatedEvent, PoolReadyEvent,
};

/// The address that stands first, and none where the first word is no address.
pub fn first_address(page: &mut Page, words: &str) -> Option<ServerAddress> {
    page.address(parted(words).0)
}

/// The service of the words, and none where they name none.
pub fn service(words: &str) -> Option<ObjectId> {
    ObjectId::from_hex(value_of(words, "service"))
}

fn id(words: &str) -> u32 {
    small(value_of(words, "id"))
}

fn milliseconds(words: &str) -> u64 {
    number(value_of(words, "ms"))
}

const CLOSED: [(&str, ConnectionClosedReason); 4] = [
    ("Stale", ConnectionClosedReason::Stale),
    ("Idle", ConnectionClosedReason::Idle),
    ("Error", ConnectionClosedReason::Error),
    ("Dropped", ConnectionClosedReason::Dropped),
];

/// The reason of this name.
pub fn closed_reason(word: &str) -> ConnectionClosedReason {
    named(&CLOSED, word).unwrap_or(ConnectionClosedReason::PoolClosed)
}

/// The reason of this name.
pub fn failed_reason(word: &str) -> ConnectionCheckoutFailedReason {
    match word {
        "Timeout" => ConnectionCheckoutFailedReason::Timeout,
        _ => ConnectionCheckoutFailedReason::ConnectionError,
    }
}

fn sizes(page: &mut Page, words: &str) -> Option<Boxed<ConnectionPoolOptions>> {
    if words.ends_with(" none") {
        return None;
    }
    let sizes = ConnectionPoolOptions {
        max_idle_time: value_of(words, "idle").parse::<u64>().ok(),
        max_pool_size: value_of(words, "max").parse::<u32>().ok(),
        min_pool_size: value_of(words, "min").parse::<u32>().ok(),
    };
    match Boxed::new(page.alloc, sizes) {
        Ok(sizes) => Some(sizes),
        Err(_) => {
            page.fail();
            None
        }
    }
}

// Which event of a pool it is.
#[derive(Clone, Copy)]
enum Kind {
    PoolCreated,
    PoolReady,
    PoolCleared,
    PoolClosed,
    ConnectionCreated,
    ConnectionReady,
    ConnectionClosed,
    CheckoutStarted,
    CheckoutFailed,
    CheckedOut,
    CheckedIn,
}

const KINDS: [(&str, Kind); 11] = [
    ("PoolCreated", Kind::PoolCreated),
    ("PoolReady", Kind::PoolReady),
    ("PoolCleared", Kind::PoolCleared),
    ("PoolClosed", Kind::PoolClosed),
    ("ConnectionCreated", Kind::ConnectionCreated),
    ("ConnectionReady", Kind::ConnectionReady),
    ("ConnectionClosed", Kind::ConnectionClosed),
    ("ConnectionCheckoutStarted", Kind::CheckoutStarted),
    ("ConnectionCheckoutFailed", Kind::CheckoutFailed),
    ("ConnectionCheckedOut", Kind::CheckedOut),
    ("ConnectionCheckedIn", Kind::CheckedIn),
];

fn checkout(kind: Kind, address: ServerAddress, words: &str) -> CmapEvent {
    match kind {
        Kind::CheckoutFailed => CmapEvent::from(ConnectionCheckoutFailedEvent {
            address,
            reason: failed_reason(value_of(words, "reason")),
            duration: milliseconds(words),
        }),
        Kind::CheckedOut => CmapEvent::from(ConnectionCheckedOutEvent {
            address,
            connection_id: id(words),
            duration: milliseconds(words),
        }),
        Kind::CheckedIn => CmapEvent::from(ConnectionCheckedInEvent {
            address,
            connection_id: id(words),
        }),
        _ => CmapEvent::from(ConnectionCheckoutStartedEvent { address }),
    }
}

fn of_connection(kind: Kind, address: ServerAddress, words: &str) -> CmapEvent {
    match kind {
        Kind::ConnectionCreated => CmapEvent::from(ConnectionCreatedEvent {
            address,
            connection_id: id(words),
        }),
        Kind::ConnectionReady => CmapEvent::from(ConnectionReadyEvent {
            address,
            connection_id: id(words),
            duration: milliseconds(words),
        }),
        Kind::ConnectionClosed => CmapEvent::from(ConnectionClosedEvent {
            address,
            connection_id: id(words),
            reason: closed_reason(value_of(words, "reason")),
            service_id: service(words),
        }),
        _ => checkout(kind, address, words),
    }
}

fn of_pool(page: &mut Page, kind: Kind, address: ServerAddress, words: &str) -> CmapEvent {
    match kind {
        Kind::PoolCreated => CmapEvent::from(PoolCreatedEvent {
            address,
            options: sizes(page, words),
        }),
        Kind::PoolReady => CmapEvent::from(PoolReadyEvent { address }),
        Kind::PoolCleared => CmapEvent::from(PoolClearedEvent {
            address,
            service_id: service(words),
            interrupt_in_use_connections: words.ends_with(" interrupt"),
        }),
        Kind::PoolClosed => CmapEvent::from(PoolClosedEvent { address }),
        _ => of_connection(kind, address, words),
    }
}

/// The event of a pool that has this name, and none where no such event has it.
pub fn pool_event(page: &mut Page, name: &str, words: &str) -> Option<CmapEvent> {
    let kind = named(&KINDS, name)?;
    let address = first_address(page, words)?;
    Some(of_pool(page, kind, address, words))
}
