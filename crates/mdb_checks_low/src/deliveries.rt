//! Each event is handed to the handler's function for it, and to no other.

use crate::server_events::server_event;
use mdb_cases::{Page, parted, pool_event};
use mdb_events::{
    CmapEvent, CmapEventHandler, ConnectionCheckedInEvent, ConnectionCheckedOutEvent,
    ConnectionCheckoutFailedEvent, ConnectionCheckoutStartedEvent, ConnectionClosedEvent,
    ConnectionCreatedEvent, ConnectionReadyEvent, PoolClearedEvent, PoolClosedEvent,
    PoolCreatedEvent, PoolReadyEvent, SdamEvent, SdamEventHandler, ServerClosedEvent,
    ServerDescriptionChangedEvent, ServerHeartbeatFailedEvent, ServerHeartbeatStartedEvent,
    ServerHeartbeatSucceededEvent, ServerOpeningEvent, TopologyClosedEvent,
    TopologyDescriptionChangedEvent, TopologyOpeningEvent, deliver_cmap, deliver_sdam,
};
use std::sync::atomic::{AtomicU64, Ordering};

// Counts the calls, and keeps the number of the function that was called last.
#[derive(Drop)]
struct Told {
    calls: AtomicU64,
    last: AtomicU64,
}

impl Told {
    fn new() -> Told {
        Told {
            calls: AtomicU64::new(0),
            last: AtomicU64::new(0),
        }
    }

    fn note(&self, function: u64) {
        self.calls.fetch_add(1, Ordering::SeqCst);
        self.last.store(function, Ordering::SeqCst);
    }
}

impl CmapEventHandler for Told {
    fn handle_pool_created_event(&self, _event: &PoolCreatedEvent) {
        self.note(1);
    }

    fn handle_pool_ready_event(&self, _event: &PoolReadyEvent) {
        self.note(2);
    }

    fn handle_pool_cleared_event(&self, _event: &PoolClearedEvent) {
        self.note(3);
    }

    fn handle_pool_closed_event(&self, _event: &PoolClosedEvent) {
        self.note(4);
    }

    fn handle_connection_created_event(&self, _event: &ConnectionCreatedEvent) {
        self.note(5);
    }

    fn handle_connection_ready_event(&self, _event: &ConnectionReadyEvent) {
        self.note(6);
    }

    fn handle_connection_closed_event(&self, _event: &ConnectionClosedEvent) {
        self.note(7);
    }

    fn handle_connection_checkout_started_event(&self, _event: &ConnectionCheckoutStartedEvent) {
        self.note(8);
    }

    fn handle_connection_checkout_failed_event(&self, _event: &ConnectionCheckoutFailedEvent) {
        self.note(9);
    }

    fn handle_connection_checked_out_event(&self, _event: &ConnectionCheckedOutEvent) {
        self.note(10);
    }

    fn handle_connection_checked_in_event(&self, _event: &ConnectionCheckedInEvent) {
        self.note(11);
    }
}

impl SdamEventHandler for Told {
    fn handle_server_description_changed_event(&self, _event: &ServerDescriptionChangedEvent) {
        self.note(1);
    }

    fn handle_server_opening_event(&self, _event: &ServerOpeningEvent) {
        self.note(2);
    }

    fn handle_server_closed_event(&self, _event: &ServerClosedEvent) {
        self.note(3);
    }

    fn handle_topology_description_changed_event(&self, _event: &TopologyDescriptionChangedEvent) {
        self.note(4);
    }

    fn handle_topology_opening_event(&self, _event: &TopologyOpeningEvent) {
        self.note(5);
    }

    fn handle_topology_closed_event(&self, _event: &TopologyClosedEvent) {
        self.note(6);
    }

    fn handle_server_heartbeat_started_event(&self, _event: &ServerHeartbeatStartedEvent) {
        self.note(7);
    }

    fn handle_server_heartbeat_succeeded_event(&self, _event: &ServerHeartbeatSucceededEvent) {
        self.note(8);
    }

    fn handle_server_heartbeat_failed_event(&self, _event: &ServerHeartbeatFailedEvent) {
        self.note(9);
    }
}

// The function of this number for events of pools.
fn of_pools(number: u64) -> &'static str {
    match number {
        1 => "handle_pool_created_event",
        2 => "handle_pool_ready_event",
        3 => "handle_pool_cleared_event",
        4 => "handle_pool_closed_event",
        5 => "handle_connection_created_event",
        6 => "handle_connection_ready_event",
        7 => "handle_connection_closed_event",
        8 => "handle_connection_checkout_started_event",
        9 => "handle_connection_checkout_failed_event",
        10 => "handle_connection_checked_out_event",
        11 => "handle_connection_checked_in_event",
        _ => "none",
    }
}

// The function of this number for events of servers and topologies.
fn of_servers(number: u64) -> &'static str {
    match number {
        1 => "handle_server_description_changed_event",
        2 => "handle_server_opening_event",
        3 => "handle_server_closed_event",
        4 => "handle_topology_description_changed_event",
        5 => "handle_topology_opening_event",
        6 => "handle_topology_closed_event",
        7 => "handle_server_heartbeat_started_event",
        8 => "handle_server_heartbeat_succeeded_event",
        9 => "handle_server_heartbeat_failed_event",
        _ => "none",
    }
}

fn show_calls(page: &mut Page, told: &Told) {
    match told.calls.load(Ordering::SeqCst) {
        0 => page.put(" never"),
        1 => page.put(" once"),
        _ => page.put(" again"),
    }
}

fn deliver_of_pool(page: &mut Page, event: &CmapEvent) {
    let told = Told::new();
    deliver_cmap(&told, event);
    page.put(of_pools(told.last.load(Ordering::SeqCst)));
    show_calls(page, &told);
}

fn deliver_of_server(page: &mut Page, event: &SdamEvent) {
    let told = Told::new();
    deliver_sdam(&told, event);
    page.put(of_servers(told.last.load(Ordering::SeqCst)));
    show_calls(page, &told);
}

fn hand_pool_event(page: &mut Page, name: &str, words: &str) {
    let made = pool_event(page, name, words);
    if let Some(event) = &made {
        deliver_of_pool(page, event);
    }
    drop(made);
}

fn hand_server_event(page: &mut Page, name: &str, words: &str) {
    let made = server_event(page, name, words);
    if let Some(event) = &made {
        deliver_of_server(page, event);
    }
    drop(made);
}

/// `deliver PoolReady a:1`: the function that is called with the event, and how often a function is called.
pub fn deliver(page: &mut Page, given: &str) {
    let (name, words) = parted(given);
    hand_pool_event(page, name, words);
    hand_server_event(page, name, words);
}
