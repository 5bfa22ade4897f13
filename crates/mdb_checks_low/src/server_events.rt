//! The events of servers and topologies by their words.

use crate::hello::document;
use mdb_base::{Document, ObjectId, ServerAddress};
use mdb_cases::{Page, down, first_address, made_options, named, number, parted, small, value_of};
use mdb_describe::{ServerDescription, TopologyDescription};
use mdb_events::{
    SdamEvent, ServerClosedEvent, ServerDescriptionChangedEvent, ServerHeartbeatFailedEvent,
    ServerHeartbeatStartedEvent, ServerHeartbeatSucceededEvent, ServerOpeningEvent,
    TopologyClosedEvent, TopologyDescriptionChangedEvent, TopologyOpeningEvent,
};
use mdb_hello::ServerType;

const TOPOLOGY: ObjectId = ObjectId([0; 12]);

const TYPES: [(&str, ServerType); 8] = [
    ("Standalone", ServerType::Standalone),
    ("Mongos", ServerType::Mongos),
    ("RsPrimary", ServerType::RsPrimary),
    ("RsSecondary", ServerType::RsSecondary),
    ("RsArbiter", ServerType::RsArbiter),
    ("RsOther", ServerType::RsOther),
    ("RsGhost", ServerType::RsGhost),
    ("LoadBalancer", ServerType::LoadBalancer),
];

// The description of a server of this type, which has not answered.
fn server(address: ServerAddress, word: &str) -> ServerDescription {
    ServerDescription {
        address,
        server_type: named(&TYPES, word).unwrap_or(ServerType::Unknown),
        last_update_time: None,
        average_round_trip_time: None,
        reply: Ok(None),
    }
}

fn server_changed(page: &mut Page, address: ServerAddress, words: &str) -> Option<SdamEvent> {
    let before = page.same_address(&address)?;
    let after = page.same_address(&address)?;
    let (_, types) = parted(words);
    let (old, new) = parted(types);
    Some(SdamEvent::from(ServerDescriptionChangedEvent {
        address,
        topology_id: TOPOLOGY,
        previous_description: server(before, old),
        new_description: server(after, new),
    }))
}

// The description of the topology that these options open.
fn topology(page: &mut Page, words: &str) -> Option<TopologyDescription> {
    let options = made_options(page, words);
    let made = TopologyDescription::initialize(page.alloc, &options);
    drop(options);
    match made {
        Ok(made) => Some(made),
        Err(_) => {
            page.fail();
            None
        }
    }
}

fn topology_changed(page: &mut Page, words: &str) -> Option<SdamEvent> {
    let (old, new) = words.split_once(" to ").unwrap_or((words, ""));
    let previous_description = topology(page, old)?;
    let Some(new_description) = topology(page, new) else {
        drop(previous_description);
        return None;
    };
    Some(SdamEvent::from(TopologyDescriptionChangedEvent {
        topology_id: TOPOLOGY,
        previous_description,
        new_description,
    }))
}

// Which event of a server it is.
#[derive(Clone, Copy)]
enum Kind {
    Changed,
    Opening,
    Closed,
    HeartbeatStarted,
    HeartbeatSucceeded,
    HeartbeatFailed,
}

const KINDS: [(&str, Kind); 6] = [
    ("ServerDescriptionChanged", Kind::Changed),
    ("ServerOpening", Kind::Opening),
    ("ServerClosed", Kind::Closed),
    ("ServerHeartbeatStarted", Kind::HeartbeatStarted),
    ("ServerHeartbeatSucceeded", Kind::HeartbeatSucceeded),
    ("ServerHeartbeatFailed", Kind::HeartbeatFailed),
];

fn awaited(words: &str) -> bool {
    words.ends_with(" awaited")
}

fn driver(words: &str) -> u32 {
    small(value_of(words, "driver"))
}

fn of_server(words: &str) -> Option<i64> {
    value_of(words, "server").parse::<i64>().ok()
}

fn nanoseconds(words: &str) -> u64 {
    number(value_of(words, "ns"))
}

fn heartbeat(page: &mut Page, kind: Kind, server_address: ServerAddress, words: &str) -> SdamEvent {
    match kind {
        Kind::HeartbeatSucceeded => SdamEvent::from(ServerHeartbeatSucceededEvent {
            duration: nanoseconds(words),
            reply: Document::new(document(page, words)),
            server_address,
            awaited: awaited(words),
            driver_connection_id: driver(words),
            server_connection_id: of_server(words),
        }),
        Kind::HeartbeatFailed => SdamEvent::from(ServerHeartbeatFailedEvent {
            duration: nanoseconds(words),
            failure: down(page),
            server_address,
            awaited: awaited(words),
            driver_connection_id: driver(words),
            server_connection_id: of_server(words),
        }),
        _ => SdamEvent::from(ServerHeartbeatStartedEvent {
            server_address,
            awaited: awaited(words),
            driver_connection_id: driver(words),
            server_connection_id: of_server(words),
        }),
    }
}

fn event_of_server(page: &mut Page, kind: Kind, words: &str) -> Option<SdamEvent> {
    let address = first_address(page, words)?;
    match kind {
        Kind::Changed => server_changed(page, address, words),
        Kind::Opening => Some(SdamEvent::from(ServerOpeningEvent {
            address,
            topology_id: TOPOLOGY,
        })),
        Kind::Closed => Some(SdamEvent::from(ServerClosedEvent {
            address,
            topology_id: TOPOLOGY,
        })),
        _ => Some(heartbeat(page, kind, address, words)),
    }
}

// The event of a topology that has this name.
fn event_of_topology(page: &mut Page, name: &str, words: &str) -> Option<SdamEvent> {
    match name {
        "TopologyDescriptionChanged" => topology_changed(page, words),
        "TopologyOpening" => Some(SdamEvent::from(TopologyOpeningEvent {
            topology_id: TOPOLOGY,
        })),
        "TopologyClosed" => Some(SdamEvent::from(TopologyClosedEvent {
            topology_id: TOPOLOGY,
        })),
        _ => None,
    }
}

/// The event of a server or a topology that has this name, and none where no such event has it.
pub fn server_event(page: &mut Page, name: &str, words: &str) -> Option<SdamEvent> {
    match named(&KINDS, name) {
        Some(kind) => event_of_server(page, kind, words),
        None => event_of_topology(page, name, words),
    }
}
