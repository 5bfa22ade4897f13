//! Those who are told of events.

use crate::cmap::{
    CmapEvent, ConnectionCheckedInEvent, ConnectionCheckedOutEvent, ConnectionCheckoutFailedEvent,
    ConnectionCheckoutStartedEvent, ConnectionClosedEvent, ConnectionCreatedEvent,
    ConnectionReadyEvent, PoolClearedEvent, PoolClosedEvent, PoolCreatedEvent, PoolReadyEvent,
};
use crate::sdam::{
    SdamEvent, ServerClosedEvent, ServerDescriptionChangedEvent, ServerHeartbeatFailedEvent,
    ServerHeartbeatStartedEvent, ServerHeartbeatSucceededEvent, ServerOpeningEvent,
    TopologyClosedEvent, TopologyDescriptionChangedEvent, TopologyOpeningEvent,
};

/// Is told of the events of pools, each by its own function. A function that is not written does nothing.
pub trait CmapEventHandler: Send + Sync {
    fn handle_pool_created_event(&self, event: &PoolCreatedEvent) {
        let _event = event;
    }

    fn handle_pool_ready_event(&self, event: &PoolReadyEvent) {
        let _event = event;
    }

    fn handle_pool_cleared_event(&self, event: &PoolClearedEvent) {
        let _event = event;
    }

    fn handle_pool_closed_event(&self, event: &PoolClosedEvent) {
        let _event = event;
    }

    fn handle_connection_created_event(&self, event: &ConnectionCreatedEvent) {
        let _event = event;
    }

    fn handle_connection_ready_event(&self, event: &ConnectionReadyEvent) {
        let _event = event;
    }

    fn handle_connection_closed_event(&self, event: &ConnectionClosedEvent) {
        let _event = event;
    }

    fn handle_connection_checkout_started_event(&self, event: &ConnectionCheckoutStartedEvent) {
        let _event = event;
    }

    fn handle_connection_checkout_failed_event(&self, event: &ConnectionCheckoutFailedEvent) {
        let _event = event;
    }

    fn handle_connection_checked_out_event(&self, event: &ConnectionCheckedOutEvent) {
        let _event = event;
    }

    fn handle_connection_checked_in_event(&self, event: &ConnectionCheckedInEvent) {
        let _event = event;
    }
}

/// Is told of the events of servers and topologies, each by its own function. A function that is not written does
/// nothing.
pub trait SdamEventHandler: Send + Sync {
    fn handle_server_description_changed_event(&self, event: &ServerDescriptionChangedEvent) {
        let _event = event;
    }

    fn handle_server_opening_event(&self, event: &ServerOpeningEvent) {
        let _event = event;
    }

    fn handle_server_closed_event(&self, event: &ServerClosedEvent) {
        let _event = event;
    }

    fn handle_topology_description_changed_event(&self, event: &TopologyDescriptionChangedEvent) {
        let _event = event;
    }

    fn handle_topology_opening_event(&self, event: &TopologyOpeningEvent) {
        let _event = event;
    }

    fn handle_topology_closed_event(&self, event: &TopologyClosedEvent) {
        let _event = event;
    }

    fn handle_server_heartbeat_started_event(&self, event: &ServerHeartbeatStartedEvent) {
        let _event = event;
    }

    fn handle_server_heartbeat_succeeded_event(&self, event: &ServerHeartbeatSucceededEvent) {
        let _event = event;
    }

    fn handle_server_heartbeat_failed_event(&self, event: &ServerHeartbeatFailedEvent) {
        let _event = event;
    }
}

/// Calls the handler's function for this event, and no other. No memory is taken.
pub fn deliver_cmap(handler: &dyn CmapEventHandler, event: &CmapEvent) {
    match event {
        CmapEvent::PoolCreated(event) => handler.handle_pool_created_event(event),
        CmapEvent::PoolReady(event) => handler.handle_pool_ready_event(event),
        CmapEvent::PoolCleared(event) => handler.handle_pool_cleared_event(event),
        CmapEvent::PoolClosed(event) => handler.handle_pool_closed_event(event),
        CmapEvent::ConnectionCreated(event) => handler.handle_connection_created_event(event),
        CmapEvent::ConnectionReady(event) => handler.handle_connection_ready_event(event),
        CmapEvent::ConnectionClosed(event) => handler.handle_connection_closed_event(event),
        CmapEvent::ConnectionCheckoutStarted(event) =>
            handler.handle_connection_checkout_started_event(event),
        CmapEvent::ConnectionCheckoutFailed(event) =>
            handler.handle_connection_checkout_failed_event(event),
        CmapEvent::ConnectionCheckedOut(event) => handler.handle_connection_checked_out_event(
            event,
        ),
        CmapEvent::ConnectionCheckedIn(event) => handler.handle_connection_checked_in_event(event),
    }
}

/// Calls the handler's function for this event, and no other. No memory is taken.
pub fn deliver_sdam(handler: &dyn SdamEventHandler, event: &SdamEvent) {
    match event {
        SdamEvent::ServerDescriptionChanged(event) =>
            handler.handle_server_description_changed_event(event),
        SdamEvent::ServerOpening(event) => handler.handle_server_opening_event(event),
        SdamEvent::ServerClosed(event) => handler.handle_server_closed_event(event),
        SdamEvent::TopologyDescriptionChanged(event) =>
            handler.handle_topology_description_changed_event(event),
        SdamEvent::TopologyOpening(event) => handler.handle_topology_opening_event(event),
        SdamEvent::TopologyClosed(event) => handler.handle_topology_closed_event(event),
        SdamEvent::ServerHeartbeatStarted(event) => handler.handle_server_heartbeat_started_event(
            event,
        ),
        SdamEvent::ServerHeartbeatSucceeded(event) =>
            handler.handle_server_heartbeat_succeeded_event(event),
        SdamEvent::ServerHeartbeatFailed(event) => handler.handle_server_heartbeat_failed_event(
            event,
        ),
    }
}
