//! Each event of a server or a topology is one of the events of both.

use crate::sdam::{
    SdamEvent, ServerClosedEvent, ServerDescriptionChangedEvent, ServerHeartbeatFailedEvent,
    ServerHeartbeatStartedEvent, ServerHeartbeatSucceededEvent, ServerOpeningEvent,
    TopologyClosedEvent, TopologyDescriptionChangedEvent, TopologyOpeningEvent,
};

impl From<ServerDescriptionChangedEvent> for SdamEvent {
    ghost use Rattle.std.specs.Prelude.{◌≡◌};
    ghost use Rattle.mdb_events.specs.declared.sdam.SdamEvent.TheVariants.{ServerDescriptionChanged};

    ghost from_gives = { λ e x. x ≡ ServerDescriptionChanged e };

    fn from(event: ServerDescriptionChangedEvent) -> SdamEvent {
        SdamEvent::ServerDescriptionChanged(event)
    }
}

impl From<ServerOpeningEvent> for SdamEvent {
    ghost use Rattle.std.specs.Prelude.{◌≡◌};
    ghost use Rattle.mdb_events.specs.declared.sdam.SdamEvent.TheVariants.{ServerOpening};

    ghost from_gives = { λ e x. x ≡ ServerOpening e };

    fn from(event: ServerOpeningEvent) -> SdamEvent {
        SdamEvent::ServerOpening(event)
    }
}

impl From<ServerClosedEvent> for SdamEvent {
    ghost use Rattle.std.specs.Prelude.{◌≡◌};
    ghost use Rattle.mdb_events.specs.declared.sdam.SdamEvent.TheVariants.{ServerClosed};

    ghost from_gives = { λ e x. x ≡ ServerClosed e };

    fn from(event: ServerClosedEvent) -> SdamEvent {
        SdamEvent::ServerClosed(event)
    }
}

impl From<TopologyDescriptionChangedEvent> for SdamEvent {
    ghost use Rattle.std.specs.Prelude.{◌≡◌};
    ghost use Rattle.mdb_events.specs.declared.sdam.SdamEvent.TheVariants.{TopologyDescriptionChanged};

    ghost from_gives = { λ e x. x ≡ TopologyDescriptionChanged e };

    fn from(event: TopologyDescriptionChangedEvent) -> SdamEvent {
        SdamEvent::TopologyDescriptionChanged(event)
    }
}

impl From<TopologyOpeningEvent> for SdamEvent {
    ghost use Rattle.std.specs.Prelude.{◌≡◌};
    ghost use Rattle.mdb_events.specs.declared.sdam.SdamEvent.TheVariants.{TopologyOpening};

    ghost from_gives = { λ e x. x ≡ TopologyOpening e };

    fn from(event: TopologyOpeningEvent) -> SdamEvent {
        SdamEvent::TopologyOpening(event)
    }
}

impl From<TopologyClosedEvent> for SdamEvent {
    ghost use Rattle.std.specs.Prelude.{◌≡◌};
    ghost use Rattle.mdb_events.specs.declared.sdam.SdamEvent.TheVariants.{TopologyClosed};

    ghost from_gives = { λ e x. x ≡ TopologyClosed e };

    fn from(event: TopologyClosedEvent) -> SdamEvent {
        SdamEvent::TopologyClosed(event)
    }
}

impl From<ServerHeartbeatStartedEvent> for SdamEvent {
    ghost use Rattle.std.specs.Prelude.{◌≡◌};
    ghost use Rattle.mdb_events.specs.declared.sdam.SdamEvent.TheVariants.{ServerHeartbeatStarted};

    ghost from_gives = { λ e x. x ≡ ServerHeartbeatStarted e };

    fn from(event: ServerHeartbeatStartedEvent) -> SdamEvent {
        SdamEvent::ServerHeartbeatStarted(event)
    }
}

impl From<ServerHeartbeatSucceededEvent> for SdamEvent {
    ghost use Rattle.std.specs.Prelude.{◌≡◌};
    ghost use Rattle.mdb_events.specs.declared.sdam.SdamEvent.TheVariants.{ServerHeartbeatSucceeded};

    ghost from_gives = { λ e x. x ≡ ServerHeartbeatSucceeded e };

    fn from(event: ServerHeartbeatSucceededEvent) -> SdamEvent {
        SdamEvent::ServerHeartbeatSucceeded(event)
    }
}

impl From<ServerHeartbeatFailedEvent> for SdamEvent {
    ghost use Rattle.std.specs.Prelude.{◌≡◌};
    ghost use Rattle.mdb_events.specs.declared.sdam.SdamEvent.TheVariants.{ServerHeartbeatFailed};

    ghost from_gives = { λ e x. x ≡ ServerHeartbeatFailed e };

    fn from(event: ServerHeartbeatFailedEvent) -> SdamEvent {
        SdamEvent::ServerHeartbeatFailed(event)
    }
}
