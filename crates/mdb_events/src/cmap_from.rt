//! Each event of a pool is one of the events of pools.

use crate::cmap::{
    CmapEvent, ConnectionCheckedInEvent, ConnectionCheckedOutEvent, ConnectionCheckoutFailedEvent,
    ConnectionCheckoutStartedEvent, ConnectionClosedEvent, ConnectionCreatedEvent,
    ConnectionReadyEvent, PoolClearedEvent, PoolClosedEvent, PoolCreatedEvent, PoolReadyEvent,
};

impl From<PoolCreatedEvent> for CmapEvent {
    ghost use Rattle.std.specs.Prelude.{◌≡◌};
    ghost use Rattle.mdb_events.specs.declared.cmap.CmapEvent.TheVariants.{PoolCreated};

    ghost from_gives = { λ e x. x ≡ PoolCreated e };

    fn from(event: PoolCreatedEvent) -> CmapEvent {
        CmapEvent::PoolCreated(event)
    }
}

impl From<PoolReadyEvent> for CmapEvent {
    ghost use Rattle.std.specs.Prelude.{◌≡◌};
    ghost use Rattle.mdb_events.specs.declared.cmap.CmapEvent.TheVariants.{PoolReady};

    ghost from_gives = { λ e x. x ≡ PoolReady e };

    fn from(event: PoolReadyEvent) -> CmapEvent {
        CmapEvent::PoolReady(event)
    }
}

impl From<PoolClearedEvent> for CmapEvent {
    ghost use Rattle.std.specs.Prelude.{◌≡◌};
    ghost use Rattle.mdb_events.specs.declared.cmap.CmapEvent.TheVariants.{PoolCleared};

    ghost from_gives = { λ e x. x ≡ PoolCleared e };

    fn from(event: PoolClearedEvent) -> CmapEvent {
        CmapEvent::PoolCleared(event)
    }
}

impl From<PoolClosedEvent> for CmapEvent {
    ghost use Rattle.std.specs.Prelude.{◌≡◌};
    ghost use Rattle.mdb_events.specs.declared.cmap.CmapEvent.TheVariants.{PoolClosed};

    ghost from_gives = { λ e x. x ≡ PoolClosed e };

    fn from(event: PoolClosedEvent) -> CmapEvent {
        CmapEvent::PoolClosed(event)
    }
}

impl From<ConnectionCreatedEvent> for CmapEvent {
    ghost use Rattle.std.specs.Prelude.{◌≡◌};
    ghost use Rattle.mdb_events.specs.declared.cmap.CmapEvent.TheVariants.{ConnectionCreated};

    ghost from_gives = { λ e x. x ≡ ConnectionCreated e };

    fn from(event: ConnectionCreatedEvent) -> CmapEvent {
        CmapEvent::ConnectionCreated(event)
    }
}

impl From<ConnectionReadyEvent> for CmapEvent {
    ghost use Rattle.std.specs.Prelude.{◌≡◌};
    ghost use Rattle.mdb_events.specs.declared.cmap.CmapEvent.TheVariants.{ConnectionReady};

    ghost from_gives = { λ e x. x ≡ ConnectionReady e };

    fn from(event: ConnectionReadyEvent) -> CmapEvent {
        CmapEvent::ConnectionReady(event)
    }
}

impl From<ConnectionClosedEvent> for CmapEvent {
    ghost use Rattle.std.specs.Prelude.{◌≡◌};
    ghost use Rattle.mdb_events.specs.declared.cmap.CmapEvent.TheVariants.{ConnectionClosed};

    ghost from_gives = { λ e x. x ≡ ConnectionClosed e };

    fn from(event: ConnectionClosedEvent) -> CmapEvent {
        CmapEvent::ConnectionClosed(event)
    }
}

impl From<ConnectionCheckoutStartedEvent> for CmapEvent {
    ghost use Rattle.std.specs.Prelude.{◌≡◌};
    ghost use Rattle.mdb_events.specs.declared.cmap.CmapEvent.TheVariants.{ConnectionCheckoutStarted};

    ghost from_gives = { λ e x. x ≡ ConnectionCheckoutStarted e };

    fn from(event: ConnectionCheckoutStartedEvent) -> CmapEvent {
        CmapEvent::ConnectionCheckoutStarted(event)
    }
}

impl From<ConnectionCheckoutFailedEvent> for CmapEvent {
    ghost use Rattle.std.specs.Prelude.{◌≡◌};
    ghost use Rattle.mdb_events.specs.declared.cmap.CmapEvent.TheVariants.{ConnectionCheckoutFailed};

    ghost from_gives = { λ e x. x ≡ ConnectionCheckoutFailed e };

    fn from(event: ConnectionCheckoutFailedEvent) -> CmapEvent {
        CmapEvent::ConnectionCheckoutFailed(event)
    }
}

impl From<ConnectionCheckedOutEvent> for CmapEvent {
    ghost use Rattle.std.specs.Prelude.{◌≡◌};
    ghost use Rattle.mdb_events.specs.declared.cmap.CmapEvent.TheVariants.{ConnectionCheckedOut};

    ghost from_gives = { λ e x. x ≡ ConnectionCheckedOut e };

    fn from(event: ConnectionCheckedOutEvent) -> CmapEvent {
        CmapEvent::ConnectionCheckedOut(event)
    }
}

impl From<ConnectionCheckedInEvent> for CmapEvent {
    ghost use Rattle.std.specs.Prelude.{◌≡◌};
    ghost use Rattle.mdb_events.specs.declared.cmap.CmapEvent.TheVariants.{ConnectionCheckedIn};

    ghost from_gives = { λ e x. x ≡ ConnectionCheckedIn e };

    fn from(event: ConnectionCheckedInEvent) -> CmapEvent {
        CmapEvent::ConnectionCheckedIn(event)
    }
}
