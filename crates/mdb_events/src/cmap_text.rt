//! The texts of the events of pools.

ghost use Rattle.std.specs.Prelude.{◌≡◌, ◌++◌, OnOk, OnErr};
ghost use Rattle.mdb_events.specs.EventText.{event_text};

use crate::cmap::{
    CmapEvent, ConnectionCheckedInEvent, ConnectionCheckedOutEvent, ConnectionCheckoutFailedEvent,
    ConnectionCheckoutStartedEvent, ConnectionClosedEvent, ConnectionCreatedEvent,
    ConnectionPoolOptions, ConnectionReadyEvent, PoolClearedEvent, PoolClosedEvent,
    PoolCreatedEvent, PoolReadyEvent,
};
use crate::words::{NumberOrDash, ServiceOrDash};
use mdb_base::OutOfMemory;
use std::alloc::Global;
use std::fmt;

impl fmt::Display for ConnectionPoolOptions {
    ghost use Rattle.std.specs.Prelude.{Some};
    ghost use Rattle.mdb_events.specs.EventText.{pool_options};

    ghost output = { λ o. Some (pool_options o) };

    fn fmt<W: fmt::Write>(&self, f: &mut fmt::Formatter<W>) -> fmt::Result {
        let max = NumberOrDash::wide(self.max_pool_size);
        let min = NumberOrDash::wide(self.min_pool_size);
        let idle = NumberOrDash(self.max_idle_time);
        write!(f, "max={max} min={min} idle={idle}")
    }
}

impl fmt::Display for PoolCreatedEvent {
    ghost use Rattle.std.specs.Prelude.{Some};
    ghost use Rattle.mdb_events.specs.EventText.{pool_created};

    ghost output = { λ e. Some (pool_created e) };

    fn fmt<W: fmt::Write>(&self, f: &mut fmt::Formatter<W>) -> fmt::Result {
        let address = &self.address;
        match &self.options {
            Some(options) => {
                let options = options.get();
                write!(f, "PoolCreated {address} {options}")
            }
            None => write!(f, "PoolCreated {address} -"),
        }
    }
}

impl fmt::Display for PoolReadyEvent {
    ghost use Rattle.std.specs.Prelude.{Some};
    ghost use Rattle.mdb_events.specs.EventText.{pool_ready};

    ghost output = { λ e. Some (pool_ready e) };

    fn fmt<W: fmt::Write>(&self, f: &mut fmt::Formatter<W>) -> fmt::Result {
        let address = &self.address;
        write!(f, "PoolReady {address}")
    }
}

impl fmt::Display for PoolClearedEvent {
    ghost use Rattle.std.specs.Prelude.{Some};
    ghost use Rattle.mdb_events.specs.EventText.{pool_cleared};

    ghost output = { λ e. Some (pool_cleared e) };

    fn fmt<W: fmt::Write>(&self, f: &mut fmt::Formatter<W>) -> fmt::Result {
        let address = &self.address;
        let service = ServiceOrDash(self.service_id);
        let interrupt = self.interrupt_in_use_connections;
        write!(
            f,
            "PoolCleared {address} service={service} interrupt={interrupt}"
        )
    }
}

impl fmt::Display for PoolClosedEvent {
    ghost use Rattle.std.specs.Prelude.{Some};
    ghost use Rattle.mdb_events.specs.EventText.{pool_closed};

    ghost output = { λ e. Some (pool_closed e) };

    fn fmt<W: fmt::Write>(&self, f: &mut fmt::Formatter<W>) -> fmt::Result {
        let address = &self.address;
        write!(f, "PoolClosed {address}")
    }
}

impl fmt::Display for ConnectionCreatedEvent {
    ghost use Rattle.std.specs.Prelude.{Some};
    ghost use Rattle.mdb_events.specs.EventText.{connection_created};

    ghost output = { λ e. Some (connection_created e) };

    fn fmt<W: fmt::Write>(&self, f: &mut fmt::Formatter<W>) -> fmt::Result {
        let address = &self.address;
        let id = self.connection_id;
        write!(f, "ConnectionCreated {address} {id}")
    }
}

impl fmt::Display for ConnectionReadyEvent {
    ghost use Rattle.std.specs.Prelude.{Some};
    ghost use Rattle.mdb_events.specs.EventText.{connection_ready};

    ghost output = { λ e. Some (connection_ready e) };

    fn fmt<W: fmt::Write>(&self, f: &mut fmt::Formatter<W>) -> fmt::Result {
        let address = &self.address;
        let id = self.connection_id;
        let duration = self.duration;
        write!(f, "ConnectionReady {address} {id} {duration}")
    }
}

impl fmt::Display for ConnectionClosedEvent {
    ghost use Rattle.std.specs.Prelude.{Some};
    ghost use Rattle.mdb_events.specs.EventText.{connection_closed};

    ghost output = { λ e. Some (connection_closed e) };

    fn fmt<W: fmt::Write>(&self, f: &mut fmt::Formatter<W>) -> fmt::Result {
        let address = &self.address;
        let id = self.connection_id;
        let reason = self.reason;
        let service = ServiceOrDash(self.service_id);
        write!(
            f,
            "ConnectionClosed {address} {id} {reason} service={service}"
        )
    }
}

impl fmt::Display for ConnectionCheckoutStartedEvent {
    ghost use Rattle.std.specs.Prelude.{Some};
    ghost use Rattle.mdb_events.specs.EventText.{connection_checkout_started};

    ghost output = { λ e. Some (connection_checkout_started e) };

    fn fmt<W: fmt::Write>(&self, f: &mut fmt::Formatter<W>) -> fmt::Result {
        let address = &self.address;
        write!(f, "ConnectionCheckoutStarted {address}")
    }
}

impl fmt::Display for ConnectionCheckoutFailedEvent {
    ghost use Rattle.std.specs.Prelude.{Some};
    ghost use Rattle.mdb_events.specs.EventText.{connection_checkout_failed};

    ghost output = { λ e. Some (connection_checkout_failed e) };

    fn fmt<W: fmt::Write>(&self, f: &mut fmt::Formatter<W>) -> fmt::Result {
        let address = &self.address;
        let reason = self.reason;
        let duration = self.duration;
        write!(f, "ConnectionCheckoutFailed {address} {reason} {duration}")
    }
}

impl fmt::Display for ConnectionCheckedOutEvent {
    ghost use Rattle.std.specs.Prelude.{Some};
    ghost use Rattle.mdb_events.specs.EventText.{connection_checked_out};

    ghost output = { λ e. Some (connection_checked_out e) };

    fn fmt<W: fmt::Write>(&self, f: &mut fmt::Formatter<W>) -> fmt::Result {
        let address = &self.address;
        let id = self.connection_id;
        let duration = self.duration;
        write!(f, "ConnectionCheckedOut {address} {id} {duration}")
    }
}

impl fmt::Display for ConnectionCheckedInEvent {
    ghost use Rattle.std.specs.Prelude.{Some};
    ghost use Rattle.mdb_events.specs.EventText.{connection_checked_in};

    ghost output = { λ e. Some (connection_checked_in e) };

    fn fmt<W: fmt::Write>(&self, f: &mut fmt::Formatter<W>) -> fmt::Result {
        let address = &self.address;
        let id = self.connection_id;
        write!(f, "ConnectionCheckedIn {address} {id}")
    }
}

impl fmt::Display for CmapEvent {
    ghost use Rattle.std.specs.Prelude.{Some};

    ghost output = { λ e. Some (event_text e) };

    fn fmt<W: fmt::Write>(&self, f: &mut fmt::Formatter<W>) -> fmt::Result {
        match self {
            CmapEvent::PoolCreated(event) => event.fmt(f),
            CmapEvent::PoolReady(event) => event.fmt(f),
            CmapEvent::PoolCleared(event) => event.fmt(f),
            CmapEvent::PoolClosed(event) => event.fmt(f),
            CmapEvent::ConnectionCreated(event) => event.fmt(f),
            CmapEvent::ConnectionReady(event) => event.fmt(f),
            CmapEvent::ConnectionClosed(event) => event.fmt(f),
            CmapEvent::ConnectionCheckoutStarted(event) => event.fmt(f),
            CmapEvent::ConnectionCheckoutFailed(event) => event.fmt(f),
            CmapEvent::ConnectionCheckedOut(event) => event.fmt(f),
            CmapEvent::ConnectionCheckedIn(event) => event.fmt(f),
        }
    }
}

/// Appends the event's text. After `OutOfMemory` nothing was appended.
pub fn write_cmap(alloc: Global, event: &CmapEvent, out: &mut Vec<u8>) -> Result<(), OutOfMemory>
    ensures ok { OnOk result (out.new.items ≡ out.old.items ++ event_text event.now) }
    ensures err { OnErr result (out.new.items ≡ out.old.items) }
{
    let text = event.to_string(alloc)?;
    out.extend_from_slice(text.as_bytes())?;
    Ok(())
}
