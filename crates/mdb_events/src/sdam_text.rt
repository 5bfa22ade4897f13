//! The texts of the events of servers and topologies.

ghost use Rattle.std.specs.Prelude.{◌≡◌, ◌++◌, OnOk, OnErr};
ghost use Rattle.mdb_events.specs.SdamText.{sdam_text};

use crate::sdam::{
    SdamEvent, ServerClosedEvent, ServerDescriptionChangedEvent, ServerHeartbeatFailedEvent,
    ServerHeartbeatStartedEvent, ServerHeartbeatSucceededEvent, ServerOpeningEvent,
    TopologyClosedEvent, TopologyDescriptionChangedEvent, TopologyOpeningEvent,
};
use crate::words::SignedOrDash;
use mdb_base::OutOfMemory;
use mdb_describe::TypeName;
use std::alloc::Global;
use std::fmt;

impl fmt::Display for ServerDescriptionChangedEvent {
    ghost use Rattle.std.specs.Prelude.{Some};
    ghost use Rattle.mdb_events.specs.SdamText.{server_description_changed};

    ghost output = { λ e. Some (server_description_changed e) };

    fn fmt<W: fmt::Write>(&self, f: &mut fmt::Formatter<W>) -> fmt::Result {
        let address = &self.address;
        let old = TypeName(self.previous_description.server_type);
        let new = TypeName(self.new_description.server_type);
        write!(f, "ServerDescriptionChanged {address} {old} {new}")
    }
}

impl fmt::Display for ServerOpeningEvent {
    ghost use Rattle.std.specs.Prelude.{Some};
    ghost use Rattle.mdb_events.specs.SdamText.{server_opening};

    ghost output = { λ e. Some (server_opening e) };

    fn fmt<W: fmt::Write>(&self, f: &mut fmt::Formatter<W>) -> fmt::Result {
        let address = &self.address;
        write!(f, "ServerOpening {address}")
    }
}

impl fmt::Display for ServerClosedEvent {
    ghost use Rattle.std.specs.Prelude.{Some};
    ghost use Rattle.mdb_events.specs.SdamText.{server_closed};

    ghost output = { λ e. Some (server_closed e) };

    fn fmt<W: fmt::Write>(&self, f: &mut fmt::Formatter<W>) -> fmt::Result {
        let address = &self.address;
        write!(f, "ServerClosed {address}")
    }
}

impl fmt::Display for TopologyDescriptionChangedEvent {
    ghost use Rattle.std.specs.Prelude.{Some};
    ghost use Rattle.mdb_events.specs.SdamText.{topology_description_changed};

    ghost output = { λ e. Some (topology_description_changed e) };

    fn fmt<W: fmt::Write>(&self, f: &mut fmt::Formatter<W>) -> fmt::Result {
        let old = self.previous_description.topology_type();
        let old_count = self.previous_description.servers().len();
        let new = self.new_description.topology_type();
        let new_count = self.new_description.servers().len();
        write!(
            f,
            "TopologyDescriptionChanged {old}/{old_count} {new}/{new_count}"
        )
    }
}

impl fmt::Display for TopologyOpeningEvent {
    ghost use Rattle.std.specs.Prelude.{Some};
    ghost use Rattle.mdb_events.specs.SdamText.{topology_opening};

    ghost output = { λ e. Some (topology_opening e) };

    fn fmt<W: fmt::Write>(&self, f: &mut fmt::Formatter<W>) -> fmt::Result {
        let _topology_id = self.topology_id;
        write!(f, "TopologyOpening")
    }
}

impl fmt::Display for TopologyClosedEvent {
    ghost use Rattle.std.specs.Prelude.{Some};
    ghost use Rattle.mdb_events.specs.SdamText.{topology_closed};

    ghost output = { λ e. Some (topology_closed e) };

    fn fmt<W: fmt::Write>(&self, f: &mut fmt::Formatter<W>) -> fmt::Result {
        let _topology_id = self.topology_id;
        write!(f, "TopologyClosed")
    }
}

impl fmt::Display for ServerHeartbeatStartedEvent {
    ghost use Rattle.std.specs.Prelude.{Some};
    ghost use Rattle.mdb_events.specs.SdamText.{heartbeat_started};

    ghost output = { λ e. Some (heartbeat_started e) };

    fn fmt<W: fmt::Write>(&self, f: &mut fmt::Formatter<W>) -> fmt::Result {
        let address = &self.server_address;
        let awaited = self.awaited;
        let driver = self.driver_connection_id;
        let server = SignedOrDash(self.server_connection_id);
        write!(
            f,
            "ServerHeartbeatStarted {address} awaited={awaited} driver={driver} server={server}"
        )
    }
}

impl fmt::Display for ServerHeartbeatSucceededEvent {
    ghost use Rattle.std.specs.Prelude.{Some};
    ghost use Rattle.mdb_events.specs.SdamText.{heartbeat_succeeded};

    ghost output = { λ e. Some (heartbeat_succeeded e) };

    fn fmt<W: fmt::Write>(&self, f: &mut fmt::Formatter<W>) -> fmt::Result {
        let address = &self.server_address;
        let awaited = self.awaited;
        let driver = self.driver_connection_id;
        let server = SignedOrDash(self.server_connection_id);
        let duration = self.duration;
        write!(
            f,
            "ServerHeartbeatSucceeded {address} awaited={awaited} driver={driver} server={server} duration={duration}"
        )
    }
}

impl fmt::Display for ServerHeartbeatFailedEvent {
    ghost use Rattle.std.specs.Prelude.{Some};
    ghost use Rattle.mdb_events.specs.SdamText.{heartbeat_failed};

    ghost output = { λ e. Some (heartbeat_failed e) };

    fn fmt<W: fmt::Write>(&self, f: &mut fmt::Formatter<W>) -> fmt::Result {
        let address = &self.server_address;
        let awaited = self.awaited;
        let driver = self.driver_connection_id;
        let server = SignedOrDash(self.server_connection_id);
        let duration = self.duration;
        let failure = &self.failure;
        write!(
            f,
            "ServerHeartbeatFailed {address} awaited={awaited} driver={driver} server={server} duration={duration} {failure}"
        )
    }
}

impl fmt::Display for SdamEvent {
    ghost use Rattle.std.specs.Prelude.{Some};

    ghost output = { λ e. Some (sdam_text e) };

    fn fmt<W: fmt::Write>(&self, f: &mut fmt::Formatter<W>) -> fmt::Result {
        match self {
            SdamEvent::ServerDescriptionChanged(event) => event.fmt(f),
            SdamEvent::ServerOpening(event) => event.fmt(f),
            SdamEvent::ServerClosed(event) => event.fmt(f),
            SdamEvent::TopologyDescriptionChanged(event) => event.fmt(f),
            SdamEvent::TopologyOpening(event) => event.fmt(f),
            SdamEvent::TopologyClosed(event) => event.fmt(f),
            SdamEvent::ServerHeartbeatStarted(event) => event.fmt(f),
            SdamEvent::ServerHeartbeatSucceeded(event) => event.fmt(f),
            SdamEvent::ServerHeartbeatFailed(event) => event.fmt(f),
        }
    }
}

/// Appends the event's text. After `OutOfMemory` nothing was appended.
pub fn write_sdam(alloc: Global, event: &SdamEvent, out: &mut Vec<u8>) -> Result<(), OutOfMemory>
    ensures ok { OnOk result (out.new.items ≡ out.old.items ++ sdam_text event.now) }
    ensures err { OnErr result (out.new.items ≡ out.old.items) }
{
    let text = event.to_string(alloc)?;
    out.extend_from_slice(text.as_bytes())?;
    Ok(())
}
