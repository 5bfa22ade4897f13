//! The text of an event.

use crate::shown_sdam::{ShownBeat, ShownSdam};
use mdb_describe::TypeName;
use mdb_events::SignedOrDash;
use std::fmt;

impl fmt::Display for ShownBeat {
    ghost use Rattle.std.specs.Prelude.{Some};
    ghost use Rattle.mdb_event_reading.specs.SdamTexts.{beat_text};

    ghost output = { λ b. Some (beat_text b) };

    fn fmt<W: fmt::Write>(&self, f: &mut fmt::Formatter<W>) -> fmt::Result {
        let address = &self.address;
        let awaited = self.awaited;
        let driver = self.driver;
        let server = SignedOrDash(self.server);
        write!(
            f,
            "{address} awaited={awaited} driver={driver} server={server}"
        )
    }
}

impl fmt::Display for ShownSdam {
    ghost use Rattle.std.specs.Prelude.{Some};
    ghost use Rattle.mdb_event_reading.specs.SdamTexts.{shown_sdam};

    ghost output = { λ e. Some (shown_sdam e) };

    fn fmt<W: fmt::Write>(&self, f: &mut fmt::Formatter<W>) -> fmt::Result {
        match self {
            ShownSdam::ServerChanged(address, old, new) => {
                let old = TypeName(*old);
                let new = TypeName(*new);
                write!(f, "ServerDescriptionChanged {address} {old} {new}")
            }
            ShownSdam::ServerOpening(address) => write!(f, "ServerOpening {address}"),
            ShownSdam::ServerClosed(address) => write!(f, "ServerClosed {address}"),
            ShownSdam::TopologyChanged(old, count, new, size) => {
                write!(f, "TopologyDescriptionChanged {old}/{count} {new}/{size}")
            }
            ShownSdam::TopologyOpening => write!(f, "TopologyOpening"),
            ShownSdam::TopologyClosed => write!(f, "TopologyClosed"),
            ShownSdam::Started(beat) => write!(f, "ServerHeartbeatStarted {beat}"),
            ShownSdam::Succeeded(beat, duration) => {
                write!(f, "ServerHeartbeatSucceeded {beat} duration={duration}")
            }
            ShownSdam::Failed(beat, duration, error) => {
                write!(
                    f,
                    "ServerHeartbeatFailed {beat} duration={duration} {error}"
                )
            }
        }
    }
}
