//! What is known of the topology.

ghost use Rattle.std.specs.Prelude.{◌≡◌, true};
ghost use Rattle.mdb_recording_servers.specs.ServerSteps.{topology_after, topology_state_after};

use crate::event::{Seen, ServerEvent, ServerTold};
use crate::topology_lines::TopologyLines;

/// What the events tell of the topology.
#[derive(Clone, Copy, Debug)]
pub struct Topology {
    /// The recording tells of servers, and not of their checks alone.
    pub is_told: bool,
    /// Something was told of it or of a server, but for checks, since it was closed last.
    pub is_begun: bool,
    /// It was closed, and not opened since.
    pub is_closed: bool,
    /// It was opened, or a server was opened, closed or changed, and it was not changed since.
    pub has_cause: bool,
    /// When it changed last it had such a cause, or it did not change yet.
    pub had_cause: bool,
    /// A server was opened or closed since it changed last.
    pub has_move: bool,
    pub lines: TopologyLines,
}

impl Topology {
    /// Nothing was told.
    pub const UNTOLD: Topology = Topology {
        is_told: false,
        is_begun: false,
        is_closed: false,
        has_cause: false,
        had_cause: true,
        has_move: false,
        lines: TopologyLines::UNTOLD,
    };

    // Something was told of it or of a server that is no end and no check.
    fn begun(self) -> Topology
        ensures { result ≡ record self { is_told = true; is_begun = true } }
    {
        Topology {
            is_told: true,
            is_begun: true,
            ..self
        }
    }

    /// After an event.
    pub(crate) fn after(self, seen: &Seen) -> Topology
        ensures { result ≡ topology_after seen.now.event seen.now.line self }
    {
        Topology {
            lines: self.lines.after(&seen.event, seen.line),
            ..self.state_after(&seen.event)
        }
    }

    // Its state after an event.
    fn state_after(self, event: &ServerEvent) -> Topology
        ensures { result ≡ topology_state_after event.now self }
    {
        match event {
            ServerEvent::Server(_, ServerTold::CheckStarted | ServerTold::CheckEnded) => self,
            ServerEvent::Server(_, ServerTold::Opened | ServerTold::Closed) => Topology {
                has_cause: true,
                has_move: true,
                ..self.begun()
            },
            ServerEvent::Server(_, ServerTold::Changed(_, _)) => Topology {
                has_cause: true,
                ..self.begun()
            },
            ServerEvent::TopologyOpened => Topology {
                is_closed: false,
                has_cause: true,
                ..self.begun()
            },
            ServerEvent::TopologyChanged => Topology {
                has_cause: false,
                had_cause: self.has_cause,
                has_move: false,
                ..self.begun()
            },
            ServerEvent::TopologyClosed => Topology {
                is_told: true,
                is_begun: false,
                is_closed: true,
                ..self
            },
        }
    }
}
