//! On which lines the topology's state was told.

ghost use Rattle.std.specs.Prelude.{◌≡◌};
ghost use Rattle.mdb_recording_servers.specs.ServerSteps.{topology_lines_after};

use crate::event::{ServerEvent, ServerTold};

/// The lines of the newest events that say what state the topology is in.
#[derive(Clone, Copy, Debug)]
pub struct TopologyLines {
    /// Something was told of it or of a server, but for checks and its end.
    pub begun: Option<u64>,
    pub changed: Option<u64>,
    pub closed: Option<u64>,
}

impl TopologyLines {
    /// Nothing was told.
    pub const UNTOLD: TopologyLines = TopologyLines {
        begun: None,
        changed: None,
        closed: None,
    };

    /// After an event on this line.
    pub(crate) fn after(self, event: &ServerEvent, line: u64) -> TopologyLines
        ensures { result ≡ topology_lines_after event.now line self }
    {
        match event {
            ServerEvent::Server(_, ServerTold::CheckStarted | ServerTold::CheckEnded) => self,
            ServerEvent::Server(
                _,
                ServerTold::Opened | ServerTold::Closed | ServerTold::Changed(_, _),
            )
            | ServerEvent::TopologyOpened => TopologyLines {
                begun: Some(line),
                ..self
            },
            ServerEvent::TopologyChanged => TopologyLines {
                begun: Some(line),
                changed: Some(line),
                ..self
            },
            ServerEvent::TopologyClosed => TopologyLines {
                closed: Some(line),
                ..self
            },
        }
    }
}
