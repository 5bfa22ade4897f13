//! On which lines a server's state was told.

ghost use Rattle.std.specs.Prelude.{◌≡◌};
ghost use Rattle.mdb_recording_servers.specs.ServerSteps.{server_lines_after};

use crate::event::ServerTold;

/// The lines of the newest events that say what state a server is in.
#[derive(Clone, Copy, Debug)]
pub struct ServerLines {
    pub opened: Option<u64>,
    pub closed: Option<u64>,
    /// It was opened, closed or changed: from there on it is of a kind.
    pub kind_told: Option<u64>,
    /// A check of it began.
    pub check_started: Option<u64>,
    /// A check of it ended.
    pub check_ended: Option<u64>,
}

impl ServerLines {
    /// Nothing was told of it.
    pub const UNTOLD: ServerLines = ServerLines {
        opened: None,
        closed: None,
        kind_told: None,
        check_started: None,
        check_ended: None,
    };

    /// After an event of the server on this line.
    pub(crate) fn after(self, told: &ServerTold, line: u64) -> ServerLines
        ensures { result ≡ server_lines_after told.now line self }
    {
        match told {
            ServerTold::Opened => ServerLines {
                opened: Some(line),
                kind_told: Some(line),
                ..self
            },
            ServerTold::Closed => ServerLines {
                closed: Some(line),
                kind_told: Some(line),
                ..self
            },
            ServerTold::Changed(_, _) => ServerLines {
                kind_told: Some(line),
                ..self
            },
            ServerTold::CheckStarted => ServerLines {
                check_started: Some(line),
                ..self
            },
            ServerTold::CheckEnded => ServerLines {
                check_ended: Some(line),
                ..self
            },
        }
    }
}
