//! On which lines a connection's state was told.

ghost use Rattle.std.specs.Prelude.{◌≡◌};
ghost use Rattle.mdb_recordings.specs.Steps.{connection_lines_after};

use crate::event::Told;

/// The lines of the newest events that say what state a connection is in, since one with its id was created.
#[derive(Clone, Copy, Debug)]
pub struct ConnectionLines {
    pub created: Option<u64>,
    pub readied: Option<u64>,
    /// It was created, checked out or checked in: from there on somebody had it, or nobody.
    pub moved: Option<u64>,
    /// It became ready, or was checked in.
    pub rested: Option<u64>,
    pub closed: Option<u64>,
}

impl ConnectionLines {
    /// Nothing was told of it.
    pub const UNTOLD: ConnectionLines = ConnectionLines {
        created: None,
        readied: None,
        moved: None,
        rested: None,
        closed: None,
    };

    /// After an event on this line that names the connection.
    pub(crate) fn after(self, told: &Told, line: u64) -> ConnectionLines
        ensures { result ≡ connection_lines_after told.now line self }
    {
        match told {
            Told::ConnectionCreated(_) => ConnectionLines {
                created: Some(line),
                moved: Some(line),
                ..ConnectionLines::UNTOLD
            },
            Told::ConnectionReady(_) => ConnectionLines {
                readied: Some(line),
                rested: Some(line),
                ..self
            },
            Told::ConnectionClosed(_, _) => ConnectionLines {
                closed: Some(line),
                ..self
            },
            Told::CheckedOut(_) => ConnectionLines {
                moved: Some(line),
                ..self
            },
            Told::CheckedIn(_) => ConnectionLines {
                moved: Some(line),
                rested: Some(line),
                ..self
            },
            _ => self,
        }
    }
}
