//! What is known of one server.

ghost use Rattle.std.specs.Prelude.{◌≡◌, ◌+◌, ◌-◌, IfOk};
ghost use Rattle.mdb_recording_servers.specs.ServerSteps.{server_after, server_state_after};
ghost use Rattle.mdb_recording_servers.specs.declared.event.ServerTold.TheVariants.{CheckStarted};

use crate::event::{ServerKind, ServerTold};
use crate::server_lines::ServerLines;
use mdb_base::OutOfMemory;

/// What the events tell of a server.
#[derive(Clone, Copy, Debug)]
pub struct Server {
    /// It was opened, and not closed since.
    pub is_open: bool,
    /// A check of it began, and since then none ended and it was not opened.
    pub is_checked: bool,
    /// How many checks of it began and did not end.
    pub checks: u64,
    /// What it is, as far as that was told.
    pub kind: Option<ServerKind>,
    pub lines: ServerLines,
}

impl Server {
    /// Nothing was told of it.
    pub const UNTOLD: Server = Server {
        is_open: false,
        is_checked: false,
        checks: 0,
        kind: None,
        lines: ServerLines::UNTOLD,
    };

    // A check of it begins. A count past 2^64 - 1 is more than memory could have brought.
    fn with_check(self) -> Result<Server, OutOfMemory>
        ensures { IfOk result (λ x. x ≡ server_state_after CheckStarted self) }
    {
        match self.checks.checked_add(1) {
            Some(checks) => Ok(Server {
                is_checked: true,
                checks,
                ..self
            }),
            None => Err(OutOfMemory),
        }
    }

    /// After an event of it on this line.
    pub(crate) fn after(self, told: &ServerTold, line: u64) -> Result<Server, OutOfMemory>
        ensures { IfOk result (λ x. x ≡ server_after told.now line self) }
    {
        let state = self.state_after(told)?;
        Ok(Server {
            lines: self.lines.after(told, line),
            ..state
        })
    }

    // Its state after an event of it.
    fn state_after(self, told: &ServerTold) -> Result<Server, OutOfMemory>
        ensures { IfOk result (λ x. x ≡ server_state_after told.now self) }
    {
        match told {
            ServerTold::Opened => Ok(Server {
                is_open: true,
                is_checked: false,
                kind: Some(ServerKind::Unknown),
                ..self
            }),
            ServerTold::Closed => Ok(Server {
                is_open: false,
                kind: None,
                ..self
            }),
            ServerTold::Changed(_, to) => Ok(Server { kind: *to, ..self }),
            ServerTold::CheckStarted => self.with_check(),
            ServerTold::CheckEnded => Ok(Server {
                is_checked: false,
                checks: self.checks.saturating_sub(1),
                ..self
            }),
        }
    }
}
