//! What is known of one connection.

ghost use Rattle.std.specs.Prelude.{◌≡◌};
ghost use Rattle.mdb_recordings.specs.Steps.{connection_after, connection_state_after, new_connection};

use crate::connection_lines::ConnectionLines;
use crate::event::{Event, Told};
use crate::facts::{Facts, hands_out};

/// What the events of a pool tell of a connection, since one with its id was created there last.
#[derive(Clone, Copy, Debug)]
pub struct Connection {
    pub is_created: bool,
    /// Its pool handed out connections when it was created.
    pub is_wanted: bool,
    pub is_readied: bool,
    pub is_closed: bool,
    /// Its newest check-out or check-in is a check-out.
    pub is_out: bool,
    /// It was handed out before.
    pub was_out: bool,
    /// How often the pool had been cleared when it was created.
    pub generation: u64,
    /// How often the pool had been paused when it became ready.
    pub readied_after: u64,
    /// When it was put into the pool last, in microseconds, as far as that was told.
    pub rested_at: Option<u64>,
    pub lines: ConnectionLines,
}

impl Connection {
    /// Nothing was told of it.
    pub const UNTOLD: Connection = Connection {
        is_created: false,
        is_wanted: false,
        is_readied: false,
        is_closed: false,
        is_out: false,
        was_out: false,
        generation: 0,
        readied_after: 0,
        rested_at: None,
        lines: ConnectionLines::UNTOLD,
    };

    // One that its pool just created, of which so much is known.
    fn created(facts: &Facts, lines: ConnectionLines) -> Connection
        ensures { result ≡ new_connection facts.now lines }
    {
        Connection {
            is_created: true,
            is_wanted: hands_out(facts),
            generation: facts.clears,
            lines,
            ..Connection::UNTOLD
        }
    }

    // Its state after an event that names it, where so much was known of its pool before.
    fn state_after(self, event: &Event, facts: &Facts) -> Connection
        ensures { result ≡ connection_state_after event.now.told event.now.at facts.now self }
    {
        match event.told {
            Told::ConnectionCreated(_) => Connection::created(facts, self.lines),
            Told::ConnectionReady(_) => Connection {
                is_readied: true,
                readied_after: facts.pauses,
                rested_at: event.at,
                ..self
            },
            Told::ConnectionClosed(_, _) => Connection {
                is_closed: true,
                ..self
            },
            Told::CheckedOut(_) => Connection {
                is_out: true,
                was_out: true,
                ..self
            },
            Told::CheckedIn(_) => Connection {
                is_out: false,
                rested_at: event.at,
                ..self
            },
            _ => self,
        }
    }

    /// After an event on this line that names it, where so much was known of its pool before.
    pub(crate) fn after(self, event: &Event, line: u64, facts: &Facts) -> Connection
        ensures { result ≡ connection_after event.now.told event.now.at line facts.now self }
    {
        Connection {
            lines: self.lines.after(&event.told, line),
            ..self.state_after(event, facts)
        }
    }
}
