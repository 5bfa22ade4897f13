//! What is known of the pools that were at an address before.

ghost use Rattle.std.specs.Prelude.{◌≡◌, ◌+◌, ◌-◌, ◌||◌, IfOk};
ghost use Rattle.mdb_recordings.specs.Lives.{live, waiting};
ghost use Rattle.mdb_recordings.specs.Steps.{former_after_event};

use crate::connection::Connection;
use crate::event::Told;
use crate::facts::{Facts, live, waiting};
use mdb_base::OutOfMemory;

/// What the events of an address tell of its pools before the last.
#[derive(Clone, Copy, Debug)]
pub struct Former {
    /// One of them was closed.
    pub is_closed: bool,
    /// How many of their connections are not closed.
    pub left: u64,
    /// How many of their check-outs did not end.
    pub waiting: u64,
}

impl Former {
    /// There was none.
    pub const UNTOLD: Former = Former {
        is_closed: false,
        left: 0,
        waiting: 0,
    };

    // A pool begins behind the one of which so much is known.
    fn once_followed(self, facts: &Facts) -> Result<Former, OutOfMemory>
        ensures { IfOk result (λ x. x ≡ record { is_closed = facts.now.is_closed || self.is_closed; left = self.left + live facts.now; waiting = waiting facts.now self.waiting }) }
    {
        let waiting = waiting(facts, self.waiting)?;
        match self.left.checked_add(live(facts)) {
            Some(left) => Ok(Former {
                is_closed: facts.is_closed || self.is_closed,
                left,
                waiting,
            }),
            None => Err(OutOfMemory),
        }
    }

    /// After an event that may begin a pool, behind the one of which so much is known, or name the connection of that.
    pub(crate) fn after(
        self,
        told: &Told,
        connection: &Connection,
        facts: &Facts,
    ) -> Result<Former, OutOfMemory>
        ensures { IfOk result (λ x. x ≡ former_after_event told.now connection.now facts.now self) }
    {
        match told {
            Told::PoolCreated(_) => self.once_followed(facts),
            Told::ConnectionClosed(_, _) => {
                if connection.is_created {
                    Ok(self)
                } else {
                    Ok(Former {
                        left: self.left.saturating_sub(1),
                        ..self
                    })
                }
            }
            _ => Ok(self),
        }
    }
}
