//! On which lines a pool's state was told.

ghost use Rattle.std.specs.Prelude.{◌≡◌};
ghost use Rattle.mdb_recordings.specs.Steps.{pool_lines_after};

use crate::event::Told;

/// The lines of the newest events that say what state a pool is in, since it was created.
#[derive(Clone, Copy, Debug)]
pub struct PoolLines {
    pub created: Option<u64>,
    pub readied: Option<u64>,
    /// All of it was cleared.
    pub cleared: Option<u64>,
    /// It was created, or all of it was cleared, or it was closed: from there on it was not ready.
    pub stopped: Option<u64>,
    pub closed: Option<u64>,
}

impl PoolLines {
    /// Nothing was told of it.
    pub const UNTOLD: PoolLines = PoolLines {
        created: None,
        readied: None,
        cleared: None,
        stopped: None,
        closed: None,
    };

    /// After an event of the pool on this line.
    pub(crate) fn after(self, told: &Told, line: u64) -> PoolLines
        ensures { result ≡ pool_lines_after told.now line self }
    {
        match told {
            Told::PoolCreated(_) => PoolLines {
                created: Some(line),
                stopped: Some(line),
                ..self
            },
            Told::PoolReady => PoolLines {
                readied: Some(line),
                ..self
            },
            Told::PoolCleared(true) => PoolLines {
                cleared: Some(line),
                stopped: Some(line),
                ..self
            },
            Told::PoolClosed => PoolLines {
                stopped: Some(line),
                closed: Some(line),
                ..self
            },
            _ => self,
        }
    }
}
