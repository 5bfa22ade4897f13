//! Whether a pool may be used, and its clears.

use mdb_base::{Error, ObjectId};

/// Whether a pool may be used (CMAP, "Connection Pool").
#[derive(Clone, Copy, Debug, PartialEq, Eq)]
pub enum PoolState {
    /// It was never marked ready.
    New,
    /// Connections can be checked out.
    Ready,
    /// It was cleared as a whole, and not marked ready since.
    Paused,
    /// It was closed for good.
    Closed,
}

/// What a pool is, with the cause of a pause.
#[derive(Drop)]
pub enum Status {
    /// It was never marked ready.
    New,
    /// Connections can be checked out.
    Ready,
    /// It was cleared as a whole by this error, and not marked ready since.
    Paused(Error),
    /// It was closed for good.
    Closed,
}

/// A clear of the pool, or of one service of it.
#[derive(Clone, Copy)]
pub struct Clear {
    /// The service that was cleared, or none for the whole pool.
    pub service: Option<ObjectId>,
    /// How many connections were created before it.
    pub after: u32,
    /// Its cause is a network timeout.
    pub timeout: bool,
}

impl Status {
    ghost use Rattle.std.specs.Prelude.{◌≡◌};
    ghost use Rattle.mdb_pool.specs.Kept.Values.{is_ready_now, is_shut, state_in};
    ghost use Rattle.mdb_log.specs.State.{is_ready, is_new};
    ghost use Rattle.std.specs.Prelude.{if◌then◌else◌, false};

    /// A load-balanced pool is ready from the first, a normal one new.
    pub(crate) fn at_first(load_balanced: bool) -> Status
        ensures state { state_in result ≡ if load_balanced then is_ready else is_new }
        ensures open { is_shut result ≡ false }
    {
        if load_balanced {
            return Status::Ready;
        }
        Status::New
    }

    pub(crate) fn is_ready(&self) -> bool
        ensures { result ≡ is_ready_now self.now }
    {
        matches!(self, Status::Ready)
    }

    pub(crate) fn is_closed(&self) -> bool
        ensures { result ≡ is_shut self.now }
    {
        matches!(self, Status::Closed)
    }
}
