//! The requests that a pool keeps.

ghost use Rattle.std.specs.Prelude.{◌≡◌, IfOk};

use mdb_events::End;
use mdb_slots::{Keyed, Record, Sided};
use std::alloc::AllocError;

/// How far a request is.
#[derive(Drop)]
pub enum Phase {
    /// It waits to be served.
    Queued,
    /// It was given the connection of this number.
    Given(u32),
    /// Its party has its connection no more.
    Over,
    /// It ended so.
    Ended(End),
}

/// A request for a connection.
#[derive(Drop)]
pub struct Request {
    /// Its number, which is that of its party.
    pub number: u32,
    /// It only fills the pool.
    pub warm: bool,
    /// It stands for a party that took a pinned connection, and asked for none.
    pub took: bool,
    /// When it was asked, in milliseconds.
    pub asked_at: u64,
    /// How far it is.
    pub phase: Phase,
}

impl Request {
    ghost use Rattle.mdb_pool.specs.Kept.Places.{is_done, is_queued};

    /// It waits to be served.
    pub(crate) fn is_queued(&self) -> bool
        ensures { result ≡ is_queued self.now.phase }
    {
        matches!(self.phase, Phase::Queued)
    }

    /// It is over, or has ended.
    pub(crate) fn is_done(&self) -> bool
        ensures { result ≡ is_done self.now.phase }
    {
        matches!(self.phase, Phase::Over | Phase::Ended(_))
    }

    pub(crate) fn copy(&self) -> Result<Request, AllocError>
        ensures { IfOk result (λ copy. copy ≡ self.now) }
    {
        let phase = match &self.phase {
            Phase::Queued => Phase::Queued,
            Phase::Given(id) => Phase::Given(*id),
            Phase::Over => Phase::Over,
            Phase::Ended(end) => Phase::Ended(end.clone()?),
        };
        Ok(Request {
            number: self.number,
            asked_at: self.asked_at,
            warm: self.warm,
            took: self.took,
            phase,
        })
    }
}

impl Keyed for Request {
    ghost key = { λ q. q.number };

    fn key(&self) -> u32 {
        self.number
    }
}

// The queued requests stand on the right, and the warm ones of them on the left as well.
impl Sided for Request {
    ghost use Rattle.std.specs.Prelude.{None, ◌&&◌};
    ghost use Rattle.mdb_pool.specs.Kept.Places.{is_queued};

    ghost service = { λ q. None };

    ghost since = { λ q. q.asked_at };

    ghost on_left = { λ q. is_queued q.phase && q.warm };

    ghost on_right = { λ q. is_queued q.phase };

    fn record(&self) -> Record {
        Record {
            id: self.number,
            service: None,
            since: self.asked_at,
        }
    }

    fn on_left(&self) -> bool {
        self.is_queued() && self.warm
    }

    fn on_right(&self) -> bool {
        self.is_queued()
    }
}
