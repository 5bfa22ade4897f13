//! What the one who made a step is told.

ghost use Rattle.std.specs.Prelude.{◌≡◌};

use mdb_base::Moment;
use mdb_events::End;
use std::alloc::AllocError;

/// A number that ran out.
#[derive(Clone, Copy, Debug, PartialEq, Eq)]
pub enum What {
    Pool,
    Generation,
    Monitor,
    Servers,
}

/// Why a step was refused. The first reason that holds is told, in this order.
#[derive(Clone, Copy, Debug, PartialEq, Eq)]
pub enum Refused {
    /// The moment is before that of the last accepted step, which is carried.
    TimeBack(Moment),
    /// No pool is open at the address.
    UnknownServer,
    /// The number was used by an earlier request, warm request or taking party.
    RequestKnown,
    /// The request isn't open.
    UnknownRequest,
    /// The party holds no connection.
    NotHolder,
    /// No such connection is pending.
    NotPending,
    /// The connection has no pin.
    Unpinned,
    /// The pinned connection is held.
    PinInUse,
    /// The connection is pinned already.
    PinState,
    /// The monitor's check has no result yet.
    CheckRunning,
    /// No check runs there.
    NotChecking,
    /// The step doesn't go with the mode, normal or load balanced.
    WrongMode,
    /// A number would pass its limit.
    Exhausted(What),
}

/// What the one who made a step is told.
#[derive(Debug, Drop, PartialEq, Eq)]
pub enum Reply {
    /// The party has the connection: the numbers of its pool and its own.
    Pooled(u32, u32),
    /// The party's connection is pending: the numbers of its pool and its own.
    Establishing(u32, u32),
    /// The request is in the queue.
    Waiting,
    /// The request has ended without a connection in hand.
    Ended(End),
    /// A pending connection to establish: the numbers of its pool and its own.
    Job(u32, u32),
    /// Every pending connection is being established.
    NoJob,
    /// Whether the step changed the topology or cleared a pool.
    Changed(bool),
    Count(u64),
    /// The step was done, and there is no more to tell.
    Done,
    /// The step changed nothing.
    Refused(Refused),
}

impl Clone for Reply {
    ghost is_clone = { λ s t. t ≡ s };

    fn clone(&self) -> Result<Reply, AllocError> {
        Ok(match self {
            Reply::Pooled(pool, id) => Reply::Pooled(*pool, *id),
            Reply::Establishing(pool, id) => Reply::Establishing(*pool, *id),
            Reply::Waiting => Reply::Waiting,
            Reply::Ended(end) => Reply::Ended(end.clone()?),
            Reply::Job(pool, id) => Reply::Job(*pool, *id),
            Reply::NoJob => Reply::NoJob,
            Reply::Changed(changed) => Reply::Changed(*changed),
            Reply::Count(count) => Reply::Count(*count),
            Reply::Done => Reply::Done,
            Reply::Refused(why) => Reply::Refused(*why),
        })
    }
}
