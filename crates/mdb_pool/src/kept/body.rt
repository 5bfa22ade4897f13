//! The parts of a pool, each of which is changed in place and can be set back.

ghost use Rattle.std.specs.Prelude.{◌≡◌};
ghost use Rattle.mdb_pool.specs.Core.{SameKept};
ghost use Rattle.mdb_pool.specs.Kept.Body.{now_of, inner_of, pool_of, led, PoolFits};

use crate::PoolOptions;
use crate::kept::connections::{Connections, ConnectionsRedo};
use crate::kept::requests::{Requests, RequestsRedo};
use crate::kept::status::Status;
use mdb_base::{Moment, ServerAddress};
use mdb_slots::UndoCell;
use std::alloc::Global;
use std::marker::Model;

/// The parts of a pool.
#[derive(Drop)]
pub struct Body {
    /// The pool's number.
    pub pool: u32,
    /// The address of its server.
    pub address: ServerAddress,
    /// Its limits.
    pub options: PoolOptions,
    /// The moment of its last accepted step.
    pub last: UndoCell<Moment>,
    /// Its connections by id, with how many were created, which were claimed, and its clears.
    pub connections: Connections,
    /// Its requests by number, as far as they still count.
    pub requests: Requests,
    /// Whether it may be used.
    pub status: UndoCell<Status>,
}

/// Changes of a pool that were taken back, to be made again.
#[derive(Drop)]
pub struct BodyRedo {
    last: Option<Moment>,
    connections: ConnectionsRedo,
    requests: RequestsRedo,
    status: Option<Status>,
}

impl Model for BodyRedo {
    ghost use Rattle.mdb_pool.specs.Core.{SameKept};
    ghost use Rattle.mdb_pool.specs.Kept.Body.{PoolSteps};

    ghost Value = { PoolSteps };

    ghost view = { λ t. record { last = t.last; created = t.connections.created; connections = t.connections.live; requests = t.requests; status = t.status; clears = t.connections.clears; claimed = t.connections.claimed } };
}

impl Body {
    /// The changes go, and what comes back makes them again. It takes no memory.
    #[tactic(auto, unfolding(crate::specs::Core::SameKept))]
    pub(crate) fn undo(&mut self, alloc: Global) -> BodyRedo
        ensures now { now_of self.new ≡ pool_of (inner_of self.new) }
        ensures inner { inner_of self.new ≡ inner_of self.old }
        ensures fits { PoolFits result (inner_of self.new) }
        ensures leads { SameKept (now_of self.old) (led result (now_of self.new)) }
    {
        BodyRedo {
            last: self.last.undo(),
            connections: self.connections.undo(alloc),
            requests: self.requests.undo(alloc),
            status: self.status.undo(),
        }
    }

    /// The changes stay.
    #[tactic(auto, unfolding(crate::specs::Core::SameKept))]
    pub(crate) fn commit(&mut self)
        ensures now { now_of self.new ≡ pool_of (inner_of self.new) }
        ensures same { SameKept (now_of self.old) (now_of self.new) }
    {
        self.last.commit();
        self.connections.commit();
        self.requests.commit();
        self.status.commit();
    }

    /// Whatever was changed goes, and the changes are made again and stay. It takes no memory.
    pub(crate) fn redo(&mut self, redo: BodyRedo)
        requires { PoolFits redo (inner_of self.old) }
        ensures now { now_of self.new ≡ led redo (now_of self.old) }
    {
        let BodyRedo {
            last,
            connections,
            requests,
            status,
        } = redo;
        self.last.redo(last);
        self.connections.redo(connections);
        self.requests.redo(requests);
        self.status.redo(status);
    }
}
