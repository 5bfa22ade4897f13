//! Why the connections among the parts of a pool are closed.

ghost use Rattle.std.specs.Prelude.{◌≡◌, is_some, true};
ghost use Rattle.mdb_pool.specs.Kept.Body.{now_of};

use crate::kept::body::Body;
use crate::kept::clears::is_dropped;
use crate::kept::connection::Connection;
use mdb_base::{Moment, ObjectId};
use mdb_events::ConnectionClosedReason;

impl Body {
    ghost use Rattle.mdb_pool.specs.Kept.Values.{cleared_since, connection_at, stale_for, idle_since, perished_now, reason_now, timeouts_in, first_perished};

    // The service, or the pool as a whole where there is none, was cleared since the connection, which lives, was created.
    #[tactic(auto, using(crate::proofs::Follows::Stale::since_is))]
    fn cleared_since(&self, id: u32, service: Option<ObjectId>) -> bool
        requires { is_some (connection_at (now_of self.now) id) ≡ true }
        ensures { result ≡ cleared_since id service self.now.connections.clears }
    {
        self.connections.generation_before(id, service) != self.connections.generation(service)
    }

    // A connection of the service, which lives, would be stale.
    pub(crate) fn stale_for(&self, id: u32, service: Option<ObjectId>) -> bool
        requires { is_some (connection_at (now_of self.now) id) ≡ true }
        ensures { result ≡ stale_for (now_of self.now) id service }
    {
        let named = if self.options.load_balanced {
            service
        } else {
            None
        };
        if self.options.load_balanced && named.is_none() {
            return false;
        }
        self.cleared_since(id, named)
    }

    // It would have been available for too long.
    fn is_idle(&self, moment: Moment, since: Moment) -> bool
        ensures { result ≡ idle_since self.now.options.max_idle_time moment since }
    {
        match self.options.max_idle_time {
            None => false,
            Some(limit) => 0 < limit && limit <= moment.saturating_sub(since),
        }
    }

    // Why an available connection that is met now is closed.
    pub(crate) fn perished(
        &self,
        moment: Moment,
        connection: Connection,
    ) -> Option<ConnectionClosedReason>
        requires { is_some (connection_at (now_of self.now) connection.id) ≡ true }
        ensures { result ≡ perished_now (now_of self.now) moment connection }
    {
        if self.stale_for(connection.id, connection.service) {
            return Some(ConnectionClosedReason::Stale);
        }
        if self.is_idle(moment, connection.since) {
            return Some(ConnectionClosedReason::Idle);
        }
        None
    }

    // How many clears by a network timeout the pool had.
    pub(crate) fn timeouts(&self) -> usize
        ensures { result ≡ timeouts_in self.now.connections.clears }
    {
        self.connections.timeouts()
    }

    // Why a connection is closed when it comes back.
    pub(crate) fn reason_now(&self, connection: Connection) -> Option<ConnectionClosedReason>
        requires { is_some (connection_at (now_of self.now) connection.id) ≡ true }
        ensures { result ≡ reason_now (now_of self.now) connection }
    {
        if self.status.get().is_closed() {
            return Some(ConnectionClosedReason::PoolClosed);
        }
        if connection.errored {
            return Some(ConnectionClosedReason::Error);
        }
        if self.stale_for(connection.id, connection.service) {
            return Some(ConnectionClosedReason::Stale);
        }
        if is_dropped(connection.used) {
            return Some(ConnectionClosedReason::Dropped);
        }
        None
    }

    // The available connection that came back first among those that have perished.
    pub(crate) fn first_perished(&self, moment: Moment) -> Option<Connection>
        ensures { result ≡ first_perished (now_of self.now) moment }
    {
        let mut next = self.connections.first_left();
        while let Some(x) = next {
            if self.perished(moment, *x).is_some() {
                return Some(*x);
            }
            next = self.connections.next_left(x.id);
        }
        None
    }
}
