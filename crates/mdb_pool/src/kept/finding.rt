//! What the parts of a pool have among their connections and requests.

ghost use Rattle.std.specs.Prelude.{◌≡◌, ◌&&◌, not, nat_lt, option_copied, IfOk, false};
ghost use Rattle.mdb_log.specs.Connections.{has};
ghost use Rattle.mdb_pool.specs.Kept.Body.{now_of};

use crate::Reply;
use crate::kept::body::Body;
use crate::kept::connection::Connection;
use crate::kept::request::{Phase, Request};
use mdb_base::{Moment, OutOfMemory};
use mdb_log::{DEFAULT_MAX_CONNECTING, DEFAULT_MAX_POOL_SIZE};

impl Body {
    ghost use Rattle.mdb_log.specs.State.{max_connecting};
    ghost use Rattle.mdb_pool.specs.Kept.Values.{wants_now, blocked_now, first_caller, candidate_now, fills_now, first_overdue, overdue_since, first_queued, last_available, pending_count, has_room, given_in, held_given, held_connection, pending_connection, kept_holder, outcome_now, first_unclaimed};

    pub(crate) fn first_queued(&self) -> Option<&Request>
        ensures { option_copied result ≡ first_queued (now_of self.now) }
    {
        self.requests.first_right()
    }

    #[tactic(auto, using(crate::proofs::Listed::Beside::last_there))]
    pub(crate) fn last_available(&self) -> Option<Connection>
        ensures { result ≡ last_available (now_of self.now) }
    {
        self.connections.last_left().copied()
    }

    pub(crate) fn pending_count(&self) -> usize
        ensures { result ≡ pending_count (now_of self.now) }
    {
        self.connections.pending_count()
    }

    // Warm requests are to get connections: too few are live, and neither the maximum nor the ids stand against one more.
    pub(crate) fn wants_connection(&self) -> bool
        ensures { result ≡ wants_now (now_of self.now) }
    {
        let live = self.connections.len();
        live < self.options.min_pool_size.unwrap_or(0) as usize
            && live < self.options.max_pool_size.unwrap_or(DEFAULT_MAX_POOL_SIZE) as usize
            && self.connections.created() < self.options.limit_id
    }

    // One more connection may be pending.
    pub(crate) fn may_connect(&self) -> bool
        ensures { result ≡ nat_lt (pending_count (now_of self.now)) (max_connecting self.now.options) }
    {
        let most = self
            .options
            .max_connecting
            .unwrap_or(DEFAULT_MAX_CONNECTING);
        self.pending_count() < most as usize
    }

    // A connection may be created for a caller.
    pub(crate) fn has_room(&self) -> bool
        ensures { result ≡ has_room (now_of self.now) }
    {
        self.connections.created() < self.options.limit_id
            && self.connections.len()
                < self.options.max_pool_size.unwrap_or(DEFAULT_MAX_POOL_SIZE) as usize
            && self.may_connect()
    }

    // Nothing but the number of pending connections hinders warm requests.
    pub(crate) fn is_blocked(&self) -> bool
        ensures { result ≡ blocked_now (now_of self.now) }
    {
        self.wants_connection() && !self.may_connect()
    }

    // The first of the queued callers. Warm requests that are queued before it are passed by.
    pub(crate) fn first_caller(&self) -> Option<&Request>
        ensures { option_copied result ≡ first_caller (now_of self.now) }
    {
        if self.requests.warm_count() == self.requests.queued_count() {
            return None;
        }
        let mut next = self.requests.first_right();
        while let Some(q) = next {
            if !q.warm {
                return Some(q);
            }
            next = self.requests.next_right(q.number);
        }
        None
    }

    // The first of the queued requests that is no blocked warm one.
    #[tactic(auto, using(crate::proofs::Listed::Beside::candidate_blocked, crate::proofs::Listed::Beside::candidate_free))]
    pub(crate) fn candidate(&self) -> Option<&Request>
        ensures { option_copied result ≡ candidate_now (now_of self.now) }
    {
        if self.is_blocked() {
            return self.first_caller();
        }
        self.requests.first_right()
    }

    // Maintenance may create a connection.
    pub(crate) fn wants_filling(&self) -> bool
        ensures { result ≡ fills_now (now_of self.now) }
    {
        self.status.get().is_ready()
            && self.connections.len() < self.options.min_pool_size.unwrap_or(0) as usize
            && self.may_connect()
            && self.connections.created() < self.options.limit_id
    }

    // The connection of the request, where a party holds it.
    pub(crate) fn held_for(&self, request: &Request) -> Option<&Connection>
        ensures { option_copied result ≡ held_given (now_of self.now) (given_in request.now.phase) }
    {
        match &request.phase {
            Phase::Given(id) => match self.connections.get(*id) {
                Some(connection) if connection.is_held() => Some(connection),
                _ => None,
            },
            _ => None,
        }
    }

    // The connection that the party holds.
    #[tactic(auto, using(crate::proofs::KeptInLittle::AskedOfThoseThatStay::given_kept))]
    pub(crate) fn held_connection(&self, party: u32) -> Option<&Connection>
        ensures { option_copied result ≡ held_connection (now_of self.now) party }
    {
        match self.requests.get(party) {
            Some(request) => self.held_for(request),
            None => None,
        }
    }

    // The pending connection that the party is given.
    #[tactic(auto, using(crate::proofs::KeptInLittle::AskedOfThoseThatStay::given_kept))]
    pub(crate) fn pending_connection(&self, party: u32) -> Option<Connection>
        ensures { result ≡ pending_connection (now_of self.now) party }
    {
        match self.requests.get(party) {
            Some(request) => match request.phase {
                Phase::Given(id) => match self.connections.get(id) {
                    Some(connection) if connection.is_pending() => Some(*connection),
                    _ => None,
                },
                _ => None,
            },
            None => None,
        }
    }

    // The request that will have the connection, where it has not left.
    pub(crate) fn holder_request(&self, connection: Connection) -> Option<&Request>
        ensures { option_copied result ≡ kept_holder (now_of self.now) connection }
    {
        match connection.holder {
            Some(holder) => self.requests.get(holder),
            None => None,
        }
    }

    // The pending connection that came first among those that no claim was told of.
    pub(crate) fn first_unclaimed(&self) -> Option<Connection>
        ensures { result ≡ first_unclaimed (now_of self.now) }
    {
        self.connections.first_unclaimed().copied()
    }

    // It is a caller that has waited for too long, if it waits.
    fn is_overdue(&self, moment: Moment, request: &Request) -> bool
        ensures { result ≡ (not request.now.warm && overdue_since self.now.options.max_wait moment request.now.asked_at) }
    {
        if request.warm {
            return false;
        }
        match self.options.max_wait {
            None => false,
            Some(limit) => 0 < limit && limit <= moment.saturating_sub(request.asked_at),
        }
    }

    // The first of the queued callers that have waited for too long.
    pub(crate) fn first_overdue(&self, moment: Moment) -> Option<&Request>
        ensures { option_copied result ≡ first_overdue (now_of self.now) moment }
    {
        let mut next = self.requests.first_right();
        while let Some(q) = next {
            if self.is_overdue(moment, q) {
                return Some(q);
            }
            next = self.requests.next_right(q.number);
        }
        None
    }

    // What the request is told, which is not settled.
    #[tactic(auto, using(crate::proofs::KeptInLittle::AskedOfThoseThatStay::unsettled_kept))]
    pub(crate) fn outcome(&self, request: u32) -> Result<Reply, OutOfMemory>
        requires { has request self.now.requests.settled ≡ false }
        ensures { IfOk result (λ reply. reply ≡ outcome_now (now_of self.now) request) }
    {
        Ok(match self.requests.get(request) {
            Some(request) => match &request.phase {
                Phase::Given(id) => match self.connections.get(*id) {
                    Some(connection) if connection.is_pending() => {
                        Reply::Establishing(self.pool, *id)
                    }
                    _ => Reply::Pooled(self.pool, *id),
                },
                Phase::Ended(end) => Reply::Ended(end.clone()?),
                _ => Reply::Waiting,
            },
            None => Reply::Waiting,
        })
    }
}
