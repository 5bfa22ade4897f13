//! What a pool with these parts answers to its getters.
#![tactic(auto, unfolding(crate::specs::Now::queries))]

ghost use Rattle.std.specs.Prelude.{◌≡◌, is_some, nat_lt, true, false, if◌then◌else◌, Some, None};
ghost use Rattle.mdb_log.specs.Connections.{has};
ghost use Rattle.mdb_pool.specs.Kept.Body.{now_of};

use crate::kept::body::Body;
use crate::kept::request::Phase;
use mdb_base::ObjectId;

impl Body {
    ghost use Rattle.mdb_pool.specs.Kept.Values.{held_connection, request_at, connection_at, is_pending_at, is_held_at, is_ended_at, pins_at, clears_for};
    ghost use Rattle.mdb_pool.specs.Now.{clears_before_now, exhausted_now, held_now, is_live_now, is_open_now, is_spent, wire_now};
    ghost use Rattle.mdb_pool.specs.Refusing.{can_tell};

    // The party asked this pool, or took a pinned connection of it.
    pub(crate) fn knows(&self, party: u32) -> bool
        requires { can_tell (now_of self.now) party ≡ true }
        ensures { result ≡ is_some (request_at (now_of self.now) party) }
    {
        self.requests.knows(party)
    }

    // It is closed, has no connection, and each of its requests has left.
    pub(crate) fn is_spent(&self) -> bool
        ensures { result ≡ is_spent (now_of self.now) }
    {
        self.status.get().is_closed() && self.connections.len() == 0 && self.requests.len() == 0
    }

    // The connection that the party holds.
    pub(crate) fn held_by(&self, party: u32) -> Option<u32>
        ensures { result ≡ held_now (now_of self.now) party }
    {
        match self.held_connection(party) {
            Some(connection) => Some(connection.id),
            None => None,
        }
    }

    // The party holds a connection of this pool.
    pub(crate) fn holds(&self, party: u32) -> bool
        ensures { result ≡ is_some (held_connection (now_of self.now) party) }
    {
        self.held_connection(party).is_some()
    }

    // The request was made at this pool, its outcome was not told yet, and its caller neither gave up nor returned the connection.
    pub(crate) fn is_open(&self, request: u32) -> bool
        ensures { result ≡ is_open_now (now_of self.now) request }
    {
        self.requests.is_open(request)
    }

    // The request, which is not settled, ended in another way.
    #[tactic(auto, using(crate::proofs::KeptInLittle::AskedOfThoseThatStay::unsettled_kept), unfolding(crate::specs::Now::queries))]
    pub(crate) fn is_ended(&self, request: u32) -> bool
        requires { has request self.now.requests.settled ≡ false }
        ensures { result ≡ is_ended_at (request_at (now_of self.now) request) }
    {
        match self.requests.get(request) {
            Some(request) => matches!(request.phase, Phase::Ended(_)),
            None => false,
        }
    }

    // The connection isn't established yet.
    pub(crate) fn is_pending(&self, id: u32) -> bool
        ensures { result ≡ is_pending_at (connection_at (now_of self.now) id) }
    {
        match self.connections.get(id) {
            Some(connection) => connection.is_pending(),
            None => false,
        }
    }

    // The connection is one of this pool, and a party has it since it was established.
    pub(crate) fn is_held(&self, id: u32) -> bool
        ensures { result ≡ is_held_at (connection_at (now_of self.now) id) }
    {
        match self.connections.get(id) {
            Some(connection) => connection.is_held(),
            None => false,
        }
    }

    // The connection is one of this pool and has a pin.
    pub(crate) fn has_pin(&self, id: u32) -> bool
        ensures { result ≡ nat_lt 0 (pins_at (connection_at (now_of self.now) id)) }
    {
        match self.connections.get(id) {
            Some(connection) => 0 < connection.pins,
            None => false,
        }
    }

    // The wire version that the connection was established with.
    pub(crate) fn wire_version(&self, id: u32) -> Option<i32>
        ensures { result ≡ wire_now (now_of self.now) id }
    {
        match self.connections.get(id) {
            Some(connection) => connection.wire,
            None => None,
        }
    }

    // How often the pool was cleared so before the connection was created, `None` where the connection isn't live.
    pub(crate) fn generation_before(&self, id: u32, service: Option<ObjectId>) -> Option<u64>
        ensures { result ≡ if is_live_now (now_of self.now) id then Some (clears_before_now (now_of self.now) id service) else None }
    {
        if self.connections.get(id).is_none() {
            return None;
        }
        Some(self.connections.generation_before(id, service))
    }

    // How often the pool was cleared: for the service, or as a whole where there is none.
    pub(crate) fn generation(&self, service: Option<ObjectId>) -> u64
        ensures { result ≡ clears_for service self.now.connections.clears }
    {
        self.connections.generation(service)
    }

    // One more clear would pass the limit of the generation.
    pub(crate) fn is_exhausted(&self, service: Option<ObjectId>) -> bool
        ensures { result ≡ exhausted_now (now_of self.now) service }
    {
        !self.status.get().is_closed() && self.options.limit_generation <= self.generation(service)
    }
}
