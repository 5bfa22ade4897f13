//! The clears of a pool, and why its connections are closed.
#![tactic(auto, unfolding(crate::specs::Now::queries))]

ghost use Rattle.std.specs.Prelude.{◌≡◌};
ghost use Rattle.mdb_log.specs.History.{same_service};
ghost use Rattle.mdb_pool.specs.Kept.Values.{used_as};
ghost use Rattle.mdb_log.specs.Connections.{is_dropped};

use crate::kept::connection::Connection;
use crate::pool_core::PoolCore;
use crate::{ConnectionGeneration, LoadBalancedGeneration, Use};
use mdb_base::ObjectId;

pub(crate) fn same_service(a: Option<ObjectId>, b: Option<ObjectId>) -> bool
    ensures { result ≡ same_service a b }
{
    match (a, b) {
        (None, None) => true,
        (Some(a), Some(b)) => a == b,
        _ => false,
    }
}

// A connection is closed that was used so last.
pub(crate) fn is_dropped(used: Use) -> bool
    ensures { result ≡ is_dropped used }
{
    matches!(used, Use::Dropped | Use::Streaming)
}

// The connection with one more use.
pub(crate) fn used_as(connection: Connection, used: Use) -> Connection
    ensures { result ≡ used_as connection used }
{
    Connection {
        errored: matches!(used, Use::Errored) || connection.errored,
        used,
        ..connection
    }
}

impl PoolCore {
    ghost use Rattle.std.specs.Prelude.{true, if◌then◌else◌, Some, None, List};
    ghost use Rattle.mdb_pool.specs.Kept.Values.{connection_at, interrupted_at};
    ghost use Rattle.mdb_pool.specs.Now.{clears_before_now, generation_now, is_live_now};
    ghost use Rattle.mdb_log.specs.Generations.{carried};
    ghost use Rattle.mdb_pool.specs.Standing.{Fits};
    ghost use Rattle.mdb_log.specs.History.{PoolItem};
    ghost use Rattle.mdb_log.specs.Connections.{is_live, known_service};
    ghost use Rattle.mdb_log.specs.State.{generation_of, generation_before, is_interrupted};

    /// How often the pool was cleared: for the service, or as a whole where there is none (CMAP, "Generation").
    pub fn generation(&self, service: Option<ObjectId>) -> u64
        ensures { (xs : List PoolItem) → Fits self.now xs → result ≡ generation_of xs service }
    {
        self.draft.body.generation(service)
    }

    /// How often it was cleared so before the connection was created, `None` where the connection isn't live.
    pub fn generation_before(&self, id: u32, service: Option<ObjectId>) -> Option<u64>
        ensures { (xs : List PoolItem) → Fits self.now xs → result ≡ if is_live xs id then Some (generation_before xs id service) else None }
    {
        self.draft.body.generation_before(id, service)
    }

    // The generation that a connection of the service carries, which lives.
    fn carried(&self, id: u32, service: Option<ObjectId>) -> ConnectionGeneration
        requires { is_live_now self.now id ≡ true }
        ensures { result ≡ carried self.now.options.load_balanced (clears_before_now self.now id) service }
    {
        let connections = &self.draft.body.connections;
        if !self.draft.body.options.load_balanced {
            return ConnectionGeneration::Normal(connections.generation_before(id, None));
        }
        let Some(service_id) = service else {
            return ConnectionGeneration::LoadBalanced(None);
        };
        ConnectionGeneration::LoadBalanced(Some(LoadBalancedGeneration {
            generation: connections.generation_before(id, service),
            service_id,
        }))
    }

    // The generation that the connection carries, `None` where it isn't live.
    fn carries(&self, id: u32) -> Option<ConnectionGeneration>
        ensures { result ≡ generation_now self.now id }
    {
        match self.draft.body.connections.get(id) {
            Some(connection) => Some(self.carried(id, connection.service)),
            None => None,
        }
    }

    /// The generation that the connection carries (CMAP, "Generation"), `None` where it isn't live.
    pub fn connection_generation(&self, id: u32) -> Option<ConnectionGeneration>
        ensures { (xs : List PoolItem) → Fits self.now xs → result ≡ if is_live xs id then Some (carried self.now.options.load_balanced (generation_before xs id) (known_service xs id)) else None }
    {
        self.carries(id)
    }

    // The connection is interrupted, by what is kept of it.
    fn interrupts(&self, id: u32) -> bool
        ensures { result ≡ interrupted_at self.now (connection_at self.now id) }
    {
        match self.draft.body.connections.get(id) {
            Some(connection) => {
                !self.draft.body.options.load_balanced
                    && connection.is_held()
                    && connection.pins == 0
                    && connection.timeouts < self.draft.body.timeouts()
            }
            None => false,
        }
    }

    /// An operation under way on the connection is to stop (CMAP, "Interrupting pending connections"): in a normal pool, a party has it, no pin
    /// stands, and a clear by a network timeout came after the last of its grant, take and unpin.
    pub fn is_interrupted(&self, id: u32) -> bool
        ensures { (xs : List PoolItem) → Fits self.now xs → result ≡ is_interrupted self.now.options xs id }
    {
        self.interrupts(id)
    }
}
