//! The generations of pools and of their connections (CMAP, "Generation").

ghost use Rattle.std.specs.Prelude.{◌≡◌};
ghost use Rattle.mdb_log.specs.Generations.{generation_in, is_behind, service_named};

use mdb_base::{Items, ObjectId};

/// How often a pool was cleared: as a whole, or for each service that was, in the order of their ids. A service that isn't listed was not cleared.
#[derive(Debug, Drop)]
pub enum PoolGeneration {
    Normal(u64),
    LoadBalanced(Items<(ObjectId, u64)>),
}

/// The generation of a pool, beside the number of the pool.
#[derive(Debug, Drop)]
pub struct PoolStamp {
    pub pool: u32,
    pub generation: PoolGeneration,
}

/// How often the service of a connection was cleared before the connection was created.
#[derive(Clone, Copy, Debug, PartialEq, Eq)]
pub struct LoadBalancedGeneration {
    pub generation: u64,
    pub service_id: ObjectId,
}

/// The generation that a connection carries: that of its pool, or of its service, which is unknown until the server names it.
#[derive(Clone, Copy, Debug, PartialEq, Eq)]
pub enum ConnectionGeneration {
    Normal(u64),
    LoadBalanced(Option<LoadBalancedGeneration>),
}

fn generation_in(generations: &[(ObjectId, u64)], service: ObjectId) -> u64
    ensures { result ≡ generation_in service generations.now }
{
    for generation in generations {
        if generation.0 == service {
            return generation.1;
        }
    }
    0
}

impl ConnectionGeneration {
    /// The service of the connection, `None` in a normal pool.
    pub fn service_id(&self) -> Option<ObjectId>
        ensures { result ≡ service_named self.now }
    {
        match self {
            ConnectionGeneration::Normal(_) => None,
            ConnectionGeneration::LoadBalanced(None) => None,
            ConnectionGeneration::LoadBalanced(Some(own)) => Some(own.service_id),
        }
    }

    /// The pool, or the service of the connection, was cleared since (CMAP, "Stale connections"). Never so where the modes differ.
    pub fn is_stale(&self, current: &PoolGeneration) -> bool
        ensures { result ≡ is_behind self.now current.now }
    {
        match (self, current) {
            (ConnectionGeneration::Normal(own), PoolGeneration::Normal(now)) => *own != *now,
            (
                ConnectionGeneration::LoadBalanced(Some(own)),
                PoolGeneration::LoadBalanced(services),
            ) => own.generation != generation_in(services.as_slice(), own.service_id),
            _ => false,
        }
    }
}

impl From<LoadBalancedGeneration> for ConnectionGeneration {
    ghost use Rattle.std.specs.Prelude.{Some};
    ghost use Rattle.mdb_log.specs.declared.generation.ConnectionGeneration.TheVariants.{LoadBalanced};

    ghost from_gives = { λ own x. x ≡ LoadBalanced (Some own) };

    fn from(own: LoadBalancedGeneration) -> ConnectionGeneration {
        ConnectionGeneration::LoadBalanced(Some(own))
    }
}
