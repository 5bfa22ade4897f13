//! The steps that a driver and its pools take.

ghost use Rattle.std.specs.Prelude.{◌≡◌};

use super::{BeatenResult, HelloResult};
use mdb_base::{ClusterTime, Error, Items, Moment, Nanos, ObjectId, Options, ServerAddress};
use mdb_events::Boxed;
use std::alloc::AllocError;

/// What establishing a connection found out.
#[derive(Clone, Copy, Debug, PartialEq, Eq)]
pub struct Established {
    /// The greatest wire version of the server.
    pub wire: i32,
    /// The service behind the load balancer.
    pub service_id: Option<ObjectId>,
    /// The server's own number of the connection.
    pub server_id: Option<i64>,
}

/// Whether establishing failed before the server's hello, or after it with the service that it named.
#[derive(Clone, Copy, Debug, PartialEq, Eq)]
pub enum FailedAt {
    Pre,
    Post(Option<ObjectId>),
}

impl FailedAt {
    ghost use Rattle.mdb_log.specs.History.{service_in};

    /// The service that the server named before the connection failed.
    pub fn service_id(&self) -> Option<ObjectId>
        ensures { result ≡ service_in self.now }
    {
        match *self {
            FailedAt::Pre => None,
            FailedAt::Post(service) => service,
        }
    }
}

/// How a connection was used by the party that returns it.
#[derive(Clone, Copy, Debug, PartialEq, Eq)]
pub enum Use {
    Ok,
    Errored,
    /// The party was dropped in the middle of an operation.
    Dropped,
    /// More replies of the server were to come.
    Streaming,
}

/// What a step does. Numbers are those of parties, pools and connections, in this order unless it is said otherwise.
#[derive(Debug, Drop)]
pub enum Act {
    /// The driver is opened.
    Open(Boxed<Options>),
    /// A caller, by its number, asks for a connection to the address.
    Request(u32, ServerAddress),
    /// A request, by its number, that only fills the pool.
    Warm(u32, ServerAddress),
    /// The caller of a request asks how it stands.
    Collect(u32),
    /// A worker asks for a connection to establish.
    Claim,
    /// The caller of a request no longer wants its connection.
    GiveUp(u32),
    /// A pending connection was established.
    Established(u32, u32, Established),
    /// A pending connection failed.
    Failed(u32, u32, FailedAt, Boxed<Error>),
    /// A party returns its connection.
    Return(u32, Use),
    /// A party pins its connection.
    Pin(u32),
    /// One more pin of a pinned connection.
    Replicate(u32, u32),
    /// A new party takes a pinned connection.
    Take(u32, u32, u32),
    /// One pin less.
    Unpin(u32, u32),
    /// An operation of a party met an error on its connection.
    Error(u32, Boxed<Error>),
    /// What the hello of a monitor at the address came to, beside the number of the pool that it was begun for.
    Hello(ServerAddress, u32, HelloResult),
    /// The monitor of the address begins a check, beside the number of the pool.
    Beat(ServerAddress, u32),
    /// The check of the address ended after this time, beside the number of the pool.
    Beaten(ServerAddress, u32, Nanos, BeatenResult),
    /// A round trip to the address was measured, beside the number of the pool.
    Rtt(ServerAddress, u32, Nanos),
    /// The hosts that SRV records name now.
    Hosts(Items<ServerAddress>),
    /// A reply told this time of the cluster.
    ClusterTime(ClusterTime),
    /// A watcher, by its number, wants the servers checked at once.
    Want(u32),
    /// A watcher no longer wants it.
    Unwant(u32),
    /// The driver is stopped.
    Stop,
    /// The pool of the address is maintained.
    Maintain(ServerAddress),
    /// The callers of the address's pool that waited too long end.
    Expire(ServerAddress),
    /// A pool may be used.
    Ready(u32),
    /// The connections of a pool, or those of a service of it, become stale.
    Clear(u32, Option<ObjectId>, Boxed<Error>),
    /// A pool is closed for good.
    Close(u32),
}

impl Clone for Act {
    ghost is_clone = { λ s t. t ≡ s };

    fn clone(&self) -> Result<Act, AllocError> {
        Ok(match self {
            Act::Open(options) => Act::Open(options.clone()?),
            Act::Request(request, address) => Act::Request(*request, address.clone()?),
            Act::Warm(request, address) => Act::Warm(*request, address.clone()?),
            Act::Collect(request) => Act::Collect(*request),
            Act::Claim => Act::Claim,
            Act::GiveUp(request) => Act::GiveUp(*request),
            Act::Established(pool, id, made) => Act::Established(*pool, *id, *made),
            Act::Failed(pool, id, at, error) => Act::Failed(*pool, *id, *at, error.clone()?),
            Act::Return(party, used) => Act::Return(*party, *used),
            Act::Pin(party) => Act::Pin(*party),
            Act::Replicate(pool, id) => Act::Replicate(*pool, *id),
            Act::Take(party, pool, id) => Act::Take(*party, *pool, *id),
            Act::Unpin(pool, id) => Act::Unpin(*pool, *id),
            Act::Error(party, error) => Act::Error(*party, error.clone()?),
            Act::Hello(address, pool, came) => {
                let address = address.clone()?;
                Act::Hello(address, *pool, came.clone()?)
            }
            Act::Beat(address, pool) => Act::Beat(address.clone()?, *pool),
            Act::Beaten(address, pool, duration, came) => {
                let address = address.clone()?;
                Act::Beaten(address, *pool, *duration, came.clone()?)
            }
            Act::Rtt(address, pool, sample) => Act::Rtt(address.clone()?, *pool, *sample),
            Act::Hosts(hosts) => Act::Hosts(hosts.clone()?),
            Act::ClusterTime(time) => Act::ClusterTime(*time),
            Act::Want(watcher) => Act::Want(*watcher),
            Act::Unwant(watcher) => Act::Unwant(*watcher),
            Act::Stop => Act::Stop,
            Act::Maintain(address) => Act::Maintain(address.clone()?),
            Act::Expire(address) => Act::Expire(address.clone()?),
            Act::Ready(pool) => Act::Ready(*pool),
            Act::Clear(pool, service, error) => Act::Clear(*pool, *service, error.clone()?),
            Act::Close(pool) => Act::Close(*pool),
        })
    }
}

/// One atomic step.
#[derive(Debug, Drop)]
pub struct Step {
    pub moment: Moment,
    pub act: Act,
}

impl Clone for Step {
    ghost is_clone = { λ s t. t ≡ s };

    fn clone(&self) -> Result<Step, AllocError> {
        let act = self.act.clone()?;
        Ok(Step {
            moment: self.moment,
            act,
        })
    }
}
