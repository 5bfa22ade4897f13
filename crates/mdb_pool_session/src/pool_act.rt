//! What a pool that stands alone does.

ghost use Rattle.std.specs.Prelude.{◌≡◌, IfOk};
ghost use Rattle.mdb_pool_session.specs.PoolActs.{act_of};

use mdb_base::{Error, ObjectId, OutOfMemory, ServerAddress};
use mdb_events::Boxed;
use mdb_log::{Act, Established, FailedAt, Use};

/// What a step of a pool that stands alone does. Numbers are those of parties and connections, in this order.
#[derive(Debug, Drop)]
pub enum PoolAct {
    /// A caller, by its number, asks for a connection (CMAP, "Checking Out a Connection").
    Request(u32),
    /// A request, by its number, that only fills the pool (CMAP, "minPoolSize").
    Warm(u32),
    /// The caller of a request asks how it stands.
    Collect(u32),
    /// A worker asks for a connection to establish.
    Claim,
    /// The caller of a request no longer wants its connection.
    GiveUp(u32),
    /// A pending connection was established (CMAP, "Establishing a Connection").
    Established(u32, Established),
    /// A pending connection failed.
    Failed(u32, FailedAt, Boxed<Error>),
    /// A party returns its connection (CMAP, "Checking In a Connection").
    Return(u32, Use),
    /// A party pins its connection.
    Pin(u32),
    /// One more pin of a pinned connection.
    Replicate(u32),
    /// A new party takes a pinned connection.
    Take(u32, u32),
    /// One pin less.
    Unpin(u32),
    /// Stale and idle connections are closed (CMAP, "Background Thread").
    Maintain,
    /// The callers that waited too long end (CMAP, "waitQueueTimeoutMS").
    Expire,
    /// The pool may be used (CMAP, "Marking a Connection Pool as Ready").
    Ready,
    /// The connections of the pool, or those of a service of it, become stale (CMAP, "Clearing a Connection Pool").
    Clear(Option<ObjectId>, Boxed<Error>),
    /// The pool is closed for good (CMAP, "Closing a Connection Pool").
    Close,
}

/// The act of the pool of this number at the address.
pub(crate) fn act_of(pool: u32, address: &ServerAddress, act: PoolAct) -> Result<Act, OutOfMemory>
    ensures { IfOk result (λ told. told ≡ act_of pool address.now act) }
{
    Ok(match act {
        PoolAct::Request(party) => Act::Request(party, address.clone()?),
        PoolAct::Warm(party) => Act::Warm(party, address.clone()?),
        PoolAct::Collect(party) => Act::Collect(party),
        PoolAct::Claim => Act::Claim,
        PoolAct::GiveUp(party) => Act::GiveUp(party),
        PoolAct::Established(id, made) => Act::Established(pool, id, made),
        PoolAct::Failed(id, at, error) => Act::Failed(pool, id, at, error),
        PoolAct::Return(party, used) => Act::Return(party, used),
        PoolAct::Pin(party) => Act::Pin(party),
        PoolAct::Replicate(id) => Act::Replicate(pool, id),
        PoolAct::Take(party, id) => Act::Take(party, pool, id),
        PoolAct::Unpin(id) => Act::Unpin(pool, id),
        PoolAct::Maintain => Act::Maintain(address.clone()?),
        PoolAct::Expire => Act::Expire(address.clone()?),
        PoolAct::Ready => Act::Ready(pool),
        PoolAct::Clear(service, error) => Act::Clear(pool, service, error),
        PoolAct::Close => Act::Close(pool),
    })
}
