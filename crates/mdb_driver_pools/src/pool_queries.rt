//! What a pool says of itself now, asked of it. A driver searches its pools by it, and a pool stands for some history, for which its getters tell.

ghost use Rattle.std.specs.Prelude.{◌≡◌, if◌then◌else◌, Some, None, true};
ghost use Rattle.mdb_log.specs.Acts.{IsPoolAct};
ghost use Rattle.mdb_pool.specs.Now.{clears_before_now, clears_now, generation_now, has_job_now, held_now, holds_now, is_closed_now, is_live_now, is_open_now, wire_now};
ghost use Rattle.mdb_pool.specs.Refusing.{refusal_now, tells_new};

use mdb_base::ObjectId;
use mdb_log::{ConnectionGeneration, Refused, Step};
use mdb_pool::{PoolCore, PoolState};

/// The pool is closed for good.
pub fn is_closed(pool: &PoolCore) -> bool
    ensures { result ≡ is_closed_now pool.now }
{
    pool.stands();
    matches!(pool.state(), PoolState::Closed)
}

/// The request was made at the pool, its outcome was not told yet, and its caller neither gave up nor returned the connection.
pub fn is_open(pool: &PoolCore, request: u32) -> bool
    ensures { result ≡ is_open_now pool.now request }
{
    pool.stands();
    pool.is_open(request)
}

/// The connection of the pool that the party holds.
pub fn held_by(pool: &PoolCore, party: u32) -> Option<u32>
    ensures { result ≡ held_now pool.now party }
{
    pool.stands();
    pool.held_by(party)
}

/// The party holds a connection of the pool.
pub fn holds(pool: &PoolCore, party: u32) -> bool
    ensures { result ≡ holds_now pool.now party }
{
    pool.stands();
    pool.holds(party)
}

/// Some pending connection of the pool was told by no claim.
pub fn has_job(pool: &PoolCore) -> bool
    ensures { result ≡ has_job_now pool.now }
{
    pool.stands();
    pool.has_job()
}

/// The wire version that the connection was established with, `None` where it was not, or isn't live.
pub fn wire_version(pool: &PoolCore, id: u32) -> Option<i32>
    ensures { result ≡ wire_now pool.now id }
{
    pool.stands();
    pool.wire_version(id)
}

/// How often the pool was cleared: for the service, or as a whole where there is none (CMAP, "Generation").
pub fn generation(pool: &PoolCore, service: Option<ObjectId>) -> u64
    ensures { result ≡ clears_now pool.now service }
{
    pool.stands();
    pool.generation(service)
}

/// How often it was cleared so before the connection was created, `None` where the connection isn't live.
pub fn generation_before(pool: &PoolCore, id: u32, service: Option<ObjectId>) -> Option<u64>
    ensures { result ≡ if is_live_now pool.now id then Some (clears_before_now pool.now id service) else None }
{
    pool.stands();
    pool.generation_before(id, service)
}

/// The generation that the connection carries (CMAP, "Generation"), `None` where it isn't live.
pub fn connection_generation(pool: &PoolCore, id: u32) -> Option<ConnectionGeneration>
    ensures { result ≡ generation_now pool.now id }
{
    pool.stands();
    pool.connection_generation(id)
}

/// Why the pool, to which each party is new that the step names for the first time, refuses the step, `None` where it accepts it.
pub fn refusal_now(pool: &PoolCore, step: &Step) -> Option<Refused>
    requires act { IsPoolAct pool.now.pool step.now.act }
    requires new { tells_new pool.now step.now.act ≡ true }
    ensures { result ≡ refusal_now pool.now step.now }
{
    pool.refusal_now(step)
}
