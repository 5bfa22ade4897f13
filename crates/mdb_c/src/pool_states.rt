//! The steps that change the state of a pool that stands alone, and its timers.

ghost use Rattle.std.specs.Prelude.{◌≡◌, ◌≢◌, ◌↔◌, ◌⊎◌, Option, None, Some};
ghost use Rattle.mdb_base.specs.declared.error.ErrorKind.{ErrorKind as Kind};
ghost use Rattle.mdb_base.specs.declared.object_id.ObjectId.{ObjectId as Service};
ghost use Rattle.mdb_pool_session.specs.declared.pool_act.PoolAct.TheVariants as act;
ghost use Rattle.mdb_c.specs.Calls.{service_of};
ghost use Rattle.mdb_c.specs.PoolSteps.{IsPoolStepped, cause_of, error_of};

use crate::connections::service_in;
use crate::pool_causes::{cause_of, error_of};
use crate::pool_steps::step_pool;
use mdb_pool_session::{PoolAct, PoolSlot};
use mdb_session::{At, CLOSED, MALFORMED, NO_MEMORY, OK, Status, Told};
use std::alloc::Global;

/// The pool may be used (CMAP, "Marking a Connection Pool as Ready").
#[unsafe(no_mangle)]
pub extern "C" fn mdb_pool_ready(
    alloc: Global,
    slot: &mut PoolSlot,
    at: &At,
    told: &mut Told,
) -> Status
    ensures ok { result ≡ OK → IsPoolStepped slot.old.word.value slot.new.word.value at.now act.Ready told.old told.new }
    ensures other { result ≢ OK → (slot.new.word.value ≡ slot.old.word.value) × (told.new ≡ told.old) }
    ensures formed { result ≢ MALFORMED }
    ensures closed { (result ≡ CLOSED) ↔ (slot.old.word.value ≡ None) }
    ensures answers { result ≢ OK → result ≢ NO_MEMORY → result ≡ CLOSED }
{
    step_pool(alloc, slot, at, PoolAct::Ready, told)
}

/// The connections of the pool, or those of a service behind the load balancer, become stale (CMAP, "Clearing a Connection Pool"). `service` is in 24 hex
/// digits, or no bytes. `MALFORMED` where it is neither, or the cause is no such number.
#[unsafe(no_mangle)]
pub extern "C" fn mdb_pool_clear(
    alloc: Global,
    slot: &mut PoolSlot,
    at: &At,
    cause: u32,
    service: &[u8],
    told: &mut Told,
) -> Status
    ensures ok { result ≡ OK → (kind : Kind) × (s : Option Service) × (cause_of cause ≡ Some kind) × (service_of service.now ≡ Some s) × IsPoolStepped slot.old.word.value slot.new.word.value at.now (act.Clear s (error_of kind)) told.old told.new }
    ensures other { result ≢ OK → (slot.new.word.value ≡ slot.old.word.value) × (told.new ≡ told.old) }
    ensures malformed { (result ≡ MALFORMED) ↔ ((cause_of cause ≡ None) ⊎ (service_of service.now ≡ None)) }
    ensures closed { result ≡ CLOSED → slot.old.word.value ≡ None }
    ensures answers { result ≢ OK → result ≢ NO_MEMORY → result ≢ MALFORMED → result ≡ CLOSED }
{
    let Some(kind) = cause_of(cause) else {
        return MALFORMED;
    };
    let Some(service) = service_in(service) else {
        return MALFORMED;
    };
    match error_of(alloc, kind) {
        Ok(error) => step_pool(alloc, slot, at, PoolAct::Clear(service, error), told),
        Err(_) => NO_MEMORY,
    }
}

/// Stale and idle connections are closed (CMAP, "Background Thread").
#[unsafe(no_mangle)]
pub extern "C" fn mdb_pool_maintain(
    alloc: Global,
    slot: &mut PoolSlot,
    at: &At,
    told: &mut Told,
) -> Status
    ensures ok { result ≡ OK → IsPoolStepped slot.old.word.value slot.new.word.value at.now act.Maintain told.old told.new }
    ensures other { result ≢ OK → (slot.new.word.value ≡ slot.old.word.value) × (told.new ≡ told.old) }
    ensures formed { result ≢ MALFORMED }
    ensures closed { (result ≡ CLOSED) ↔ (slot.old.word.value ≡ None) }
    ensures answers { result ≢ OK → result ≢ NO_MEMORY → result ≡ CLOSED }
{
    step_pool(alloc, slot, at, PoolAct::Maintain, told)
}

/// The callers that waited for too long end (CMAP, "waitQueueTimeoutMS").
#[unsafe(no_mangle)]
pub extern "C" fn mdb_pool_expire(
    alloc: Global,
    slot: &mut PoolSlot,
    at: &At,
    told: &mut Told,
) -> Status
    ensures ok { result ≡ OK → IsPoolStepped slot.old.word.value slot.new.word.value at.now act.Expire told.old told.new }
    ensures other { result ≢ OK → (slot.new.word.value ≡ slot.old.word.value) × (told.new ≡ told.old) }
    ensures formed { result ≢ MALFORMED }
    ensures closed { (result ≡ CLOSED) ↔ (slot.old.word.value ≡ None) }
    ensures answers { result ≢ OK → result ≢ NO_MEMORY → result ≡ CLOSED }
{
    step_pool(alloc, slot, at, PoolAct::Expire, told)
}

/// The pool is closed for good (CMAP, "Closing a Connection Pool").
#[unsafe(no_mangle)]
pub extern "C" fn mdb_pool_close(
    alloc: Global,
    slot: &mut PoolSlot,
    at: &At,
    told: &mut Told,
) -> Status
    ensures ok { result ≡ OK → IsPoolStepped slot.old.word.value slot.new.word.value at.now act.Close told.old told.new }
    ensures other { result ≢ OK → (slot.new.word.value ≡ slot.old.word.value) × (told.new ≡ told.old) }
    ensures formed { result ≢ MALFORMED }
    ensures closed { (result ≡ CLOSED) ↔ (slot.old.word.value ≡ None) }
    ensures answers { result ≢ OK → result ≢ NO_MEMORY → result ≡ CLOSED }
{
    step_pool(alloc, slot, at, PoolAct::Close, told)
}
