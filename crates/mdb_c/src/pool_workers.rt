//! The steps of those who establish the connections of a pool that stands alone.

ghost use Rattle.std.specs.Prelude.{◌≡◌, ◌≢◌, ◌↔◌, Option, None, Some};
ghost use Rattle.mdb_base.specs.declared.error.ErrorKind.TheVariants.{Network};
ghost use Rattle.mdb_base.specs.declared.object_id.ObjectId.{ObjectId as Service};
ghost use Rattle.mdb_pool_session.specs.declared.pool_act.PoolAct.TheVariants as act;
ghost use Rattle.mdb_c.specs.Calls.{service_of};
ghost use Rattle.mdb_c.specs.PoolSteps.{IsPoolStepped, error_of, established_to, failed_at};

use crate::connections::service_in;
use crate::pool_causes::error_of;
use crate::pool_steps::step_pool;
use mdb_base::{ErrorKind, ObjectId};
use mdb_log::{Established, FailedAt};
use mdb_pool_session::{PoolAct, PoolSlot};
use mdb_session::{At, CLOSED, MALFORMED, NO_MEMORY, OK, Status, Told};
use std::alloc::Global;

/// A worker asks for a connection to establish (CMAP, "Establishing a Connection").
#[unsafe(no_mangle)]
pub extern "C" fn mdb_pool_claim(
    alloc: Global,
    slot: &mut PoolSlot,
    at: &At,
    told: &mut Told,
) -> Status
    ensures ok { result ≡ OK → IsPoolStepped slot.old.word.value slot.new.word.value at.now act.Claim told.old told.new }
    ensures other { result ≢ OK → (slot.new.word.value ≡ slot.old.word.value) × (told.new ≡ told.old) }
    ensures formed { result ≢ MALFORMED }
    ensures closed { (result ≡ CLOSED) ↔ (slot.old.word.value ≡ None) }
    ensures answers { result ≢ OK → result ≢ NO_MEMORY → result ≡ CLOSED }
{
    step_pool(alloc, slot, at, PoolAct::Claim, told)
}

fn established_to(service_id: Option<ObjectId>) -> Established
    ensures { result ≡ established_to service_id }
{
    Established {
        wire: 0,
        service_id,
        server_id: None,
    }
}

/// A pending connection was established (CMAP, "Establishing a Connection"). `service` is the service behind the load balancer, in 24 hex digits, or
/// no bytes. `MALFORMED` where it is neither.
#[unsafe(no_mangle)]
pub extern "C" fn mdb_pool_established(
    alloc: Global,
    slot: &mut PoolSlot,
    at: &At,
    id: u32,
    service: &[u8],
    told: &mut Told,
) -> Status
    ensures ok { result ≡ OK → (s : Option Service) × (service_of service.now ≡ Some s) × IsPoolStepped slot.old.word.value slot.new.word.value at.now (act.Established id (established_to s)) told.old told.new }
    ensures other { result ≢ OK → (slot.new.word.value ≡ slot.old.word.value) × (told.new ≡ told.old) }
    ensures malformed { (result ≡ MALFORMED) ↔ (service_of service.now ≡ None) }
    ensures closed { result ≡ CLOSED → slot.old.word.value ≡ None }
    ensures answers { result ≢ OK → result ≢ NO_MEMORY → result ≢ MALFORMED → result ≡ CLOSED }
{
    let Some(service) = service_in(service) else {
        return MALFORMED;
    };
    let act = PoolAct::Established(id, established_to(service));
    step_pool(alloc, slot, at, act, told)
}

fn failed_at(service: Option<ObjectId>) -> FailedAt
    ensures { result ≡ failed_at service }
{
    match service {
        None => FailedAt::Pre,
        Some(service) => FailedAt::Post(Some(service)),
    }
}

/// A pending connection failed (CMAP, "Establishing a Connection"). `service` is as for `mdb_pool_established`: the one that the server named before.
#[unsafe(no_mangle)]
pub extern "C" fn mdb_pool_failed(
    alloc: Global,
    slot: &mut PoolSlot,
    at: &At,
    id: u32,
    service: &[u8],
    told: &mut Told,
) -> Status
    ensures ok { result ≡ OK → (s : Option Service) × (service_of service.now ≡ Some s) × IsPoolStepped slot.old.word.value slot.new.word.value at.now (act.Failed id (failed_at s) (error_of Network)) told.old told.new }
    ensures other { result ≢ OK → (slot.new.word.value ≡ slot.old.word.value) × (told.new ≡ told.old) }
    ensures malformed { (result ≡ MALFORMED) ↔ (service_of service.now ≡ None) }
    ensures closed { result ≡ CLOSED → slot.old.word.value ≡ None }
    ensures answers { result ≢ OK → result ≢ NO_MEMORY → result ≢ MALFORMED → result ≡ CLOSED }
{
    let Some(service) = service_in(service) else {
        return MALFORMED;
    };
    match error_of(alloc, ErrorKind::Network) {
        Ok(error) => {
            let act = PoolAct::Failed(id, failed_at(service), error);
            step_pool(alloc, slot, at, act, told)
        }
        Err(_) => NO_MEMORY,
    }
}
