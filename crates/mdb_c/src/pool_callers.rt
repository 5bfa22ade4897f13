//! The steps of the callers of a pool that stands alone: requests, what they come to, and returns.

ghost use Rattle.std.specs.Prelude.{◌≡◌, ◌≢◌, ◌↔◌, None, Some};
ghost use Rattle.mdb_log.specs.declared.step.Use.{Use as Used};
ghost use Rattle.mdb_pool_session.specs.declared.pool_act.PoolAct.TheVariants as act;
ghost use Rattle.mdb_c.specs.Calls.{use_of};
ghost use Rattle.mdb_c.specs.PoolSteps.{IsPoolStepped};

use crate::callers::use_of;
use crate::pool_steps::step_pool;
use mdb_pool_session::{PoolAct, PoolSlot};
use mdb_session::{At, CLOSED, MALFORMED, NO_MEMORY, OK, Status, Told};
use std::alloc::Global;

/// A caller asks for a connection (CMAP, "Checking Out a Connection").
#[unsafe(no_mangle)]
pub extern "C" fn mdb_pool_request(
    alloc: Global,
    slot: &mut PoolSlot,
    at: &At,
    party: u32,
    told: &mut Told,
) -> Status
    ensures ok { result ≡ OK → IsPoolStepped slot.old.word.value slot.new.word.value at.now (act.Request party) told.old told.new }
    ensures other { result ≢ OK → (slot.new.word.value ≡ slot.old.word.value) × (told.new ≡ told.old) }
    ensures formed { result ≢ MALFORMED }
    ensures closed { (result ≡ CLOSED) ↔ (slot.old.word.value ≡ None) }
    ensures answers { result ≢ OK → result ≢ NO_MEMORY → result ≡ CLOSED }
{
    step_pool(alloc, slot, at, PoolAct::Request(party), told)
}

/// One connection more, where fewer live than the minimum (CMAP, "minPoolSize").
#[unsafe(no_mangle)]
pub extern "C" fn mdb_pool_warm(
    alloc: Global,
    slot: &mut PoolSlot,
    at: &At,
    party: u32,
    told: &mut Told,
) -> Status
    ensures ok { result ≡ OK → IsPoolStepped slot.old.word.value slot.new.word.value at.now (act.Warm party) told.old told.new }
    ensures other { result ≢ OK → (slot.new.word.value ≡ slot.old.word.value) × (told.new ≡ told.old) }
    ensures formed { result ≢ MALFORMED }
    ensures closed { (result ≡ CLOSED) ↔ (slot.old.word.value ≡ None) }
    ensures answers { result ≢ OK → result ≢ NO_MEMORY → result ≡ CLOSED }
{
    step_pool(alloc, slot, at, PoolAct::Warm(party), told)
}

/// The caller of a request asks how it stands. That it ended is told once.
#[unsafe(no_mangle)]
pub extern "C" fn mdb_pool_collect(
    alloc: Global,
    slot: &mut PoolSlot,
    at: &At,
    party: u32,
    told: &mut Told,
) -> Status
    ensures ok { result ≡ OK → IsPoolStepped slot.old.word.value slot.new.word.value at.now (act.Collect party) told.old told.new }
    ensures other { result ≢ OK → (slot.new.word.value ≡ slot.old.word.value) × (told.new ≡ told.old) }
    ensures formed { result ≢ MALFORMED }
    ensures closed { (result ≡ CLOSED) ↔ (slot.old.word.value ≡ None) }
    ensures answers { result ≢ OK → result ≢ NO_MEMORY → result ≡ CLOSED }
{
    step_pool(alloc, slot, at, PoolAct::Collect(party), told)
}

/// The caller of a request no longer wants its connection.
#[unsafe(no_mangle)]
pub extern "C" fn mdb_pool_give_up(
    alloc: Global,
    slot: &mut PoolSlot,
    at: &At,
    party: u32,
    told: &mut Told,
) -> Status
    ensures ok { result ≡ OK → IsPoolStepped slot.old.word.value slot.new.word.value at.now (act.GiveUp party) told.old told.new }
    ensures other { result ≢ OK → (slot.new.word.value ≡ slot.old.word.value) × (told.new ≡ told.old) }
    ensures formed { result ≢ MALFORMED }
    ensures closed { (result ≡ CLOSED) ↔ (slot.old.word.value ≡ None) }
    ensures answers { result ≢ OK → result ≢ NO_MEMORY → result ≡ CLOSED }
{
    step_pool(alloc, slot, at, PoolAct::GiveUp(party), told)
}

/// A party returns its connection (CMAP, "Checking In a Connection"). `used` is as for `mdb_return`.
#[unsafe(no_mangle)]
pub extern "C" fn mdb_pool_return(
    alloc: Global,
    slot: &mut PoolSlot,
    at: &At,
    party: u32,
    used: u32,
    told: &mut Told,
) -> Status
    ensures ok { result ≡ OK → (how : Used) × (use_of used ≡ Some how) × IsPoolStepped slot.old.word.value slot.new.word.value at.now (act.Return party how) told.old told.new }
    ensures other { result ≢ OK → (slot.new.word.value ≡ slot.old.word.value) × (told.new ≡ told.old) }
    ensures malformed { (result ≡ MALFORMED) ↔ (use_of used ≡ None) }
    ensures closed { result ≡ CLOSED → slot.old.word.value ≡ None }
    ensures answers { result ≢ OK → result ≢ NO_MEMORY → result ≢ MALFORMED → result ≡ CLOSED }
{
    match use_of(used) {
        Some(how) => step_pool(alloc, slot, at, PoolAct::Return(party, how), told),
        None => MALFORMED,
    }
}
