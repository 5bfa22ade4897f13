//! The pins of a pool that stands alone.

ghost use Rattle.std.specs.Prelude.{◌≡◌, ◌≢◌, ◌↔◌, None};
ghost use Rattle.mdb_pool_session.specs.declared.pool_act.PoolAct.TheVariants as act;
ghost use Rattle.mdb_c.specs.PoolSteps.{IsPoolStepped};

use crate::pool_steps::step_pool;
use mdb_pool_session::{PoolAct, PoolSlot};
use mdb_session::{At, CLOSED, MALFORMED, NO_MEMORY, OK, Status, Told};
use std::alloc::Global;

/// A party pins its connection, so that it stays with its session when it comes back.
#[unsafe(no_mangle)]
pub extern "C" fn mdb_pool_pin(
    alloc: Global,
    slot: &mut PoolSlot,
    at: &At,
    party: u32,
    told: &mut Told,
) -> Status
    ensures ok { result ≡ OK → IsPoolStepped slot.old.word.value slot.new.word.value at.now (act.Pin party) told.old told.new }
    ensures other { result ≢ OK → (slot.new.word.value ≡ slot.old.word.value) × (told.new ≡ told.old) }
    ensures formed { result ≢ MALFORMED }
    ensures closed { (result ≡ CLOSED) ↔ (slot.old.word.value ≡ None) }
    ensures answers { result ≢ OK → result ≢ NO_MEMORY → result ≡ CLOSED }
{
    step_pool(alloc, slot, at, PoolAct::Pin(party), told)
}

/// One pin more of a pinned connection.
#[unsafe(no_mangle)]
pub extern "C" fn mdb_pool_replicate(
    alloc: Global,
    slot: &mut PoolSlot,
    at: &At,
    id: u32,
    told: &mut Told,
) -> Status
    ensures ok { result ≡ OK → IsPoolStepped slot.old.word.value slot.new.word.value at.now (act.Replicate id) told.old told.new }
    ensures other { result ≢ OK → (slot.new.word.value ≡ slot.old.word.value) × (told.new ≡ told.old) }
    ensures formed { result ≢ MALFORMED }
    ensures closed { (result ≡ CLOSED) ↔ (slot.old.word.value ≡ None) }
    ensures answers { result ≢ OK → result ≢ NO_MEMORY → result ≡ CLOSED }
{
    step_pool(alloc, slot, at, PoolAct::Replicate(id), told)
}

/// A new party takes a pinned connection.
#[unsafe(no_mangle)]
pub extern "C" fn mdb_pool_take(
    alloc: Global,
    slot: &mut PoolSlot,
    at: &At,
    party: u32,
    id: u32,
    told: &mut Told,
) -> Status
    ensures ok { result ≡ OK → IsPoolStepped slot.old.word.value slot.new.word.value at.now (act.Take party id) told.old told.new }
    ensures other { result ≢ OK → (slot.new.word.value ≡ slot.old.word.value) × (told.new ≡ told.old) }
    ensures formed { result ≢ MALFORMED }
    ensures closed { (result ≡ CLOSED) ↔ (slot.old.word.value ≡ None) }
    ensures answers { result ≢ OK → result ≢ NO_MEMORY → result ≡ CLOSED }
{
    step_pool(alloc, slot, at, PoolAct::Take(party, id), told)
}

/// One pin less of a pinned connection.
#[unsafe(no_mangle)]
pub extern "C" fn mdb_pool_unpin(
    alloc: Global,
    slot: &mut PoolSlot,
    at: &At,
    id: u32,
    told: &mut Told,
) -> Status
    ensures ok { result ≡ OK → IsPoolStepped slot.old.word.value slot.new.word.value at.now (act.Unpin id) told.old told.new }
    ensures other { result ≢ OK → (slot.new.word.value ≡ slot.old.word.value) × (told.new ≡ told.old) }
    ensures formed { result ≢ MALFORMED }
    ensures closed { (result ≡ CLOSED) ↔ (slot.old.word.value ≡ None) }
    ensures answers { result ≢ OK → result ≢ NO_MEMORY → result ≡ CLOSED }
{
    step_pool(alloc, slot, at, PoolAct::Unpin(id), told)
}
