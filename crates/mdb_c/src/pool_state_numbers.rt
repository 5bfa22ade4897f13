//! What a pool that stands alone tells without a step: the facts of its last entry, and what it has.

ghost use Rattle.std.specs.Prelude.{◌≡◌, ◌≢◌, ◌↔◌, ◌<◌, ◌≤◌, Option, None, Some, length, map};
ghost use Rattle.mdb_base.specs.declared.object_id.ObjectId.{ObjectId as Service};
ghost use Rattle.mdb_log.specs.State.{generation_of, state_of};
ghost use Rattle.mdb_pool_session.specs.PoolLogs.{PoolLog, items, last_facts};
ghost use Rattle.mdb_session.specs.Facts.{filled};
ghost use Rattle.mdb_session.specs.PoolFacts.{pool_fact_numbers};
ghost use Rattle.mdb_c.specs.Calls.{service_of};
ghost use Rattle.mdb_c.specs.PoolStates.{pool_state_numbers, state_number};

use crate::connections::service_in;
use mdb_pool::PoolState;
use mdb_pool_session::{PoolSession, PoolSlot};
use mdb_session::{CLOSED, FactNumbers, MALFORMED, NO_ROOM, OK, Status, tell_pool_facts};
use std::alloc::Global;

/// What a pool has.
#[repr(C)]
#[derive(Clone, Copy, Debug, PartialEq, Eq)]
pub struct PoolStateNumbers {
    /// How often the pool was cleared as a whole.
    pub generation: u64,
    /// How many connections nobody has.
    pub available: u64,
    /// How many connections are in use: they are neither available nor pending.
    pub in_use: u64,
    /// How many connections are not established yet.
    pub pending: u64,
    /// How many callers wait in the queue.
    pub waiting: u64,
    /// The number that replies and facts have of the pool.
    pub number: u32,
    /// Whether it may be used, from 1: it is new, ready, paused or closed.
    pub state: u32,
}

fn state_number(session: &PoolSession) -> u32
    ensures { result ≡ state_number (state_of session.now.options (items session.now)) }
{
    match session.state() {
        PoolState::New => 1,
        PoolState::Ready => 2,
        PoolState::Paused => 3,
        PoolState::Closed => 4,
    }
}

fn numbers_of_state(session: &PoolSession) -> PoolStateNumbers
    ensures { result ≡ pool_state_numbers session.now }
{
    PoolStateNumbers {
        generation: session.generation(None),
        available: session.available() as u64,
        in_use: session.in_use() as u64,
        pending: session.pending() as u64,
        waiting: session.waiting() as u64,
        number: session.number(),
        state: state_number(session),
    }
}

/// Tells what the pool has.
#[unsafe(no_mangle)]
pub extern "C" fn mdb_pool_get(
    alloc: Global,
    slot: &mut PoolSlot,
    told: &mut PoolStateNumbers,
) -> Status
    ensures ok { result ≡ OK → (l : PoolLog) × (slot.old.word.value ≡ Some l) × (told.new ≡ pool_state_numbers l) }
    ensures other { result ≢ OK → (result ≡ CLOSED) × (slot.old.word.value ≡ None) × (told.new ≡ told.old) }
    ensures same { slot.new.word.value ≡ slot.old.word.value }
{
    let Some(session) = slot.take(alloc) else {
        return CLOSED;
    };
    *told = numbers_of_state(&session);
    *slot = PoolSlot::holding(session);
    OK
}

/// Tells how often the pool was cleared: for the service behind the load balancer, in 24 hex digits, or as a whole for no bytes (CMAP, "Generation").
/// `MALFORMED` where the bytes are neither.
#[unsafe(no_mangle)]
pub extern "C" fn mdb_pool_generation(
    alloc: Global,
    slot: &mut PoolSlot,
    service: &[u8],
    generation: &mut u64,
) -> Status
    ensures ok { result ≡ OK → (l : PoolLog) × (s : Option Service) × (slot.old.word.value ≡ Some l) × (service_of service.now ≡ Some s) × (generation.new ≡ generation_of (items l) s) }
    ensures other { result ≢ OK → generation.new ≡ generation.old }
    ensures malformed { (result ≡ MALFORMED) ↔ (service_of service.now ≡ None) }
    ensures same { slot.new.word.value ≡ slot.old.word.value }
    ensures closed { result ≡ CLOSED → slot.old.word.value ≡ None }
    ensures answers { result ≢ OK → result ≢ MALFORMED → result ≡ CLOSED }
{
    let Some(service) = service_in(service) else {
        return MALFORMED;
    };
    let Some(session) = slot.take(alloc) else {
        return CLOSED;
    };
    *generation = session.generation(service);
    *slot = PoolSlot::holding(session);
    OK
}

// Writes the numbers of the facts of the last entry to the beginning of the room, and answers how many they are.
fn tell_facts(session: &PoolSession, out: &mut [FactNumbers]) -> usize
    ensures count { result ≡ length (last_facts session.now) }
    ensures told { out.new ≡ filled (map pool_fact_numbers (last_facts session.now)) out.old }
{
    match session.last() {
        Some(entry) => tell_pool_facts(entry.facts.as_slice(), out),
        None => 0,
    }
}

/// Writes the numbers of all facts of the last entry, in their order, to the beginning of `out`, and how many they are to `count`.
#[unsafe(no_mangle)]
pub extern "C" fn mdb_pool_facts(
    alloc: Global,
    slot: &mut PoolSlot,
    out: &mut [FactNumbers],
    count: &mut usize,
) -> Status
    ensures told { result ≢ CLOSED → (l : PoolLog) × (slot.old.word.value ≡ Some l) × (count.new ≡ length (last_facts l)) × (out.new ≡ filled (map pool_fact_numbers (last_facts l)) out.old) }
    ensures room { (result ≡ NO_ROOM) → length out.old < count.new }
    ensures fits { (result ≡ OK) → count.new ≤ length out.old }
    ensures same { slot.new.word.value ≡ slot.old.word.value }
    ensures closed { (result ≡ CLOSED) ↔ (slot.old.word.value ≡ None) }
    ensures none { result ≡ CLOSED → (count.new ≡ 0) × (out.new ≡ out.old) }
    ensures answers { result ≢ OK → result ≢ NO_ROOM → result ≡ CLOSED }
{
    *count = 0;
    let Some(session) = slot.take(alloc) else {
        return CLOSED;
    };
    let room = out.len();
    let told = tell_facts(&session, out);
    *slot = PoolSlot::holding(session);
    *count = told;
    if told <= room { OK } else { NO_ROOM }
}
