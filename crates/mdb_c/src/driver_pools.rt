//! What a driver tells of one of its pools, and of its watchers, without a step.

ghost use Rattle.std.specs.Prelude.{◌≡◌, ◌≢◌, ◌↔◌, List, None, Some};
ghost use Rattle.mdb_log.specs.declared.log.Entry.{Entry};
ghost use Rattle.mdb_session.specs.Pools.{driver_pool_numbers, watchers_after, HasOpened, IsGoneAfter};

use mdb_session::{CLOSED, DriverPoolNumbers, NO_ENTRY, OK, Slot, Status};
use std::alloc::Global;

/// Tells the numbers of the pool of this number, as long as something lives in it.
#[unsafe(no_mangle)]
pub extern "C" fn mdb_driver_pool_get(
    alloc: Global,
    slot: &mut Slot,
    pool: u32,
    told: &mut DriverPoolNumbers,
) -> Status
    ensures ok { result ≡ OK → (log : List Entry) × (slot.old.word.value ≡ Some log) × HasOpened log pool × (told.new ≡ driver_pool_numbers log pool) }
    ensures none { result ≡ NO_ENTRY → (log : List Entry) × (slot.old.word.value ≡ Some log) × IsGoneAfter log pool }
    ensures other { result ≢ OK → told.new ≡ told.old }
    ensures same { slot.new.word.value ≡ slot.old.word.value }
    ensures closed { (result ≡ CLOSED) ↔ (slot.old.word.value ≡ None) }
    ensures answers { result ≢ OK → result ≢ NO_ENTRY → result ≡ CLOSED }
{
    let Some(session) = slot.take(alloc) else {
        return CLOSED;
    };
    let found = session.pool(pool);
    *slot = Slot::holding(session);
    match found {
        Some(numbers) => {
            *told = numbers;
            OK
        }
        None => NO_ENTRY,
    }
}

/// Tells how many watchers want the servers checked at once.
#[unsafe(no_mangle)]
pub extern "C" fn mdb_watchers(alloc: Global, slot: &mut Slot, count: &mut u64) -> Status
    ensures ok { result ≡ OK → (log : List Entry) × (slot.old.word.value ≡ Some log) × (count.new ≡ watchers_after log) }
    ensures other { result ≢ OK → (result ≡ CLOSED) × (slot.old.word.value ≡ None) × (count.new ≡ count.old) }
    ensures same { slot.new.word.value ≡ slot.old.word.value }
{
    let Some(session) = slot.take(alloc) else {
        return CLOSED;
    };
    *count = session.watchers();
    *slot = Slot::holding(session);
    OK
}
