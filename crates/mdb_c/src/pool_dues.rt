//! When time changes something in a pool that stands alone, and the steps of its timers.

ghost use Rattle.std.specs.Prelude.{◌≡◌, ◌≢◌, ◌↔◌, None, Some};
ghost use Rattle.mdb_pool.specs.Dues.{next_due, timer_at};
ghost use Rattle.mdb_pool.specs.declared.dues.Timer.{Timer as Kind};
ghost use Rattle.mdb_pool_session.specs.PoolLogs.{PoolLog, items};
ghost use Rattle.mdb_c.specs.PoolDues.{act_of};
ghost use Rattle.mdb_c.specs.PoolSteps.{IsPoolStepped};

use crate::pool_steps::step_pool;
use mdb_pool::Timer;
use mdb_pool_session::{PoolAct, PoolSlot};
use mdb_session::{At, CLOSED, NO_ENTRY, NO_MEMORY, OK, Status, Told};
use std::alloc::Global;

fn act_of(timer: Timer) -> PoolAct
    ensures { result ≡ act_of timer }
{
    match timer {
        Timer::Expire => PoolAct::Expire,
        Timer::Maintain => PoolAct::Maintain,
    }
}

/// Tells the first moment from the given one on at which a timer changes something in the pool, unless another step comes before. `NO_ENTRY` where no time
/// brings it to that.
#[unsafe(no_mangle)]
pub extern "C" fn mdb_pool_next_due(
    alloc: Global,
    slot: &mut PoolSlot,
    moment: u64,
    due: &mut u64,
) -> Status
    ensures ok { result ≡ OK → (l : PoolLog) × (slot.old.word.value ≡ Some l) × (next_due l.options moment (items l) ≡ Some due.new) }
    ensures none { result ≡ NO_ENTRY → (l : PoolLog) × (slot.old.word.value ≡ Some l) × (next_due l.options moment (items l) ≡ None) }
    ensures other { result ≢ OK → due.new ≡ due.old }
    ensures same { slot.new.word.value ≡ slot.old.word.value }
    ensures closed { (result ≡ CLOSED) ↔ (slot.old.word.value ≡ None) }
    ensures answers { result ≢ OK → result ≢ NO_ENTRY → result ≡ CLOSED }
{
    let Some(session) = slot.take(alloc) else {
        return CLOSED;
    };
    let found = session.next_due(moment);
    *slot = PoolSlot::holding(session);
    match found {
        Some(moment) => {
            *due = moment;
            OK
        }
        None => NO_ENTRY,
    }
}

/// Does the step of the timer that changes something in the pool, the expiry before the maintenance, and tells the reply and the facts. `NO_ENTRY` where
/// neither does.
#[unsafe(no_mangle)]
pub extern "C" fn mdb_pool_tick(
    alloc: Global,
    slot: &mut PoolSlot,
    at: &At,
    told: &mut Told,
) -> Status
    ensures ok { result ≡ OK → (l : PoolLog) × (timer : Kind) × (slot.old.word.value ≡ Some l) × (timer_at l.options at.now.moment (items l) ≡ Some timer) × IsPoolStepped slot.old.word.value slot.new.word.value at.now (act_of timer) told.old told.new }
    ensures none { result ≡ NO_ENTRY → (l : PoolLog) × (slot.old.word.value ≡ Some l) × (timer_at l.options at.now.moment (items l) ≡ None) }
    ensures other { result ≢ OK → (slot.new.word.value ≡ slot.old.word.value) × (told.new ≡ told.old) }
    ensures closed { (result ≡ CLOSED) ↔ (slot.old.word.value ≡ None) }
    ensures answers { result ≢ OK → result ≢ NO_MEMORY → result ≢ NO_ENTRY → result ≡ CLOSED }
{
    let Some(session) = slot.take(alloc) else {
        return CLOSED;
    };
    let due = session.timer_at(at.moment);
    *slot = PoolSlot::holding(session);
    match due {
        Some(timer) => step_pool(alloc, slot, at, act_of(timer), told),
        None => NO_ENTRY,
    }
}
