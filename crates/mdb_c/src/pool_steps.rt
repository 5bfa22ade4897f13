//! A step of a pool in a slot, with its reply and its facts as numbers.

ghost use Rattle.std.specs.Prelude.{◌≡◌, ◌≢◌, ◌↔◌, ℕ, None};
ghost use Rattle.mdb_log.specs.declared.step.Step.{Step};
ghost use Rattle.mdb_pool_session.specs.PoolLogs.{PoolLog, answer_after, logged};
ghost use Rattle.mdb_c.specs.PoolSteps.{IsPoolStepped, TellsAnswer};

use mdb_log::Entry;
use mdb_pool_session::{PoolAct, PoolSession, PoolSlot};
use mdb_session::{
    At, CLOSED, MALFORMED, NO_MEMORY, OK, Status, Told, numbers_of, tell_pool_facts,
};
use std::alloc::Global;

// Tells the reply and the facts of the entry.
fn tell_entry(entry: &Entry, told: &mut Told)
    ensures { TellsAnswer entry.now.reply entry.now.facts told.old told.new }
{
    let count = tell_pool_facts(entry.facts.as_slice(), &mut told.facts);
    told.reply = numbers_of(&entry.reply);
    told.count = count as u64;
}

// Tells the answer to the last step, if there was one.
fn tell_last(session: &PoolSession, told: &mut Told)
    ensures { (l : PoolLog) (seat : ℕ) (step : Step) → session.now ≡ logged seat l step → TellsAnswer (answer_after l step).reply (answer_after l step).facts told.old told.new }
{
    let Some(entry) = session.last() else {
        return;
    };
    tell_entry(entry, told);
}

/// Does the act and tells the reply and the facts.
pub(crate) fn step_pool(
    alloc: Global,
    slot: &mut PoolSlot,
    at: &At,
    act: PoolAct,
    told: &mut Told,
) -> Status
    ensures ok { result ≡ OK → IsPoolStepped slot.old.word.value slot.new.word.value at.now act told.old told.new }
    ensures other { result ≢ OK → (slot.new.word.value ≡ slot.old.word.value) × (told.new ≡ told.old) }
    ensures formed { result ≢ MALFORMED }
    ensures closed { (result ≡ CLOSED) ↔ (slot.old.word.value ≡ None) }
    ensures answers { result ≢ OK → result ≢ NO_MEMORY → result ≡ CLOSED }
{
    let Some(mut session) = slot.take(alloc) else {
        return CLOSED;
    };
    match session.step(alloc, at.seat, at.moment, act) {
        Ok(()) => {
            tell_last(&session, told);
            *slot = PoolSlot::holding(session);
            OK
        }
        Err(_) => {
            *slot = PoolSlot::holding(session);
            NO_MEMORY
        }
    }
}
