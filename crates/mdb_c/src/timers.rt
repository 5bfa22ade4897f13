//! The steps of timers, and the end of a driver.

ghost use Rattle.std.specs.Prelude.{◌≡◌, ◌≢◌, ◌↔◌, None};
ghost use Rattle.mdb_base.specs.declared.address.ServerAddress.{ServerAddress};
ghost use Rattle.mdb_log.specs.declared.step.Act.TheVariants as act;
ghost use Rattle.mdb_session.specs.Sessions.{IsStepped, step_at};
ghost use Rattle.mdb_session.specs.Texts.{IsAddressOf};

use mdb_log::Act;
use mdb_session::{
    At, CLOSED, MALFORMED, NO_MEMORY, OK, ReplyNumbers, Slot, Status, address_in, status_of,
};
use std::alloc::Global;

/// The timer of the pool of the address: stale and idle connections are closed (CMAP, "Background Thread").
#[unsafe(no_mangle)]
pub extern "C" fn mdb_maintain(
    alloc: Global,
    slot: &mut Slot,
    at: &At,
    address: &[u8],
    reply: &mut ReplyNumbers,
) -> Status
    ensures ok { result ≡ OK → (a : ServerAddress) × IsAddressOf address.now a × IsStepped slot.old.word.value slot.new.word.value at.now.seat (step_at at.now (act.Maintain a)) reply.new }
    ensures other { result ≢ OK → (slot.new.word.value ≡ slot.old.word.value) × (reply.new ≡ reply.old) }
    ensures malformed { result ≡ MALFORMED → (a : ServerAddress) → IsAddressOf address.now a → ⊥ }
    ensures closed { result ≡ CLOSED → slot.old.word.value ≡ None }
    ensures answers { result ≢ OK → result ≢ NO_MEMORY → result ≢ MALFORMED → result ≡ CLOSED }
{
    match address_in(alloc, address) {
        Ok(address) => slot.step(alloc, at, Act::Maintain(address), reply),
        Err(why) => status_of(why),
    }
}

/// The callers of the pool of the address that waited for too long end (CMAP, "waitQueueTimeoutMS").
#[unsafe(no_mangle)]
pub extern "C" fn mdb_expire(
    alloc: Global,
    slot: &mut Slot,
    at: &At,
    address: &[u8],
    reply: &mut ReplyNumbers,
) -> Status
    ensures ok { result ≡ OK → (a : ServerAddress) × IsAddressOf address.now a × IsStepped slot.old.word.value slot.new.word.value at.now.seat (step_at at.now (act.Expire a)) reply.new }
    ensures other { result ≢ OK → (slot.new.word.value ≡ slot.old.word.value) × (reply.new ≡ reply.old) }
    ensures malformed { result ≡ MALFORMED → (a : ServerAddress) → IsAddressOf address.now a → ⊥ }
    ensures closed { result ≡ CLOSED → slot.old.word.value ≡ None }
    ensures answers { result ≢ OK → result ≢ NO_MEMORY → result ≢ MALFORMED → result ≡ CLOSED }
{
    match address_in(alloc, address) {
        Ok(address) => slot.step(alloc, at, Act::Expire(address), reply),
        Err(why) => status_of(why),
    }
}

/// The driver stops: its pools and its monitors are closed.
#[unsafe(no_mangle)]
pub extern "C" fn mdb_stop(
    alloc: Global,
    slot: &mut Slot,
    at: &At,
    reply: &mut ReplyNumbers,
) -> Status
    ensures ok { result ≡ OK → IsStepped slot.old.word.value slot.new.word.value at.now.seat (step_at at.now (act.Stop)) reply.new }
    ensures other { result ≢ OK → (slot.new.word.value ≡ slot.old.word.value) × (reply.new ≡ reply.old) }
    ensures formed { result ≢ MALFORMED }
    ensures closed { (result ≡ CLOSED) ↔ (slot.old.word.value ≡ None) }
    ensures answers { result ≢ OK → result ≢ NO_MEMORY → result ≡ CLOSED }
{
    slot.step(alloc, at, Act::Stop, reply)
}
