//! The steps of callers: requests, what they come to, and returns.

ghost use Rattle.std.specs.Prelude.{◌≡◌, ◌≢◌, ◌↔◌, None, Some};
ghost use Rattle.mdb_base.specs.declared.address.ServerAddress.{ServerAddress};
ghost use Rattle.mdb_log.specs.declared.step.Act.TheVariants as act;
ghost use Rattle.mdb_log.specs.declared.step.Use.{Use as Used};
ghost use Rattle.mdb_c.specs.Calls.{use_of};
ghost use Rattle.mdb_session.specs.Sessions.{IsStepped, step_at};
ghost use Rattle.mdb_session.specs.Texts.{IsAddressOf};

use mdb_log::{Act, Use};
use mdb_session::{
    At, CLOSED, MALFORMED, NO_MEMORY, OK, ReplyNumbers, Slot, Status, address_in, status_of,
};
use std::alloc::Global;

/// A caller asks for a connection to the address (CMAP, "Checking Out a Connection").
#[unsafe(no_mangle)]
pub extern "C" fn mdb_request(
    alloc: Global,
    slot: &mut Slot,
    at: &At,
    party: u32,
    address: &[u8],
    reply: &mut ReplyNumbers,
) -> Status
    ensures ok { result ≡ OK → (a : ServerAddress) × IsAddressOf address.now a × IsStepped slot.old.word.value slot.new.word.value at.now.seat (step_at at.now (act.Request party a)) reply.new }
    ensures other { result ≢ OK → (slot.new.word.value ≡ slot.old.word.value) × (reply.new ≡ reply.old) }
    ensures malformed { result ≡ MALFORMED → (a : ServerAddress) → IsAddressOf address.now a → ⊥ }
    ensures closed { result ≡ CLOSED → slot.old.word.value ≡ None }
    ensures answers { result ≢ OK → result ≢ NO_MEMORY → result ≢ MALFORMED → result ≡ CLOSED }
{
    match address_in(alloc, address) {
        Ok(address) => slot.step(alloc, at, Act::Request(party, address), reply),
        Err(why) => status_of(why),
    }
}

/// One connection more for the pool of the address, where fewer live than its minimum (CMAP, "minPoolSize").
#[unsafe(no_mangle)]
pub extern "C" fn mdb_warm(
    alloc: Global,
    slot: &mut Slot,
    at: &At,
    party: u32,
    address: &[u8],
    reply: &mut ReplyNumbers,
) -> Status
    ensures ok { result ≡ OK → (a : ServerAddress) × IsAddressOf address.now a × IsStepped slot.old.word.value slot.new.word.value at.now.seat (step_at at.now (act.Warm party a)) reply.new }
    ensures other { result ≢ OK → (slot.new.word.value ≡ slot.old.word.value) × (reply.new ≡ reply.old) }
    ensures malformed { result ≡ MALFORMED → (a : ServerAddress) → IsAddressOf address.now a → ⊥ }
    ensures closed { result ≡ CLOSED → slot.old.word.value ≡ None }
    ensures answers { result ≢ OK → result ≢ NO_MEMORY → result ≢ MALFORMED → result ≡ CLOSED }
{
    match address_in(alloc, address) {
        Ok(address) => slot.step(alloc, at, Act::Warm(party, address), reply),
        Err(why) => status_of(why),
    }
}

/// The caller of a request asks how it stands. That it ended is told once.
#[unsafe(no_mangle)]
pub extern "C" fn mdb_collect(
    alloc: Global,
    slot: &mut Slot,
    at: &At,
    party: u32,
    reply: &mut ReplyNumbers,
) -> Status
    ensures ok { result ≡ OK → IsStepped slot.old.word.value slot.new.word.value at.now.seat (step_at at.now (act.Collect party)) reply.new }
    ensures other { result ≢ OK → (slot.new.word.value ≡ slot.old.word.value) × (reply.new ≡ reply.old) }
    ensures formed { result ≢ MALFORMED }
    ensures closed { (result ≡ CLOSED) ↔ (slot.old.word.value ≡ None) }
    ensures answers { result ≢ OK → result ≢ NO_MEMORY → result ≡ CLOSED }
{
    slot.step(alloc, at, Act::Collect(party), reply)
}

/// The caller of a request no longer wants its connection.
#[unsafe(no_mangle)]
pub extern "C" fn mdb_give_up(
    alloc: Global,
    slot: &mut Slot,
    at: &At,
    party: u32,
    reply: &mut ReplyNumbers,
) -> Status
    ensures ok { result ≡ OK → IsStepped slot.old.word.value slot.new.word.value at.now.seat (step_at at.now (act.GiveUp party)) reply.new }
    ensures other { result ≢ OK → (slot.new.word.value ≡ slot.old.word.value) × (reply.new ≡ reply.old) }
    ensures formed { result ≢ MALFORMED }
    ensures closed { (result ≡ CLOSED) ↔ (slot.old.word.value ≡ None) }
    ensures answers { result ≢ OK → result ≢ NO_MEMORY → result ≡ CLOSED }
{
    slot.step(alloc, at, Act::GiveUp(party), reply)
}

/// The use of a number, from 0.
pub fn use_of(number: u32) -> Option<Use>
    ensures { result ≡ use_of number }
{
    if number == 0 {
        Some(Use::Ok)
    } else if number == 1 {
        Some(Use::Errored)
    } else if number == 2 {
        Some(Use::Dropped)
    } else if number == 3 {
        Some(Use::Streaming)
    } else {
        None
    }
}

/// A party returns its connection (CMAP, "Checking In a Connection"). `used` is 0 where it was used well, 1 where it met an error, 2 where the
/// party stopped in the middle of an operation, and 3 where more replies of the server were to come.
#[unsafe(no_mangle)]
pub extern "C" fn mdb_return(
    alloc: Global,
    slot: &mut Slot,
    at: &At,
    party: u32,
    used: u32,
    reply: &mut ReplyNumbers,
) -> Status
    ensures ok { result ≡ OK → (how : Used) × (use_of used ≡ Some how) × IsStepped slot.old.word.value slot.new.word.value at.now.seat (step_at at.now (act.Return party how)) reply.new }
    ensures other { result ≢ OK → (slot.new.word.value ≡ slot.old.word.value) × (reply.new ≡ reply.old) }
    ensures malformed { (result ≡ MALFORMED) ↔ (use_of used ≡ None) }
    ensures closed { result ≡ CLOSED → slot.old.word.value ≡ None }
    ensures answers { result ≢ OK → result ≢ NO_MEMORY → result ≢ MALFORMED → result ≡ CLOSED }
{
    match use_of(used) {
        Some(how) => slot.step(alloc, at, Act::Return(party, how), reply),
        None => MALFORMED,
    }
}
