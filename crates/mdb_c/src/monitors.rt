//! The steps of monitors that tell no reply, of watchers, and of the cluster's time.

ghost use Rattle.std.specs.Prelude.{◌≡◌, ◌≢◌, ◌↔◌, None};
ghost use Rattle.mdb_base.specs.declared.address.ServerAddress.{ServerAddress};
ghost use Rattle.mdb_log.specs.declared.step.Act.TheVariants as act;
ghost use Rattle.mdb_c.specs.Calls.{cluster};
ghost use Rattle.mdb_session.specs.Sessions.{IsStepped, step_at};
ghost use Rattle.mdb_session.specs.Texts.{IsAddressOf};

use mdb_base::ClusterTime;
use mdb_log::Act;
use mdb_session::{
    At, CLOSED, MALFORMED, NO_MEMORY, OK, ReplyNumbers, Slot, Status, address_in, status_of,
};
use std::alloc::Global;

/// The monitor of the address begins a check, for the pool of this number (SDAM monitoring, "ServerHeartbeatStartedEvent").
#[unsafe(no_mangle)]
pub extern "C" fn mdb_beat(
    alloc: Global,
    slot: &mut Slot,
    at: &At,
    address: &[u8],
    pool: u32,
    reply: &mut ReplyNumbers,
) -> Status
    ensures ok { result ≡ OK → (a : ServerAddress) × IsAddressOf address.now a × IsStepped slot.old.word.value slot.new.word.value at.now.seat (step_at at.now (act.Beat a pool)) reply.new }
    ensures other { result ≢ OK → (slot.new.word.value ≡ slot.old.word.value) × (reply.new ≡ reply.old) }
    ensures malformed { result ≡ MALFORMED → (a : ServerAddress) → IsAddressOf address.now a → ⊥ }
    ensures closed { result ≡ CLOSED → slot.old.word.value ≡ None }
    ensures answers { result ≢ OK → result ≢ NO_MEMORY → result ≢ MALFORMED → result ≡ CLOSED }
{
    match address_in(alloc, address) {
        Ok(address) => slot.step(alloc, at, Act::Beat(address, pool), reply),
        Err(why) => status_of(why),
    }
}

/// A watcher, by its number, wants the servers checked at once (SDAM monitoring, "Requesting an immediate check").
#[unsafe(no_mangle)]
pub extern "C" fn mdb_want(
    alloc: Global,
    slot: &mut Slot,
    at: &At,
    watcher: u32,
    reply: &mut ReplyNumbers,
) -> Status
    ensures ok { result ≡ OK → IsStepped slot.old.word.value slot.new.word.value at.now.seat (step_at at.now (act.Want watcher)) reply.new }
    ensures other { result ≢ OK → (slot.new.word.value ≡ slot.old.word.value) × (reply.new ≡ reply.old) }
    ensures formed { result ≢ MALFORMED }
    ensures closed { (result ≡ CLOSED) ↔ (slot.old.word.value ≡ None) }
    ensures answers { result ≢ OK → result ≢ NO_MEMORY → result ≡ CLOSED }
{
    slot.step(alloc, at, Act::Want(watcher), reply)
}

/// A watcher no longer wants it.
#[unsafe(no_mangle)]
pub extern "C" fn mdb_unwant(
    alloc: Global,
    slot: &mut Slot,
    at: &At,
    watcher: u32,
    reply: &mut ReplyNumbers,
) -> Status
    ensures ok { result ≡ OK → IsStepped slot.old.word.value slot.new.word.value at.now.seat (step_at at.now (act.Unwant watcher)) reply.new }
    ensures other { result ≢ OK → (slot.new.word.value ≡ slot.old.word.value) × (reply.new ≡ reply.old) }
    ensures formed { result ≢ MALFORMED }
    ensures closed { (result ≡ CLOSED) ↔ (slot.old.word.value ≡ None) }
    ensures answers { result ≢ OK → result ≢ NO_MEMORY → result ≡ CLOSED }
{
    slot.step(alloc, at, Act::Unwant(watcher), reply)
}

/// A reply told this time of the cluster (sessions, "Gossipping the cluster time").
#[unsafe(no_mangle)]
pub extern "C" fn mdb_cluster_time(
    alloc: Global,
    slot: &mut Slot,
    at: &At,
    time: u64,
    reply: &mut ReplyNumbers,
) -> Status
    ensures ok { result ≡ OK → IsStepped slot.old.word.value slot.new.word.value at.now.seat (step_at at.now (act.ClusterTime (cluster time))) reply.new }
    ensures other { result ≢ OK → (slot.new.word.value ≡ slot.old.word.value) × (reply.new ≡ reply.old) }
    ensures formed { result ≢ MALFORMED }
    ensures closed { (result ≡ CLOSED) ↔ (slot.old.word.value ≡ None) }
    ensures answers { result ≢ OK → result ≢ NO_MEMORY → result ≡ CLOSED }
{
    slot.step(alloc, at, Act::ClusterTime(ClusterTime(time)), reply)
}
