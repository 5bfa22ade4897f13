//! The steps of workers, who establish connections, and of pins.

ghost use Rattle.std.specs.Prelude.{◌≡◌, ◌≢◌, ◌↔◌, None, Some};
ghost use Rattle.mdb_log.specs.declared.step.Established.{Established};
ghost use Rattle.mdb_log.specs.declared.step.Act.TheVariants as act;
ghost use Rattle.mdb_c.specs.Calls.{made_of, server_of, service_of};
ghost use Rattle.mdb_session.specs.Sessions.{IsStepped, step_at};

use mdb_base::ObjectId;
use mdb_log::{Act, Established};
use mdb_session::{At, CLOSED, MALFORMED, NO_MEMORY, OK, ReplyNumbers, Slot, Status, text_in};
use std::alloc::Global;

/// A connection, by the number of its pool and its own.
#[repr(C)]
#[derive(Clone, Copy, Debug, PartialEq, Eq)]
pub struct ConnectionNumbers {
    /// The pool, counted from 0 in the order in which they were opened.
    pub pool: u32,
    /// The connection, counted from 1 within its pool.
    pub id: u32,
}

/// What establishing a connection found out.
#[repr(C)]
#[derive(Clone, Copy, Debug, PartialEq, Eq)]
pub struct EstablishedNumbers {
    /// The pool.
    pub pool: u32,
    /// The connection.
    pub id: u32,
    /// The greatest wire version of the server, which is not negative.
    pub wire: i32,
    /// The server's own number of the connection, negative where it told none.
    pub server_id: i64,
}

/// A worker asks for a connection to establish (CMAP, "Establishing a Connection").
#[unsafe(no_mangle)]
pub extern "C" fn mdb_claim(
    alloc: Global,
    slot: &mut Slot,
    at: &At,
    reply: &mut ReplyNumbers,
) -> Status
    ensures ok { result ≡ OK → IsStepped slot.old.word.value slot.new.word.value at.now.seat (step_at at.now act.Claim) reply.new }
    ensures other { result ≢ OK → (slot.new.word.value ≡ slot.old.word.value) × (reply.new ≡ reply.old) }
    ensures formed { result ≢ MALFORMED }
    ensures closed { (result ≡ CLOSED) ↔ (slot.old.word.value ≡ None) }
    ensures answers { result ≢ OK → result ≢ NO_MEMORY → result ≡ CLOSED }
{
    slot.step(alloc, at, Act::Claim, reply)
}

fn server_of(number: i64) -> Option<i64>
    ensures { result ≡ server_of number }
{
    if 0 <= number { Some(number) } else { None }
}

/// The service of 24 hex digits, and none for no bytes. `None` where the bytes are neither.
pub fn service_in(bytes: &[u8]) -> Option<Option<ObjectId>>
    ensures { result ≡ service_of bytes.now }
{
    if bytes.is_empty() {
        return Some(None);
    }
    let Some(text) = text_in(bytes) else {
        return None;
    };
    match ObjectId::from_hex(text) {
        Some(id) => Some(Some(id)),
        None => None,
    }
}

/// What is told of an established connection.
pub fn made_of(made: &EstablishedNumbers, service: &[u8]) -> Option<Established>
    ensures { result ≡ made_of made.now service.now }
{
    if made.wire < 0 {
        return None;
    }
    match service_in(service) {
        Some(service_id) => Some(Established {
            wire: made.wire,
            service_id,
            server_id: server_of(made.server_id),
        }),
        None => None,
    }
}

/// A pending connection was established (CMAP, "Establishing a Connection"). `service` is the service behind the load balancer, in 24 hex digits, or
/// no bytes. `MALFORMED` where it is neither, or the wire version is negative.
#[unsafe(no_mangle)]
pub extern "C" fn mdb_established(
    alloc: Global,
    slot: &mut Slot,
    at: &At,
    made: &EstablishedNumbers,
    service: &[u8],
    reply: &mut ReplyNumbers,
) -> Status
    ensures ok { result ≡ OK → (e : Established) × (made_of made.now service.now ≡ Some e) × IsStepped slot.old.word.value slot.new.word.value at.now.seat (step_at at.now (act.Established made.now.pool made.now.id e)) reply.new }
    ensures other { result ≢ OK → (slot.new.word.value ≡ slot.old.word.value) × (reply.new ≡ reply.old) }
    ensures malformed { (result ≡ MALFORMED) ↔ (made_of made.now service.now ≡ None) }
    ensures closed { result ≡ CLOSED → slot.old.word.value ≡ None }
    ensures answers { result ≢ OK → result ≢ NO_MEMORY → result ≢ MALFORMED → result ≡ CLOSED }
{
    match made_of(made, service) {
        Some(told) => slot.step(alloc, at, Act::Established(made.pool, made.id, told), reply),
        None => MALFORMED,
    }
}

/// A party pins its connection, so that it stays with its session when it comes back.
#[unsafe(no_mangle)]
pub extern "C" fn mdb_pin(
    alloc: Global,
    slot: &mut Slot,
    at: &At,
    party: u32,
    reply: &mut ReplyNumbers,
) -> Status
    ensures ok { result ≡ OK → IsStepped slot.old.word.value slot.new.word.value at.now.seat (step_at at.now (act.Pin party)) reply.new }
    ensures other { result ≢ OK → (slot.new.word.value ≡ slot.old.word.value) × (reply.new ≡ reply.old) }
    ensures formed { result ≢ MALFORMED }
    ensures closed { (result ≡ CLOSED) ↔ (slot.old.word.value ≡ None) }
    ensures answers { result ≢ OK → result ≢ NO_MEMORY → result ≡ CLOSED }
{
    slot.step(alloc, at, Act::Pin(party), reply)
}

/// One pin more of a pinned connection.
#[unsafe(no_mangle)]
pub extern "C" fn mdb_replicate(
    alloc: Global,
    slot: &mut Slot,
    at: &At,
    connection: &ConnectionNumbers,
    reply: &mut ReplyNumbers,
) -> Status
    ensures ok { result ≡ OK → IsStepped slot.old.word.value slot.new.word.value at.now.seat (step_at at.now (act.Replicate connection.now.pool connection.now.id)) reply.new }
    ensures other { result ≢ OK → (slot.new.word.value ≡ slot.old.word.value) × (reply.new ≡ reply.old) }
    ensures formed { result ≢ MALFORMED }
    ensures closed { (result ≡ CLOSED) ↔ (slot.old.word.value ≡ None) }
    ensures answers { result ≢ OK → result ≢ NO_MEMORY → result ≡ CLOSED }
{
    slot.step(
        alloc,
        at,
        Act::Replicate(connection.pool, connection.id),
        reply,
    )
}

/// A new party takes a pinned connection.
#[unsafe(no_mangle)]
pub extern "C" fn mdb_take(
    alloc: Global,
    slot: &mut Slot,
    at: &At,
    party: u32,
    connection: &ConnectionNumbers,
    reply: &mut ReplyNumbers,
) -> Status
    ensures ok { result ≡ OK → IsStepped slot.old.word.value slot.new.word.value at.now.seat (step_at at.now (act.Take party connection.now.pool connection.now.id)) reply.new }
    ensures other { result ≢ OK → (slot.new.word.value ≡ slot.old.word.value) × (reply.new ≡ reply.old) }
    ensures formed { result ≢ MALFORMED }
    ensures closed { (result ≡ CLOSED) ↔ (slot.old.word.value ≡ None) }
    ensures answers { result ≢ OK → result ≢ NO_MEMORY → result ≡ CLOSED }
{
    slot.step(
        alloc,
        at,
        Act::Take(party, connection.pool, connection.id),
        reply,
    )
}

/// One pin less of a pinned connection.
#[unsafe(no_mangle)]
pub extern "C" fn mdb_unpin(
    alloc: Global,
    slot: &mut Slot,
    at: &At,
    connection: &ConnectionNumbers,
    reply: &mut ReplyNumbers,
) -> Status
    ensures ok { result ≡ OK → IsStepped slot.old.word.value slot.new.word.value at.now.seat (step_at at.now (act.Unpin connection.now.pool connection.now.id)) reply.new }
    ensures other { result ≢ OK → (slot.new.word.value ≡ slot.old.word.value) × (reply.new ≡ reply.old) }
    ensures formed { result ≢ MALFORMED }
    ensures closed { (result ≡ CLOSED) ↔ (slot.old.word.value ≡ None) }
    ensures answers { result ≢ OK → result ≢ NO_MEMORY → result ≡ CLOSED }
{
    slot.step(alloc, at, Act::Unpin(connection.pool, connection.id), reply)
}
