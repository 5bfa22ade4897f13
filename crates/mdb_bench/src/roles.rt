//! What each thread does at its seat: the first establishes connections, the second takes the entries and stops the driver, all others are clients.

ghost use Rattle.std.specs.Prelude.{◌≡◌};

use crate::errors::BenchError;
use crate::hall::Hall;
use crate::opening::{address_of, addresses, no_error};
use crate::plan::Kind;
use mdb_base::ServerAddress;
use mdb_handles::{CheckOutError, Handle};
use mdb_journal::Taken;
use mdb_log::{Core, Established, PooledConnection, Use};
use mdb_shared::{Seat, SharedDriver};
use mdb_workers::{Access, MemEstablisher, OpenGate, Unreturned, stop};
use std::alloc::Global;
use std::rt::Clock;
use std::sync::Wait;
use std::time::Duration;

// How long the second sleeps at most before it looks for entries again, in milliseconds.
const PAUSE: u64 = 5;

// Each so many rounds a client drops its connection in the midst of an operation, where nobody takes an entry.
const DROPS: u32 = 10;

const WORKER: u32 = 0;

const TAKER: u32 = 1;

/// A part that was played: the seat comes back.
#[derive(Drop)]
pub struct Played<C: Core> {
    pub seat: Seat<C>,
    pub done: Result<(), BenchError>,
}

// Checks a connection out at the address. A request that may be open where memory runs out is given up, so that nobody waits for its connection.
fn take_out<C: Core, R: Wait>(
    me: &mut Handle<'_, C, R>,
    address: ServerAddress,
) -> Result<PooledConnection, BenchError>
    ensures own { me.new.seat.driver ≡ me.old.seat.driver }
{
    let Some(request) = me.take_numbers(1) else {
        drop(address);
        return Err(BenchError::Number);
    };
    match me.check_out(request, address) {
        Ok(connection) => Ok(connection),
        Err(CheckOutError::OutOfMemory) => {
            drop(me.abandon(request));
            Err(BenchError::OutOfMemory)
        }
        Err(why) => {
            drop(why);
            Err(BenchError::Answer)
        }
    }
}

// Checks a connection in.
fn bring_back<C: Core, R: Wait>(
    me: &mut Handle<'_, C, R>,
    connection: PooledConnection,
    used: Use,
) -> Result<(), BenchError>
    ensures own { me.new.seat.driver ≡ me.old.seat.driver }
{
    match me.hand_back(connection, used) {
        Ok(()) => Ok(()),
        Err(unreturned) => {
            let Unreturned { connection, why: _ } = unreturned;
            let PooledConnection {
                pool: _,
                id: _,
                party: _,
            } = connection;
            Err(BenchError::Answer)
        }
    }
}

// How the connection was used in this round.
fn used(hall: &Hall, round: u32) -> Use {
    if round % DROPS == 0 && matches!(hall.plan.kind, Kind::Kept) {
        return Use::Dropped;
    }
    Use::Ok
}

// One connection out and in, at the server whose turn it is.
fn round<C: Core, R: Wait>(
    me: &mut Handle<'_, C, R>,
    addresses: &[ServerAddress],
    at: u32,
    hall: &Hall,
) -> Result<(), BenchError>
    ensures own { me.new.seat.driver ≡ me.old.seat.driver }
{
    let server = at.checked_rem(hall.plan.servers).unwrap_or(0);
    let address = address_of(addresses, server)?;
    let connection = take_out(me, address)?;
    bring_back(me, connection, used(hall, at))
}

// All rounds of a client.
fn ask_all<C: Core, R: Wait>(
    me: &mut Handle<'_, C, R>,
    addresses: &[ServerAddress],
    hall: &Hall,
) -> Result<(), BenchError>
    ensures own { me.new.seat.driver ≡ me.old.seat.driver }
{
    for at in 0..hall.plan.rounds {
        round(me, addresses, at, hall)?;
        hall.note_returned();
    }
    Ok(())
}

// A client: all its rounds.
fn ask<C: Core, R: Wait>(
    me: &mut Handle<'_, C, R>,
    alloc: Global,
    hall: &Hall,
) -> Result<(), BenchError>
    ensures own { me.new.seat.driver ≡ me.old.seat.driver }
{
    let addresses = addresses(alloc, hall.plan.servers)?;
    let asked = ask_all(me, addresses.as_slice(), hall);
    drop(addresses);
    asked
}

// A worker: establishes connections until the driver stops, and always succeeds.
fn establish<C: Core, R: Wait>(me: &mut Handle<'_, C, R>, alloc: Global)
    ensures own { me.new.seat.driver ≡ me.old.seat.driver }
{
    let made = Established {
        wire: 21,
        service_id: None,
        server_id: None,
    };
    let mut establisher = MemEstablisher::new(alloc, made, no_error(alloc), Vec::new(alloc));
    me.serve(&mut establisher, &mut OpenGate);
    drop(establisher);
}

// What a client or a worker does.
fn attend<C: Core, R: Wait>(
    me: &mut Handle<'_, C, R>,
    alloc: Global,
    number: u32,
    hall: &Hall,
) -> Result<(), BenchError>
    ensures own { me.new.seat.driver ≡ me.old.seat.driver }
{
    if number == WORKER {
        establish(me, alloc);
        return Ok(());
    }
    let asked = ask(me, alloc, hall);
    hall.leave();
    asked
}

// A client or a worker plays its part.
fn play_by_handle<C: Core, R: Wait>(
    driver: &SharedDriver<C>,
    rt: &R,
    alloc: Global,
    seat: Seat<C>,
    hall: &Hall,
) -> Played<C>
    requires own { seat.driver ≡ driver.now.id }
    ensures own { result.seat.driver ≡ driver.now.id }
{
    let number = seat.number();
    let mut me = Handle::new(driver, rt, alloc, seat);
    let done = attend(&mut me, alloc, number, hall);
    Played {
        seat: me.into_seat(),
        done,
    }
}

// Takes the entries that are there, where they are to be taken, and lets them go. Answers how many entries it has no need to be told of.
fn take_more<C: Core, R: Wait>(
    access: &Access<'_, C, R>,
    seat: &mut Seat<C>,
    hall: &Hall,
) -> Result<u64, BenchError>
    requires own { seat.old.driver ≡ access.now.driver.now.id }
    ensures own { seat.new.driver ≡ seat.old.driver }
{
    if matches!(hall.plan.kind, Kind::Kept) {
        return Ok(u64::MAX);
    }
    let Taken { from, entries } = access.driver.take(access.rt, access.alloc, seat);
    let count = from.saturating_add(entries.len() as u64);
    drop(entries);
    if from != hall.taken() {
        return Err(BenchError::Missing);
    }
    hall.note_taken(count);
    Ok(count)
}

// Takes the entries until all clients have left.
fn take_all<C: Core, R: Wait>(
    access: &Access<'_, C, R>,
    seat: &mut Seat<C>,
    hall: &Hall,
) -> Result<(), BenchError>
    requires own { seat.old.driver ≡ access.now.driver.now.id }
    ensures own { seat.new.driver ≡ seat.old.driver }
{
    for _ in access.rt.forever() {
        let is_over = hall.is_empty();
        let count = take_more(access, seat, hall)?;
        if is_over {
            return Ok(());
        }
        access
            .driver
            .sleep_for(access.rt, count, Duration::from_millis(PAUSE));
    }
    unreachable!()
}

// The entries are taken until the clients have left, and the driver is stopped.
fn take_and_stop<C: Core, R: Wait>(
    driver: &SharedDriver<C>,
    rt: &R,
    alloc: Global,
    mut seat: Seat<C>,
    hall: &Hall,
) -> Played<C>
    requires own { seat.driver ≡ driver.now.id }
    ensures own { result.seat.driver ≡ driver.now.id }
{
    let access = Access { driver, rt, alloc };
    let done = take_all(&access, &mut seat, hall);
    stop(&access, &mut seat);
    Played { seat, done }
}

/// What a thread does, where all can begin.
pub fn play<C: Core, R: Wait + Clock>(
    driver: &SharedDriver<C>,
    rt: &R,
    alloc: Global,
    seat: Seat<C>,
    hall: &Hall,
) -> Played<C>
    requires own { seat.driver ≡ driver.now.id }
    ensures own { result.seat.driver ≡ driver.now.id }
{
    if !hall.start.begin(rt) {
        return Played {
            seat,
            done: Err(BenchError::Thread),
        };
    }
    if seat.number() == TAKER {
        return take_and_stop(driver, rt, alloc, seat, hall);
    }
    play_by_handle(driver, rt, alloc, seat, hall)
}
