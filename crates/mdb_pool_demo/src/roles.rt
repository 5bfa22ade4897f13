//! What each thread does at its seat: a worker, a clock, a monitor that also watches, and clients.

ghost use Rattle.std.specs.Prelude.{◌≡◌};

use crate::errors::DemoError;
use crate::opening::{address, hello};
use crate::running::Hall;
use mdb_base::{Error, ErrorKind, Items, Text};
use mdb_handles::{CheckOutError, Handle, TopologyWatcher};
use mdb_log::{Core, Established, PooledConnection, Use};
use mdb_shared::{Seat, SharedDriver};
use mdb_workers::{MemEstablisher, OpenGate, Unreturned};
use std::alloc::Global;
use std::rt::Clock;
use std::sync::Wait;
use std::sync::atomic::Ordering;
use std::time::{Duration, Instant};

// The number of the monitor's seat.
const MONITOR: u32 = 2;

// How long the clock sleeps between two ticks, in milliseconds, and how often each client checks a connection out.
const TICK: u64 = 10;

const ROUNDS: u32 = 20;

// A worker: establishes connections until the driver stops, by an establisher that opens no socket and always succeeds.
fn establish<C: Core, R: Wait>(me: &mut Handle<'_, C, R>, alloc: Global) {
    let made = Established {
        wire: 21,
        service_id: None,
        server_id: None,
    };
    let error = Error {
        kind: ErrorKind::Network,
        labels: Items::new(Vec::new(alloc)),
        topology_version: None,
        message: Text::new(String::new(alloc)),
    };
    let mut establisher = MemEstablisher::new(alloc, made, error, Vec::new(alloc));
    me.serve(&mut establisher, &mut OpenGate);
    drop(establisher);
}

// The clock: lets time enter until the driver stops. Where it can't be read no time would pass, so the driver is stopped.
fn tell_time<C: Core, R: Wait + Clock>(me: &mut Handle<'_, C, R>, rt: &R) -> Result<(), DemoError> {
    let Ok(start) = Instant::now(rt) else {
        me.stop();
        return Err(DemoError::Clock);
    };
    me.keep_time(start, Duration::from_millis(TICK));
    Ok(())
}

// Asks for a check, and follows the topology until the driver stops.
fn follow<C: Core, R: Wait>(
    me: &mut Handle<'_, C, R>,
    rt: &R,
    watcher: &mut TopologyWatcher,
    hall: &Hall,
) -> Result<(), DemoError> {
    me.request_immediate_check(watcher)?;
    for _ in rt.forever() {
        if !me.await_update(watcher)? {
            break;
        }
    }
    let state = me.observe_latest(watcher)?;
    hall.published.store(state.published, Ordering::SeqCst);
    drop(state);
    Ok(())
}

// A watcher. What it asked for is taken back at the end.
fn watch<C: Core, R: Wait>(
    me: &mut Handle<'_, C, R>,
    rt: &R,
    hall: &Hall,
) -> Result<(), DemoError> {
    let mut watcher = TopologyWatcher::new(1);
    let watched = follow(me, rt, &mut watcher, hall);
    me.dismiss(watcher);
    watched
}

// Checks a connection out. A request that may be open where memory runs out is given up.
fn take_out<C: Core, R: Wait>(
    me: &mut Handle<'_, C, R>,
    alloc: Global,
    request: u32,
) -> Result<PooledConnection, DemoError> {
    let address = address(alloc)?;
    match me.check_out(request, address) {
        Ok(connection) => Ok(connection),
        Err(CheckOutError::OutOfMemory) => {
            drop(me.abandon(request));
            Err(DemoError::OutOfMemory)
        }
        Err(why) => {
            drop(why);
            Err(DemoError::Request)
        }
    }
}

// One round of a client. An operation stands between the two calls.
fn round<C: Core, R: Wait>(me: &mut Handle<'_, C, R>, alloc: Global) -> Result<(), DemoError> {
    let Some(request) = me.take_numbers(1) else {
        return Err(DemoError::Request);
    };
    let connection = take_out(me, alloc, request)?;
    match me.hand_back(connection, Use::Ok) {
        Ok(()) => Ok(()),
        Err(unreturned) => {
            let Unreturned { connection, why: _ } = unreturned;
            let PooledConnection {
                pool: _,
                id: _,
                party: _,
            } = connection;
            Err(DemoError::Return)
        }
    }
}

// A client. The last one that leaves stops the driver, whatever came before.
fn visit<C: Core, R: Wait>(
    me: &mut Handle<'_, C, R>,
    alloc: Global,
    hall: &Hall,
) -> Result<(), DemoError> {
    let mut asked = Ok(());
    for _ in 0..ROUNDS {
        if asked.is_ok() {
            asked = round(me, alloc);
        }
    }
    if hall.clients.fetch_sub(1, Ordering::SeqCst) == 1 {
        me.stop();
    }
    asked
}

// What a server says, as the thread of a monitor tells it.
fn greet<C: Core, R: Wait>(me: &mut Handle<'_, C, R>, alloc: Global) -> Result<(), DemoError> {
    let step = hello(alloc)?;
    drop(me.step(step)?);
    Ok(())
}

/// What the thread of a seat does. The monitor tells what its server says before anybody begins.
pub fn play<C: Core, R: Wait + Clock>(
    driver: &SharedDriver<C>,
    rt: &R,
    alloc: Global,
    seat: Seat<C>,
    hall: &Hall,
) -> Result<(), DemoError>
    requires own { seat.driver ≡ driver.now.id }
{
    let number = seat.number();
    let mut me = Handle::new(driver, rt, alloc, seat);
    let mut done = Ok(());
    if number == MONITOR {
        done = greet(&mut me, alloc);
    }
    if !hall.start.begin(rt) {
        drop(me);
        return Err(DemoError::Thread);
    }
    match number {
        0 => establish(&mut me, alloc),
        1 => done = tell_time(&mut me, rt),
        MONITOR => done = done.and(watch(&mut me, rt, hall)),
        _ => done = visit(&mut me, alloc, hall),
    }
    drop(me);
    done
}
