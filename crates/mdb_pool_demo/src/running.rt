//! A run of one driver: each of its seats goes to a thread.

ghost use Rattle.std.specs.Prelude.{◌≡◌, All};

use crate::errors::DemoError;
use crate::opening::open;
use crate::roles::play;
use mdb_log::{Core, Log};
use mdb_shared::{Seat, SharedDriver};
use mdb_workers::StartBarrier;
use std::alloc::Global;
use std::rt::Clock;
use std::sync::Wait;
use std::sync::atomic::{AtomicU64, Ordering};
use std::thread::{Threads, map_vec};

// A worker, a clock, a monitor and two clients.
const SEATS: u32 = 5;

/// What the threads share beside the driver: all begin or none does, the clients that are left, and how often the topology was published.
#[derive(Drop)]
pub struct Hall {
    pub start: StartBarrier,
    pub clients: AtomicU64,
    pub published: AtomicU64,
}

// Each seat in a thread of its own.
fn play_all<C: Core, R: Threads + Wait + Clock + Sync>(
    driver: &SharedDriver<C>,
    rt: &R,
    alloc: Global,
    seats: Vec<Seat<C>>,
    hall: &Hall,
) -> Result<(), DemoError>
    requires own { All (λ s. s.driver ≡ driver.now.id) seats.items }
{
    let played = map_vec(
        rt,
        seats,
        &move |seat: Seat<C>| -> Result<(), DemoError>
            requires { seat.driver ≡ driver.now.id }
        { play(driver, rt, alloc, seat, hall) },
    )?;
    for done in played {
        done?;
    }
    Ok(())
}

// A run of a driver of this core.
fn run_over<C: Core, R: Threads + Wait + Clock + Sync>(
    rt: &R,
    alloc: Global,
    core: C,
    log: Log,
) -> Result<u64, DemoError>
    requires stands { C.stands core log }
{
    let (driver, seats) = SharedDriver::new(alloc, core, log, SEATS)?;
    let hall = Hall {
        start: StartBarrier::new(SEATS),
        clients: AtomicU64::new(2),
        published: AtomicU64::new(0),
    };
    let played = play_all(&driver, rt, alloc, seats, &hall);
    drop(driver);
    let published = hall.published.load(Ordering::SeqCst);
    drop(hall);
    played?;
    Ok(published)
}

/// A run: how often the topology was published.
pub fn run<R: Threads + Wait + Clock + Sync>(rt: &R, alloc: Global) -> Result<u64, DemoError> {
    let (core, log) = open(alloc)?;
    run_over(rt, alloc, core, log)
}
