//! Threads at a shared driver: clients check connections out and in, a worker establishes them, and one takes the entries or leaves them.

ghost use Rattle.std.specs.Prelude.{◌≡◌, All, IfOk};
ghost use Rattle.mdb_bench.specs.Plans.{IsWithin};

use crate::errors::BenchError;
use crate::hall::Hall;
use crate::opening::{addresses, hello, open};
use crate::plan::Plan;
use crate::roles::{Played, play};
use mdb_base::ServerAddress;
use mdb_journal::Journal;
use mdb_log::{Core, Log, Step};
use mdb_shared::{Seat, SharedDriver};
use std::alloc::Global;
use std::rt::Clock;
use std::sync::Wait;
use std::thread::{Threads, map_vec};
use std::time::Instant;

/// What the threads have come to.
#[derive(Clone, Copy)]
pub struct Shared {
    /// Connections that were checked out and in.
    pub returned: u64,
    /// Entries that came.
    pub entries: u64,
    /// Whether each entry that is gone was taken.
    pub taken_all: bool,
    /// How long it took, with the opening and the start of the threads.
    pub micros: u64,
}

// The seats come back, where each part was done.
fn seats_of<C: Core>(
    driver: &SharedDriver<C>,
    alloc: Global,
    played: Vec<Played<C>>,
) -> Result<Vec<Seat<C>>, BenchError>
    requires own { All (λ p. p.seat.driver ≡ driver.now.id) played.items }
    ensures own { IfOk result (λ seats. All (λ s. s.driver ≡ driver.now.id) seats.items) }
{
    let mut seats = Vec::new(alloc);
    let mut all_done = Ok(());
    for Played { seat, done } in played {
        all_done = all_done.and(done);
        seats.push(seat)?;
    }
    match all_done {
        Ok(()) => Ok(seats),
        Err(why) => {
            drop(seats);
            Err(why)
        }
    }
}

// Each part in a thread of its own; the seats come back.
fn play_all<C: Core, R: Threads + Wait + Clock + Sync>(
    driver: &SharedDriver<C>,
    rt: &R,
    alloc: Global,
    seats: Vec<Seat<C>>,
    hall: &Hall,
) -> Result<Vec<Seat<C>>, BenchError>
    requires own { All (λ s. s.driver ≡ driver.now.id) seats.items }
    ensures own { IfOk result (λ seats. All (λ s. s.driver ≡ driver.now.id) seats.items) }
{
    let played = map_vec(
        rt,
        seats,
        &move |seat: Seat<C>| -> Played<C>
            requires { seat.driver ≡ driver.now.id }
            ensures { result.seat.driver ≡ driver.entry.now.id }
        { play(driver, rt, alloc, seat, hall) },
    )?;
    seats_of(driver, alloc, played)
}

fn told(journal: Journal, hall: &Hall) -> Shared {
    let (entries, gone) = (journal.len(), journal.gone());
    drop(journal);
    Shared {
        returned: hall.returned(),
        entries,
        taken_all: gone == hall.taken(),
        micros: 0,
    }
}

// What the threads of a driver have come to whose seats have come back.
fn closed<C: Core>(
    driver: SharedDriver<C>,
    seats: Vec<Seat<C>>,
    hall: &Hall,
) -> Result<Shared, BenchError>
    requires own { All (λ s. s.driver ≡ driver.id) seats.items }
{
    match driver.close(seats) {
        Ok((core, journal)) => {
            drop(core);
            Ok(told(journal, hall))
        }
        Err(unclosed) => {
            drop(unclosed);
            Err(BenchError::Seat)
        }
    }
}

// Each part is played, and the driver is closed.
fn play_and_close<C: Core, R: Threads + Wait + Clock + Sync>(
    driver: SharedDriver<C>,
    rt: &R,
    alloc: Global,
    seats: Vec<Seat<C>>,
    hall: &Hall,
) -> Result<Shared, BenchError>
    requires own { All (λ s. s.driver ≡ driver.id) seats.items }
{
    match play_all(&driver, rt, alloc, seats, hall) {
        Ok(seats) => closed(driver, seats, hall),
        Err(why) => {
            drop(driver);
            Err(why)
        }
    }
}

// Each server greets, so that its pool becomes ready.
fn greet<C: Core>(
    core: &mut C,
    journal: &mut Journal,
    alloc: Global,
    addresses: &[ServerAddress],
    servers: u32,
) -> Result<(), BenchError>
    requires stands { C.stands core.old journal.old.all }
    ensures stands { C.stands core.new journal.new.all }
{
    for server in 0..servers {
        let act = hello(alloc, addresses, server, server)?;
        let step = Step { moment: 0, act };
        let greeted = journal.step(core, alloc, 0, &step);
        drop(step);
        drop(greeted?);
    }
    Ok(())
}

// All servers greet.
fn greet_all<C: Core>(
    core: &mut C,
    journal: &mut Journal,
    alloc: Global,
    servers: u32,
) -> Result<(), BenchError>
    requires stands { C.stands core.old journal.old.all }
    ensures stands { C.stands core.new journal.new.all }
{
    let addresses = addresses(alloc, servers)?;
    let greeted = greet(core, journal, alloc, addresses.as_slice(), servers);
    drop(addresses);
    greeted
}

// The threads do their rounds at a driver of this core, whose servers have greeted.
fn share<C: Core, R: Threads + Wait + Clock + Sync>(
    rt: &R,
    alloc: Global,
    core: C,
    journal: Journal,
    plan: Plan,
) -> Result<Shared, BenchError>
    requires stands { C.stands core journal.all }
    requires within { IsWithin plan }
{
    let Ok(log) = journal.whole() else {
        drop(core);
        return Err(BenchError::Missing);
    };
    let (driver, seats) = SharedDriver::new(alloc, core, log, plan.threads + 2)?;
    let hall = Hall::new(plan, plan.threads + 2);
    let shared = play_and_close(driver, rt, alloc, seats, &hall);
    drop(hall);
    shared
}

// The servers of a driver of this core greet, and the threads do their rounds.
fn greet_and_share<C: Core, R: Threads + Wait + Clock + Sync>(
    rt: &R,
    alloc: Global,
    mut core: C,
    log: Log,
    plan: Plan,
) -> Result<Shared, BenchError>
    requires stands { C.stands core log }
    requires within { IsWithin plan }
{
    let mut journal = Journal::of(log);
    match greet_all(&mut core, &mut journal, alloc, plan.servers) {
        Ok(()) => share(rt, alloc, core, journal, plan),
        Err(why) => {
            drop(core);
            drop(journal);
            Err(why)
        }
    }
}

// The rounds of the plan, by threads at a shared driver.
fn open_and_share<R: Threads + Wait + Clock + Sync>(
    rt: &R,
    alloc: Global,
    plan: Plan,
) -> Result<Shared, BenchError>
    requires { IsWithin plan }
{
    let (core, log) = open(alloc, plan)?;
    greet_and_share(rt, alloc, core, log, plan)
}

/// The rounds of the plan, by threads at a shared driver, and how long they took.
pub fn run_shared<R: Threads + Wait + Clock + Sync>(
    rt: &R,
    alloc: Global,
    plan: Plan,
) -> Result<Shared, BenchError>
    requires { IsWithin plan }
{
    let Ok(start) = Instant::now(rt) else {
        return Err(BenchError::Clock);
    };
    let shared = open_and_share(rt, alloc, plan)?;
    let Ok(time) = start.elapsed(rt) else {
        return Err(BenchError::Clock);
    };
    let seconds = time.as_secs().saturating_mul(1_000_000);
    Ok(Shared {
        micros: seconds.saturating_add(time.subsec_micros() as u64),
        ..shared
    })
}
