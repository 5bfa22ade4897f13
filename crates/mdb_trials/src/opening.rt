//! Shared drivers and their seats.

ghost use Rattle.std.specs.Prelude.{◌≡◌, ◌≤◌, IfSome, length};
ghost use Rattle.mdb_shared.specs.Seats.{AllOf};

use mdb_log::{Core, Log};
use mdb_shared::{Seat, SharedDriver, Unclosed};
use std::alloc::Global;

/// A driver of this core and log, and its seats.
pub fn opened<C: Core>(
    alloc: Global,
    core: C,
    log: Log,
    seats: u32,
) -> Option<(SharedDriver<C>, Vec<Seat<C>>)>
    requires stands { C.stands core log }
    requires seats { (1 ≤ seats) × (seats ≤ 64) }
    ensures count { IfSome result (λ r. length r.1.items ≡ seats) }
    ensures own { IfSome result (λ r. AllOf r.0.id r.1.items) }
{
    SharedDriver::new(alloc, core, log, seats).ok()
}

/// A driver of this core and log, and its two seats.
pub fn pair<C: Core>(
    alloc: Global,
    core: C,
    log: Log,
) -> Option<(SharedDriver<C>, Seat<C>, Seat<C>)>
    requires { C.stands core log }
    ensures { IfSome result (λ r. (r.1.driver ≡ r.0.id) × (r.2.driver ≡ r.0.id)) }
{
    let (driver, mut seats) = opened(alloc, core, log, 2)?;
    let second = seats.pop().unwrap();
    let first = seats.pop().unwrap();
    drop(seats);
    Some((driver, first, second))
}

/// Whether there was memory for one more seat of the driver.
pub fn keep<C: Core>(driver: &SharedDriver<C>, seats: &mut Vec<Seat<C>>, seat: Seat<C>) -> bool
    requires own { AllOf driver.now.id seats.old.items }
    requires seat { seat.driver ≡ driver.now.id }
    ensures own { AllOf driver.now.id seats.new.items }
{
    match seats.push(seat) {
        Ok(()) => true,
        Err(_) => false,
    }
}

// What a driver of two seats closes to, where one more seat comes and was the only one that was missing.
fn close_with<C: Core>(unclosed: Unclosed<C>, seat: Seat<C>) -> Option<(C, Log)>
    requires own { AllOf unclosed.driver.id unclosed.seats.items }
    requires seat { seat.driver ≡ unclosed.driver.id }
{
    let Unclosed {
        driver,
        mut seats,
        missing,
    } = unclosed;
    if missing != 1 || !keep(&driver, &mut seats, seat) {
        drop(driver);
        drop(seats);
        return None;
    }
    let (core, journal) = driver.close(seats).ok()?;
    match journal.whole() {
        Ok(log) => Some((core, log)),
        Err(journal) => {
            drop(core);
            drop(journal);
            None
        }
    }
}

/// The log of a driver and all its seats, of which nobody took an entry.
pub fn log_of<C: Core>(driver: SharedDriver<C>, seats: Vec<Seat<C>>) -> Option<Log>
    requires { AllOf driver.id seats.items }
{
    match driver.close(seats) {
        Ok((core, journal)) => {
            drop(core);
            journal.whole().ok()
        }
        Err(unclosed) => {
            drop(unclosed);
            None
        }
    }
}

fn close_by<C: Core>(
    driver: SharedDriver<C>,
    seats: Vec<Seat<C>>,
    last: Seat<C>,
) -> Option<(C, Log)>
    requires own { AllOf driver.id seats.items }
    requires last { last.driver ≡ driver.id }
{
    match driver.close(seats) {
        Ok(early) => {
            drop(early);
            drop(last);
            None
        }
        Err(unclosed) => close_with(unclosed, last),
    }
}

/// The core and the log, where one seat alone doesn't close the driver, and both do.
pub fn close_late<C: Core>(
    alloc: Global,
    driver: SharedDriver<C>,
    first: Seat<C>,
    second: Seat<C>,
) -> Option<(C, Log)>
    requires { (first.driver ≡ driver.id) × (second.driver ≡ driver.id) }
{
    let mut seats = Vec::new(alloc);
    if !keep(&driver, &mut seats, second) {
        drop(driver);
        drop(first);
        drop(seats);
        return None;
    }
    close_by(driver, seats, first)
}
