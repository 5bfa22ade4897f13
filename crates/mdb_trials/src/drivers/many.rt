//! Sixty-four seats on one thread take turns, and the log names them.

ghost use Rattle.std.specs.Prelude.{◌≡◌, All, IfSome};

use super::{Scene, goes_well};
use crate::lines::{Ask, Told, steps};
use crate::opening::{keep, log_of, opened};
use mdb_log::{Core, Log};
use mdb_shared::{Seat, SharedDriver};
use mdb_workers::Access;
use std::alloc::Global;
use std::sync::Wait;
use std::test::Fail;

const SEATS: u32 = 64;

// What is asked in a turn, and what is told: connection 0.1 is requested and established, and then each party returns it and the next one
// requests it.
fn turn_of(turn: u32) -> (Ask, Told) {
    if turn == 0 {
        return (Ask::Request(1), Told::Establishing(0, 1));
    }
    if turn == 1 {
        return (Ask::Established(1), Told::Done);
    }
    if turn % 2 == 0 {
        return (Ask::Return(turn / 2), Told::Done);
    }
    (Ask::Request(turn / 2 + 1), Told::Pooled(0, 1))
}

// Whether the seat's turn is told what it has to be.
fn takes_turn<C: Core, R: Wait>(access: &Access<'_, C, R>, seat: &mut Seat<C>, turn: u32) -> bool
    requires own { seat.old.driver ≡ access.now.driver.now.id }
    ensures own { seat.new.driver ≡ seat.old.driver }
{
    let (ask, told) = turn_of(turn);
    steps(access, seat, 0, ask) == told
}

// Each seat takes one turn, and the seats come back in their order.
fn take_turns<C: Core, R: Wait>(
    access: &Access<'_, C, R>,
    seats: Vec<Seat<C>>,
) -> Option<Vec<Seat<C>>>
    requires own { All (λ s. s.driver ≡ access.now.driver.now.id) seats.items }
    ensures own { IfSome result (λ done. All (λ s. s.driver ≡ access.now.driver.now.id) done.items) }
{
    let mut done = Vec::new(access.alloc);
    let mut turn = 0u32;
    let mut is_well = true;
    for mut seat in seats {
        let is_told = takes_turn(access, &mut seat, turn);
        let is_kept = keep(access.driver, &mut done, seat);
        is_well = is_well && is_told && is_kept;
        turn = turn.wrapping_add(1);
    }
    if is_well {
        return Some(done);
    }
    drop(done);
    None
}

// After the opening, each entry has the number of its seat.
fn names_seats(log: &Log) -> bool {
    let entries = log.entries();
    if entries.len() != SEATS as usize + 1 {
        return false;
    }
    for number in 0..SEATS {
        if entries[number as usize + 1].seat != number {
            return false;
        }
    }
    true
}

// Whether the log of the seats of this driver names them.
fn closes<C: Core>(driver: SharedDriver<C>, seats: Vec<Seat<C>>) -> bool
    requires own { All (λ s. s.driver ≡ driver.id) seats.items }
{
    let Some(log) = log_of(driver, seats) else {
        return false;
    };
    let is_named = names_seats(&log);
    drop(log);
    is_named
}

pub(crate) fn takes_turns<C: Core, R: Wait>(rt: &R, alloc: Global, core: C, log: Log) -> bool
    requires { C.stands core log }
{
    let Some((driver, seats)) = opened(alloc, core, log, SEATS) else {
        return false;
    };
    let access = Access {
        driver: &driver,
        rt,
        alloc,
    };
    let done = take_turns(&access, seats);
    drop(access);
    match done {
        Some(seats) => closes(driver, seats),
        None => {
            drop(driver);
            false
        }
    }
}

#[test]
fn all_seats_stand_in_one_log(rt: HostRuntime) -> Result<(), Fail> {
    assert!(rt; goes_well(&rt, rt.alloc(), Scene::AllSeats));
    Ok(())
}
