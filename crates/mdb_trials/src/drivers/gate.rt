//! Two threads: a worker has no turn while it establishes.

ghost use Rattle.std.specs.Prelude.{◌≡◌};

use super::watched::checked_out;
use super::{Scene, goes_well};
use crate::lines::{Ask, Call, Line, Told, follows, found, server};
use mdb_base::{Error, ErrorKind, Items, Text};
use mdb_handles::check_out;
use mdb_log::{Core, Job, PooledConnection};
use mdb_shared::{Seat, SharedDriver};
use mdb_workers::{Access, Gate, MemEstablisher, Work, work};
use std::alloc::Global;
use std::sync::Wait;
use std::sync::atomic::{AtomicU64, Ordering};
use std::test::Fail;
use std::thread::{Threads, join, yield_now};

// How long the gate waits.
const TURNS: u32 = 100_000_000;

// A gate that waits until the flag is set.
struct Held<'a> {
    flag: &'a AtomicU64,
    before: u32,
    after: u32,
    ran_out: bool,
}

impl<'a> Gate for Held<'a> {
    fn before(&mut self, job: &Job) {
        if job.pool == 0 && job.id == 1 {
            self.before = self.before.wrapping_add(1);
        }
        for _ in 0..TURNS {
            if self.flag.load(Ordering::SeqCst) != 0 {
                return;
            }
            yield_now();
        }
        self.ran_out = true;
    }

    fn after(&mut self, job: &Job) {
        if job.pool == 0 && job.id == 1 {
            self.after = self.after.wrapping_add(1);
        }
    }
}

// Connection 0.1 is to be established, and 0.2 is available: requests 1 and 3 made them.
const PREPARED: [Line; 4] = [
    Line(0, 0, Call::Step(Ask::Request(1)), Told::Establishing(0, 1)),
    Line(0, 0, Call::Step(Ask::Request(3)), Told::Establishing(0, 2)),
    Line(0, 0, Call::Step(Ask::Established(2)), Told::Done),
    Line(0, 0, Call::Step(Ask::Return(3)), Told::Done),
];

// An establisher that always succeeds.
fn establisher(alloc: Global) -> MemEstablisher {
    let error = Error {
        kind: ErrorKind::Network,
        labels: Items::new(Vec::new(alloc)),
        topology_version: None,
        message: Text::new(String::new(alloc)),
    };
    MemEstablisher::new(alloc, found(), error, Vec::new(alloc))
}

// Whether one job was done with its gate told and then none was left, and the gate didn't wait in vain.
fn works<C: Core, R: Wait>(
    driver: &SharedDriver<C>,
    rt: &R,
    alloc: Global,
    mut seat: Seat<C>,
    flag: &AtomicU64,
) -> bool
    requires own { seat.driver ≡ driver.now.id }
{
    let mut establisher = establisher(alloc);
    let mut gate = Held {
        flag,
        before: 0,
        after: 0,
        ran_out: false,
    };
    let access = Access { driver, rt, alloc };
    let worked = work(&access, &mut seat, &mut establisher, &mut gate, 1);
    let spent = matches!(&worked, Ok(Work::Spent));
    drop(worked);
    let again = work(&access, &mut seat, &mut establisher, &mut gate, 1);
    let idle = matches!(&again, Ok(Work::Idle));
    drop(again);
    drop(access);
    drop(seat);
    drop(establisher);
    let Held {
        flag: _,
        before,
        after,
        ran_out,
    } = gate;
    spent && idle && before == 1 && after == 1 && !ran_out
}

// Whether request 2 is answered by 0.2. The flag is set then.
fn is_served<C: Core, R: Wait>(
    driver: &SharedDriver<C>,
    rt: &R,
    alloc: Global,
    mut seat: Seat<C>,
    flag: &AtomicU64,
) -> bool
    requires own { seat.driver ≡ driver.now.id }
{
    let is_served = has_second(&Access { driver, rt, alloc }, &mut seat);
    drop(seat);
    flag.store(1, Ordering::SeqCst);
    is_served
}

fn has_second<C: Core, R: Wait>(access: &Access<'_, C, R>, seat: &mut Seat<C>) -> bool
    requires own { seat.old.driver ≡ access.now.driver.now.id }
{
    let Some(address) = server(access.alloc) else {
        return false;
    };
    let Some(connection) = checked_out(check_out(access, seat, 2, address)) else {
        return false;
    };
    let PooledConnection { pool, id, party } = connection;
    pool == 0 && id == 2 && party == 2
}

// Whether one thread works while the other is served.
fn both<C: Core, R: Threads + Wait + Sync>(
    rt: &R,
    alloc: Global,
    driver: SharedDriver<C>,
    first: Seat<C>,
    second: Seat<C>,
) -> bool
    requires own { (first.driver ≡ driver.id) × (second.driver ≡ driver.id) }
{
    let flag = AtomicU64::new(0);
    let (shared, flag) = (&driver, &flag);
    let (worked, served) = join(
        rt,
        move || -> bool
            requires { first.driver ≡ shared.now.id }
        { works(shared, rt, alloc, first, flag) },
        move || -> bool
            requires { second.driver ≡ shared.now.id }
        { is_served(shared, rt, alloc, second, flag) },
    );
    drop(driver);
    worked && served
}

pub(crate) fn has_no_turn<C: Core, R: Threads + Wait + Sync>(
    rt: &R,
    alloc: Global,
    driver: SharedDriver<C>,
    mut first: Seat<C>,
    mut second: Seat<C>,
) -> bool
    requires own { (first.driver ≡ driver.id) × (second.driver ≡ driver.id) }
{
    let access = Access {
        driver: &driver,
        rt,
        alloc,
    };
    let is_prepared = follows(&access, &mut first, &mut second, &PREPARED) == Some(true);
    drop(access);
    if is_prepared {
        return both(rt, alloc, driver, first, second);
    }
    drop(first);
    drop(second);
    drop(driver);
    false
}

#[test]
fn a_worker_has_no_turn_while_it_establishes(rt: HostRuntime) -> Result<(), Fail> {
    assert!(rt; goes_well(&rt, rt.alloc(), Scene::Gate));
    Ok(())
}
