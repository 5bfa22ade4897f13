//! Two seats on one thread: how requests stand, and the log that both make.

ghost use Rattle.std.specs.Prelude.{◌≡◌, IfSome};

use super::{Scene, goes_well, opened};
use crate::lines::{Ask, Call, Line, Told, follows, step_of, summary};
use crate::opening::{close_late, pair};
use mdb_log::{Core, Entry, Log, step_whole};
use mdb_shared::Seat;
use mdb_workers::Access;
use std::alloc::Global;
use std::sync::Wait;
use std::test::Fail;
use std::thread::Threads;

// Request 1 before and after its connection is established, and then requests 2 and 3, of which one can be given up.
const REQUESTS: [Line; 8] = [
    Line(0, 5, Call::Step(Ask::Request(1)), Told::Establishing(0, 1)),
    Line(1, 0, Call::Poll(1), Told::Establishing(0, 1)),
    Line(1, 7, Call::Step(Ask::Established(1)), Told::Done),
    Line(0, 0, Call::Poll(1), Told::Pooled(0, 1)),
    Line(0, 8, Call::Step(Ask::Request(2)), Told::Pooled(0, 1)),
    Line(1, 9, Call::Step(Ask::Request(3)), Told::Establishing(0, 2)),
    Line(0, 0, Call::GiveUp(3), Told::Done),
    Line(1, 0, Call::GiveUp(2), Told::UnknownRequest),
];

pub(crate) fn tells_once<C: Core, R: Wait>(
    access: &Access<'_, C, R>,
    first: &mut Seat<C>,
    second: &mut Seat<C>,
) -> bool
    requires own { (first.old.driver ≡ access.now.driver.now.id) × (second.old.driver ≡ access.now.driver.now.id) }
{
    follows(access, first, second, &REQUESTS) == Some(true)
}

#[test]
fn a_request_is_told_once(rt: HostRuntime) -> Result<(), Fail> {
    assert!(rt; goes_well(&rt, rt.alloc(), Scene::Requests));
    Ok(())
}

// The steps of the ordinary path, by both seats.
const PATH: [Line; 4] = [
    Line(0, 5, Call::Step(Ask::Request(1)), Told::Establishing(0, 1)),
    Line(1, 7, Call::Try(Ask::Established(1)), Told::Done),
    Line(1, 9, Call::Step(Ask::Return(1)), Told::Done),
    Line(0, 10, Call::Try(Ask::Request(2)), Told::Pooled(0, 1)),
];

// The log of two seats that took the path, met and closed the driver, one of them alone first.
fn shared_log<C: Core, R: Wait>(rt: &R, alloc: Global, core: C, log: Log) -> Option<Log>
    requires { C.stands core log }
{
    let (driver, mut first, mut second) = pair(alloc, core, log)?;
    let access = Access {
        driver: &driver,
        rt,
        alloc,
    };
    let is_walked = follows(&access, &mut first, &mut second, &PATH) == Some(true);
    drop(access);
    driver.meet(&mut first, &mut second);
    let counts = (
        driver.seen_count(&mut first),
        driver.seen_count(&mut second),
    );
    let (core, log) = close_late(alloc, driver, first, second)?;
    drop(core);
    if is_walked && counts == (5, 5) {
        return Some(log);
    }
    drop(log);
    None
}

fn ask_of(call: Call) -> Option<Ask> {
    match call {
        Call::Step(ask) | Call::Try(ask) => Some(ask),
        _ => None,
    }
}

// One step of the path on a driver alone.
fn is_taken<C: Core>(alloc: Global, core: &mut C, log: &mut Log, line: &Line) -> bool
    requires stands { C.stands core.old log.old }
    ensures stands { C.stands core.new log.new }
{
    let Some(ask) = ask_of(line.2) else {
        return false;
    };
    let Some(step) = step_of(alloc, line.1, ask) else {
        return false;
    };
    let answer = step_whole(core, alloc, log, 0, &step);
    drop(step);
    summary(answer) == line.3
}

// The log of the same steps, one after another on a driver alone.
fn lone_log<C: Core>(alloc: Global, mut core: C, mut log: Log) -> Option<Log>
    requires { C.stands core log }
{
    let mut is_taken_whole = true;
    for line in &PATH {
        is_taken_whole = is_taken_whole && is_taken(alloc, &mut core, &mut log, line);
    }
    drop(core);
    if is_taken_whole {
        return Some(log);
    }
    drop(log);
    None
}

fn log_of<C: Core, R: Wait>(
    rt: &R,
    alloc: Global,
    opened: Option<(C, Log)>,
    is_shared: bool,
) -> Option<Log>
    requires { IfSome opened (λ r. C.stands r.0 r.1) }
{
    let (core, log) = opened?;
    if is_shared {
        shared_log(rt, alloc, core, log)
    } else {
        lone_log(alloc, core, log)
    }
}

fn are_alike(entry: &Entry, other: &Entry) -> bool {
    entry.reply == other.reply && entry.facts.as_slice().len() == other.facts.as_slice().len()
}

fn are_alike_at(log: &Log, other: &Log, at: usize) -> bool {
    match (log.entries().get(at), other.entries().get(at)) {
        (Some(entry), Some(other)) => are_alike(entry, other),
        _ => false,
    }
}

// Whether there are five entries in both, with the same replies and as many facts.
fn is_one_log(log: &Log, other: &Log) -> bool {
    for at in 0..5 {
        if !are_alike_at(log, other, at) {
            return false;
        }
    }
    log.len() == 5 && other.len() == 5
}

// The log of a new driver.
fn driver_log<R: Threads + Wait + Sync>(rt: &R, alloc: Global, is_shared: bool) -> Option<Log> {
    log_of(rt, alloc, opened(alloc, true), is_shared)
}

fn makes_one_log<R: Threads + Wait + Sync>(rt: &R, alloc: Global) -> Option<bool> {
    let shared = driver_log(rt, alloc, true)?;
    let Some(lone) = driver_log(rt, alloc, false) else {
        drop(shared);
        return None;
    };
    let is_one = is_one_log(&shared, &lone);
    drop(shared);
    drop(lone);
    Some(is_one)
}

#[test]
fn two_seats_make_one_log(rt: HostRuntime) -> Result<(), Fail> {
    assert!(rt; makes_one_log(&rt, rt.alloc()) == Some(true));
    Ok(())
}
