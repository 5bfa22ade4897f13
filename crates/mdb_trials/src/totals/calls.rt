//! Each call of a shared driver, once or more.

ghost use Rattle.std.specs.Prelude.{◌≡◌};

use super::{Scene, goes_well};
use crate::lines::{Ask, Call, Line, Told, follows, step_of};
use crate::opening::close_late;
use mdb_log::{Core, Log};
use mdb_shared::{Seat, SharedDriver, TryError};
use mdb_workers::Access;
use std::alloc::Global;
use std::sync::Wait;
use std::test::Fail;

pub(crate) fn has_no_pool<C: Core>(alloc: Global, core: C) -> Option<bool> {
    let servers = core.description().servers().len();
    let published = core.published();
    let job = core.job(alloc, 0, 1);
    drop(core);
    let has_none = match &job {
        Ok(job) => Some(job.is_none()),
        Err(_) => None,
    };
    drop(job);
    Some(servers == 0 && published == 0 && has_none?)
}

#[test]
fn a_total_has_no_pool(rt: HostRuntime) -> Result<(), Fail> {
    assert!(rt; goes_well(&rt, rt.alloc(), Scene::NoPool).expect(&rt, "memory"));
    Ok(())
}

// Request 1 before the total is 2, and requests 1, 2 and 3 after.
const POLLS: [Line; 5] = [
    Line(0, 0, Call::Poll(1), Told::UnknownRequest),
    Line(0, 0, Call::Step(Ask::Want(2)), Told::Count(2)),
    Line(0, 0, Call::Poll(1), Told::Pooled(0, 1)),
    Line(0, 0, Call::Poll(2), Told::Closed),
    Line(0, 0, Call::Poll(3), Told::Waiting),
];

// With the total at 2: the connections of parties 1 and 7 are checked in, and requests 1 and 2 given up.
const COME_BACK: [Line; 5] = [
    Line(0, 0, Call::Try(Ask::Want(2)), Told::Count(2)),
    Line(0, 0, Call::CheckIn(1), Told::Done),
    Line(0, 0, Call::CheckIn(7), Told::CameBack(7)),
    Line(0, 0, Call::GiveUp(1), Told::Done),
    Line(0, 0, Call::GiveUp(2), Told::UnknownRequest),
];

// Whether each line is told, and how many entries the log has then.
fn follow<C: Core, R: Wait>(
    rt: &R,
    alloc: Global,
    driver: SharedDriver<C>,
    mut first: Seat<C>,
    mut second: Seat<C>,
    lines: &[Line],
) -> Option<(bool, u64)>
    requires { (first.driver ≡ driver.id) × (second.driver ≡ driver.id) }
{
    let access = Access {
        driver: &driver,
        rt,
        alloc,
    };
    let is_well = follows(&access, &mut first, &mut second, lines);
    drop(access);
    let count = driver.seen_count(&mut second);
    drop(first);
    drop(second);
    drop(driver);
    Some((is_well?, count))
}

pub(crate) fn tells_how_requests_stand<C: Core, R: Wait>(
    rt: &R,
    alloc: Global,
    driver: SharedDriver<C>,
    first: Seat<C>,
    second: Seat<C>,
) -> Option<bool>
    requires { (first.driver ≡ driver.id) × (second.driver ≡ driver.id) }
{
    Some(follow(rt, alloc, driver, first, second, &POLLS)? == (true, 6))
}

#[test]
fn polls_tell_how_requests_stand(rt: HostRuntime) -> Result<(), Fail> {
    assert!(rt; goes_well(&rt, rt.alloc(), Scene::Polls).expect(&rt, "memory"));
    Ok(())
}

pub(crate) fn gives_back<C: Core, R: Wait>(
    rt: &R,
    alloc: Global,
    driver: SharedDriver<C>,
    first: Seat<C>,
    second: Seat<C>,
) -> Option<bool>
    requires { (first.driver ≡ driver.id) × (second.driver ≡ driver.id) }
{
    Some(follow(rt, alloc, driver, first, second, &COME_BACK)? == (true, 5))
}

#[test]
fn connections_come_back_and_requests_are_given_up(rt: HostRuntime) -> Result<(), Fail> {
    assert!(rt; goes_well(&rt, rt.alloc(), Scene::ComeBack).expect(&rt, "memory"));
    Ok(())
}

// Two seats make a step each.
const ONE_EACH: [Line; 2] = [
    Line(0, 9, Call::Try(Ask::Want(1)), Told::Count(1)),
    Line(1, 4, Call::Try(Ask::Want(1)), Told::Count(2)),
];

fn last_moment(log: &Log) -> Option<u64> {
    Some(log.entries().last()?.step.moment)
}

// The last moments of the core and of the log, where one seat alone doesn't close the driver, and both do.
fn last_moments<C: Core>(
    alloc: Global,
    driver: SharedDriver<C>,
    first: Seat<C>,
    second: Seat<C>,
) -> Option<(u64, Option<u64>)>
    requires { (first.driver ≡ driver.id) × (second.driver ≡ driver.id) }
{
    let (core, log) = close_late(alloc, driver, first, second)?;
    let moments = (core.last_moment(), last_moment(&log));
    drop(core);
    drop(log);
    Some(moments)
}

// Whether two seats that make a step each at the moments 9 and 4, meet, and close with one missing first, close with both, after steps whose
// moments only grew.
pub(crate) fn closes_late<C: Core, R: Wait>(
    rt: &R,
    alloc: Global,
    driver: SharedDriver<C>,
    mut first: Seat<C>,
    mut second: Seat<C>,
) -> Option<bool>
    requires { (first.driver ≡ driver.id) × (second.driver ≡ driver.id) }
{
    let access = Access {
        driver: &driver,
        rt,
        alloc,
    };
    let is_well = follows(&access, &mut first, &mut second, &ONE_EACH);
    drop(access);
    driver.meet(&mut first, &mut second);
    let seen = driver.seen_count(&mut first);
    let moments = last_moments(alloc, driver, first, second)?;
    Some(is_well? && seen == 2 && moments == (9, Some(9)))
}

#[test]
fn seats_meet_and_close_together(rt: HostRuntime) -> Result<(), Fail> {
    assert!(rt; goes_well(&rt, rt.alloc(), Scene::Closing).expect(&rt, "memory"));
    Ok(())
}

// Whether this is the text of the error.
fn is_text_of(alloc: Global, error: TryError, text: &str) -> Option<bool> {
    let is_text = match error.to_string(alloc) {
        Ok(told) => Some(told.as_str() == text),
        Err(_) => None,
    };
    drop(error);
    is_text
}

fn tell_why(alloc: Global) -> Option<bool> {
    let busy = TryError::Busy(1, step_of(alloc, 0, Ask::Want(1))?);
    let is_busy = is_text_of(alloc, busy, "another seat has the turn")?;
    let is_lack = is_text_of(alloc, TryError::OutOfMemory, "out of memory")?;
    Some(is_busy && is_lack)
}

#[test]
fn tries_that_failed_tell_why(rt: HostRuntime) -> Result<(), Fail> {
    assert!(rt; tell_why(rt.alloc()).expect(&rt, "memory"));
    Ok(())
}
