//! One thread: watchers, a check-out, a fill, and operations.

ghost use Rattle.std.specs.Prelude.{◌≡◌};

use super::{Scene, goes_well};
use crate::lines::{Ask, Call, Line, Told, checks_in, follows, server, steps};
use mdb_base::OutOfMemory;
use mdb_describe::TopologyType;
use mdb_events::End;
use mdb_handles::{CheckOutError, OpToken, Server, TopologyState, TopologyWatcher, check_out};
use mdb_log::{Core, PooledConnection, Reply};
use mdb_shared::Seat;
use mdb_workers::{Access, Fill, fill_pool};
use std::alloc::Global;
use std::sync::Wait;
use std::test::Fail;

// Whether the token came back.
fn is_handed_back(answer: Result<(), OpToken>) -> bool {
    match answer {
        Ok(()) => false,
        Err(token) => {
            let OpToken { pool: _ } = token;
            true
        }
    }
}

// A server of this pool, on which no operation runs.
fn idle_server(alloc: Global, pool: u32) -> Option<Server> {
    let address = server(alloc)?;
    Some(Server {
        address,
        pool,
        operation_count: 0,
    })
}

// Whether the first server takes its own token alone.
fn takes_its_token(first: &mut Server, second: &mut Server) -> Option<bool> {
    let own = first.increment_operation_count()?;
    let Some(other) = second.increment_operation_count() else {
        let OpToken { pool: _ } = own;
        return None;
    };
    let is_refused = is_handed_back(first.decrement_operation_count(other));
    let is_kept = is_handed_back(first.decrement_operation_count(own));
    Some(is_refused && !is_kept && first.operation_count() == 0)
}

fn counts_by_tokens(alloc: Global) -> Option<bool> {
    let mut first = idle_server(alloc, 0)?;
    let Some(mut second) = idle_server(alloc, 1) else {
        drop(first);
        return None;
    };
    let is_well = takes_its_token(&mut first, &mut second);
    drop(first);
    drop(second);
    is_well
}

#[test]
fn operations_are_counted_by_tokens(rt: HostRuntime) -> Result<(), Fail> {
    assert!(rt; counts_by_tokens(rt.alloc()) == Some(true));
    Ok(())
}

// Whether nothing is new at first, and whether a time of the cluster then is, while the watcher asks for checks.
fn hears<C: Core, R: Wait>(
    access: &Access<'_, C, R>,
    first: &mut Seat<C>,
    second: &mut Seat<C>,
    watcher: &mut TopologyWatcher,
) -> Result<bool, OutOfMemory>
    requires own { (first.old.driver ≡ access.now.driver.now.id) × (second.old.driver ≡ access.now.driver.now.id) }
    ensures own { second.new.driver ≡ second.old.driver }
{
    drop(watcher.observe_latest(access, first)?);
    let is_early = watcher.wait_for_update(access, first, 3)?;
    let wanted = watcher.request_immediate_check(access, first)?;
    let told = steps(access, second, 0, Ask::Time);
    let is_news = watcher.wait_for_update(access, first, 3)?;
    Ok(!is_early && wanted == 1 && told == Told::Done && is_news)
}

// Whether a further watcher is alone with its request.
fn is_alone<C: Core, R: Wait>(access: &Access<'_, C, R>, seat: &mut Seat<C>, number: u32) -> bool
    requires own { seat.old.driver ≡ access.now.driver.now.id }
{
    let mut watcher = TopologyWatcher::new(number);
    let count = watcher.request_immediate_check(access, seat);
    drop(watcher);
    count == Ok(1)
}

pub(crate) fn waits_for_news<C: Core, R: Wait>(
    access: &Access<'_, C, R>,
    first: &mut Seat<C>,
    second: &mut Seat<C>,
) -> bool
    requires own { (first.old.driver ≡ access.now.driver.now.id) × (second.old.driver ≡ access.now.driver.now.id) }
{
    let mut watcher = TopologyWatcher::new(7);
    let hears = hears(access, first, second, &mut watcher);
    drop(watcher);
    hears == Ok(true) && is_alone(access, second, 8)
}

#[test]
fn a_watcher_waits_for_news(rt: HostRuntime) -> Result<(), Fail> {
    assert!(rt; goes_well(&rt, rt.alloc(), Scene::News));
    Ok(())
}

// Request 1 makes connection 0.1, which is established and returned.
const AVAILABLE: [Line; 3] = [
    Line(1, 5, Call::Step(Ask::Request(1)), Told::Establishing(0, 1)),
    Line(1, 7, Call::Step(Ask::Established(1)), Told::Done),
    Line(1, 9, Call::Step(Ask::Return(1)), Told::Done),
];

// The connection that was checked out.
pub(crate) fn checked_out(
    answer: Result<PooledConnection, CheckOutError>,
) -> Option<PooledConnection> {
    match answer {
        Ok(connection) => Some(connection),
        Err(error) => {
            drop(error);
            None
        }
    }
}

// Whether request 2 has connection 0.1, which is checked in again.
fn goes_out<C: Core, R: Wait>(access: &Access<'_, C, R>, seat: &mut Seat<C>) -> bool
    requires own { seat.old.driver ≡ access.now.driver.now.id }
    ensures own { seat.new.driver ≡ seat.old.driver }
{
    let Some(address) = server(access.alloc) else {
        return false;
    };
    let Some(connection) = checked_out(check_out(access, seat, 2, address)) else {
        return false;
    };
    let numbers = (connection.pool, connection.id(), connection.party);
    checks_in(access, seat, connection) == Told::Done && numbers == (0, 1, 2)
}

// Whether one warm request was made, and the pool was warm then.
fn is_filled(fill: Fill) -> bool {
    let is_filled = fill.made == 1 && matches!(&fill.last, Some(Reply::Ended(End::Warmed)));
    drop(fill);
    is_filled
}

// Whether a fill of the pool makes one connection, and then warms it.
fn fills<C: Core, R: Wait>(access: &Access<'_, C, R>, seat: &mut Seat<C>) -> bool
    requires own { seat.old.driver ≡ access.now.driver.now.id }
{
    let Some(address) = server(access.alloc) else {
        return false;
    };
    match fill_pool(access, seat, address, 10, 2) {
        Ok(fill) => is_filled(fill),
        Err(_) => false,
    }
}

pub(crate) fn goes_out_and_in<C: Core, R: Wait>(
    access: &Access<'_, C, R>,
    first: &mut Seat<C>,
    second: &mut Seat<C>,
) -> bool
    requires own { (first.old.driver ≡ access.now.driver.now.id) × (second.old.driver ≡ access.now.driver.now.id) }
{
    let is_available = follows(access, first, second, &AVAILABLE) == Some(true);
    let is_out_and_in = goes_out(access, first);
    let is_filled = fills(access, first);
    is_available && is_out_and_in && is_filled
}

#[test]
fn a_connection_goes_out_and_in(rt: HostRuntime) -> Result<(), Fail> {
    assert!(rt; goes_well(&rt, rt.alloc(), Scene::OutAndIn));
    Ok(())
}

// Whether this is the first state of a driver behind a load balancer.
fn is_first_state(state: TopologyState, kind: TopologyType) -> bool {
    let is_first = state.published == 1
        && state.description.topology_type() == kind
        && kind == TopologyType::LoadBalanced;
    drop(state);
    is_first
}

// Whether a new watcher is alone with its request, and is told the first state, peeked at and observed.
fn is_told<C: Core, R: Wait>(
    access: &Access<'_, C, R>,
    seat: &mut Seat<C>,
    watcher: &mut TopologyWatcher,
) -> Result<bool, OutOfMemory>
    requires own { seat.old.driver ≡ access.now.driver.now.id }
{
    let count = watcher.request_immediate_check(access, seat)?;
    let kind = watcher.topology_type(access, seat);
    let is_peeked = is_first_state(watcher.peek_latest(access, seat)?, kind);
    let is_observed = is_first_state(watcher.observe_latest(access, seat)?, kind);
    Ok(count == 1 && is_peeked && is_observed)
}

pub(crate) fn tells_the_state<C: Core, R: Wait>(
    access: &Access<'_, C, R>,
    seat: &mut Seat<C>,
) -> bool
    requires own { seat.old.driver ≡ access.now.driver.now.id }
{
    let mut watcher = TopologyWatcher::new(1);
    let is_told = is_told(access, seat, &mut watcher);
    drop(watcher);
    is_told == Ok(true)
}

#[test]
fn a_watcher_tells_the_state(rt: HostRuntime) -> Result<(), Fail> {
    assert!(rt; goes_well(&rt, rt.alloc(), Scene::FirstState));
    Ok(())
}
