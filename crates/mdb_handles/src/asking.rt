//! Checking connections out (CMAP, "Checking Out a Connection"): a request, and then questions how it stands. Between them the caller sleeps until the log
//! tells that its request is settled, so a request that waits takes one question more, and not one for each piece of news; and one more each time that entries
//! were taken which the caller had not looked at. Who finds callers waiting lets them go first, for a moment.

ghost use Rattle.std.specs.Prelude.{◌≡◌, [], IfOk, OnErr};
ghost use Rattle.mdb_log.specs.declared.step.Act.TheVariants.{Request};
ghost use Rattle.mdb_shared.specs.Checkout.{told_by, Names};
ghost use Rattle.mdb_workers.specs.Making.{Made, OneMore};
ghost use Rattle.mdb_handles.specs.CheckingOut.{Collected, CheckedOut, CheckedOutWithin, LeftBy, SettledFrom, TellsWhy};

use crate::limits::{Endless, Limit, Within};
use crate::standing::{GiveUps, Standing, State, await_outcome};
use mdb_base::{OutOfMemory, ServerAddress};
use mdb_events::End;
use mdb_log::{Act, Core, PooledConnection, Refused, Reply, Step};
use mdb_shared::{Poll, Seat, WaitQueue};
use mdb_workers::{Access, add, ask, glance, let_go};
use std::rt::Clock;
use std::sync::Wait;
use std::time::{Duration, Instant};
use thiserror::Error;

/// Why no connection was checked out.
#[derive(Debug, Drop, Error)]
pub enum CheckOutError {
    /// The request has ended.
    #[error("the request has ended")]
    Ended(End),
    /// The request, a question how it stands, or the giving up was refused.
    #[error("the request was refused")]
    Refused(Refused),
    /// The time that the caller had was over, and the request was given up.
    #[error("the time was over")]
    OutOfTime,
    /// Another seat gave the request up.
    #[error("the request was given up")]
    GaveUp,
    /// There was no memory. The request may be open.
    #[error("out of memory")]
    OutOfMemory,
}

// The request itself, and how it stands at once.
fn request_once<C: Core, R: Wait>(
    access: &Access<'_, C, R>,
    seat: &mut Seat<C>,
    request: u32,
    address: ServerAddress,
) -> Result<Poll, OutOfMemory>
    requires own { seat.old.driver ≡ access.now.driver.now.id }
    ensures same { (seat.new.driver ≡ seat.old.driver) × (seat.new.number ≡ seat.old.number) }
    ensures ok { IfOk result (λ poll. OneMore C.stands seat.old seat.new (Request request address) (told_by poll)) }
    ensures names { IfOk result (λ poll. Names request poll) }
    ensures err { OnErr result (Made C.stands seat.old seat.new []) }
{
    let step = Step {
        moment: 0,
        act: Act::Request(request, address),
    };
    match add(access, seat, step)? {
        Reply::Pooled(pool, id) => Ok(Poll::Ready(PooledConnection {
            pool,
            id,
            party: request,
        })),
        Reply::Establishing(pool, id) => Ok(Poll::NotYet(Reply::Establishing(pool, id))),
        Reply::Waiting => Ok(Poll::NotYet(Reply::Waiting)),
        Reply::Ended(end) => Ok(Poll::Ended(end)),
        Reply::Refused(why) => Ok(Poll::Refused(why)),
        _ => unreachable!(),
    }
}

// What a refusal comes to. A request that isn't known any more, since another seat gave it up after the last look, was given up.
fn refusal<C: Core, R: Wait>(
    access: &Access<'_, C, R>,
    seat: &mut Seat<C>,
    request: u32,
    from: u64,
    why: Refused,
) -> CheckOutError
    requires own { seat.old.driver ≡ access.now.driver.now.id }
    ensures same { (seat.new.driver ≡ seat.old.driver) × (seat.new.number ≡ seat.old.number) }
    ensures saw { Made C.stands seat.old seat.new [] }
    ensures told { TellsWhy C.stands request why seat.new result }
{
    match why {
        Refused::UnknownRequest => {}
        why => return CheckOutError::Refused(why),
    }
    if glance(access, seat, &GiveUps { request, from }) {
        return CheckOutError::GaveUp;
    }
    CheckOutError::Refused(Refused::UnknownRequest)
}

// The time is over: the request is given up, and what that told is the answer. It was looked at up to this entry.
fn leave<C: Core, R: Wait>(
    access: &Access<'_, C, R>,
    seat: &mut Seat<C>,
    request: u32,
    from: u64,
) -> Result<PooledConnection, CheckOutError>
    requires own { seat.old.driver ≡ access.now.driver.now.id }
    ensures same { (seat.new.driver ≡ seat.old.driver) × (seat.new.number ≡ seat.old.number) }
    ensures left { LeftBy C.stands request seat.old seat.new result }
{
    match let_go(access, seat, request) {
        Ok(Reply::Done) => Err(CheckOutError::OutOfTime),
        Ok(Reply::Ended(end)) => Err(CheckOutError::Ended(end)),
        Ok(Reply::Refused(why)) => Err(refusal(access, seat, request, from, why)),
        Ok(_) => unreachable!(),
        Err(OutOfMemory) => Err(CheckOutError::OutOfMemory),
    }
}

// The connection that is being established for the request, where the reply tells it.
fn place_of(reply: Reply) -> Option<(u32, u32)> {
    match reply {
        Reply::Establishing(pool, id) => Some((pool, id)),
        _ => None,
    }
}

// Asks how the request stands once the log tells that it is settled.
fn collect<C: Core, R: Wait, L: Limit>(
    access: &Access<'_, C, R>,
    seat: &mut Seat<C>,
    mut standing: Standing,
    limit: &L,
) -> Result<PooledConnection, CheckOutError>
    requires own { seat.old.driver ≡ access.now.driver.now.id }
    ensures answer { Collected C.stands (L.ends limit.now) standing.request seat.old seat.new result }
{
    let request = standing.request;
    for _ in access.rt.forever() {
        let outlook = await_outcome(access, seat, standing, limit);
        match outlook.state {
            State::Open => return leave(access, seat, request, outlook.known.from),
            State::GivenUp => return Err(CheckOutError::GaveUp),
            State::Settled => {}
        }
        match ask(access, seat, request) {
            Ok(Poll::NotYet(reply)) => {
                standing = Standing {
                    request,
                    from: outlook.known.from,
                    at: place_of(reply),
                };
            }
            Ok(Poll::Ready(connection)) => return Ok(connection),
            Ok(Poll::Ended(end)) => return Err(CheckOutError::Ended(end)),
            Ok(Poll::Refused(why)) => {
                return Err(refusal(access, seat, request, outlook.known.from, why));
            }
            Err(OutOfMemory) => return Err(CheckOutError::OutOfMemory),
        }
    }
    unreachable!()
}

// Waits for the outcome, in the wait queue of the server where no connection is being established for the request.
fn wait_in<C: Core, R: Wait, L: Limit>(
    access: &Access<'_, C, R>,
    seat: &mut Seat<C>,
    standing: Standing,
    limit: &L,
    queue: WaitQueue,
) -> Result<PooledConnection, CheckOutError>
    requires own { seat.old.driver ≡ access.now.driver.now.id }
    ensures answer { Collected C.stands (L.ends limit.now) standing.request seat.old seat.new result }
{
    if standing.at.is_some() {
        return collect(access, seat, standing, limit);
    }
    access.driver.enter_queue(queue);
    let answer = collect(access, seat, standing, limit);
    access.driver.leave_queue(queue);
    answer
}

// The request, and then questions.
fn check_out_by<C: Core, R: Wait, L: Limit>(
    access: &Access<'_, C, R>,
    seat: &mut Seat<C>,
    request: u32,
    address: ServerAddress,
    limit: &L,
) -> Result<PooledConnection, CheckOutError>
    requires own { seat.old.driver ≡ access.now.driver.now.id }
    ensures answer { SettledFrom C.stands (L.ends limit.now) request address seat.old seat.new result }
{
    let queue = WaitQueue::of(&address);
    access.driver.yield_to(queue);
    let from = access.driver.seen_count(seat);
    match request_once(access, seat, request, address) {
        Ok(Poll::NotYet(reply)) => {
            let standing = Standing {
                request,
                from,
                at: place_of(reply),
            };
            wait_in(access, seat, standing, limit, queue)
        }
        Ok(Poll::Ready(connection)) => Ok(connection),
        Ok(Poll::Ended(end)) => Err(CheckOutError::Ended(end)),
        Ok(Poll::Refused(why)) => Err(CheckOutError::Refused(why)),
        Err(OutOfMemory) => Err(CheckOutError::OutOfMemory),
    }
}

/// Requests a connection to the address, and waits for it. `GaveUp` comes where another seat gives the request up meanwhile, also where its connection was
/// granted just before; where the entry that gave it up was taken before it was looked at, `Refused(UnknownRequest)` comes in its place. `OutOfTime` never
/// comes. After `OutOfMemory` the request may be open: `abandon` gives it up. It may wait for the turn, and for the connection.
pub fn check_out<C: Core, R: Wait>(
    access: &Access<'_, C, R>,
    seat: &mut Seat<C>,
    request: u32,
    address: ServerAddress,
) -> Result<PooledConnection, CheckOutError>
    requires own { seat.old.driver ≡ access.now.driver.now.id }
    ensures same { (seat.new.driver ≡ seat.old.driver) × (seat.new.number ≡ seat.old.number) }
    ensures answer { CheckedOut C.stands request address seat.old seat.new result }
{
    check_out_by(access, seat, request, address, &Endless)
}

/// Requests a connection to the address, and waits for it as long as this (CMAP's `waitQueueTimeoutMS`, of one caller). Then it gives the request up and
/// answers `OutOfTime`. Nothing is claimed of the time that passes.
pub fn check_out_within<C: Core, R: Wait + Clock>(
    access: &Access<'_, C, R>,
    seat: &mut Seat<C>,
    request: u32,
    address: ServerAddress,
    limit: Duration,
) -> Result<PooledConnection, CheckOutError>
    requires own { seat.old.driver ≡ access.now.driver.now.id }
    ensures same { (seat.new.driver ≡ seat.old.driver) × (seat.new.number ≡ seat.old.number) }
    ensures answer { CheckedOutWithin C.stands request address seat.old seat.new result }
{
    let within = Within {
        clock: access.rt,
        start: Instant::now(access.rt).ok(),
        limit,
    };
    check_out_by(access, seat, request, address, &within)
}
