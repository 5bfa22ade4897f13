//! What two seats do in a scene, line by line, and what each call has to tell.

ghost use Rattle.std.specs.Prelude.{◌≡◌, IfSome};
ghost use Rattle.mdb_log.specs.Acts.{IsDriverAct};

use mdb_base::{ClusterTime, Moment, ObjectId, OutOfMemory, ServerAddress};
use mdb_events::End;
use mdb_log::{Act, Core, Established, PooledConnection, Refused, Reply, Step, Use};
use mdb_shared::{Back, BackWhy, Poll, Seat, TryError};
use mdb_workers::Access;
use std::alloc::Global;
use std::sync::Wait;

/// What a step asks for. The numbers are those of requests, of a connection of pool 0, and of watchers.
#[derive(Clone, Copy)]
pub enum Ask {
    Request(u32),
    Established(u32),
    Return(u32),
    Time,
    Want(u32),
}

/// A call of a seat.
#[derive(Clone, Copy)]
pub enum Call {
    Step(Ask),
    /// A step that waits for nobody.
    Try(Ask),
    /// Asks how a request stands, and checks its connection in.
    Poll(u32),
    /// Checks the connection of a party in, which has the party's number.
    CheckIn(u32),
    GiveUp(u32),
}

/// What a call tells.
#[derive(Clone, Copy, PartialEq, Eq)]
pub enum Told {
    Pooled(u32, u32),
    Establishing(u32, u32),
    Waiting,
    Closed,
    Changed(bool),
    Count(u64),
    Done,
    UnknownRequest,
    /// The connection of this number came back.
    CameBack(u32),
    NoMemory,
    Other,
}

/// A call of the first seat, 0, or of the second, at a moment, and what it has to tell.
#[derive(Clone, Copy)]
pub struct Line(pub u32, pub Moment, pub Call, pub Told);

/// The address of the server.
pub fn server(alloc: Global) -> Option<ServerAddress> {
    ServerAddress::parse(alloc, "a:1").ok()
}

/// What a worker finds out behind the load balancer.
pub fn found() -> Established {
    Established {
        wire: 21,
        service_id: Some(ObjectId([1, 2, 3, 4, 5, 6, 7, 8, 9, 10, 11, 12])),
        server_id: None,
    }
}

fn act_of(alloc: Global, ask: Ask) -> Option<Act>
    ensures { IfSome result IsDriverAct }
{
    Some(match ask {
        Ask::Request(number) => Act::Request(number, server(alloc)?),
        Ask::Established(id) => Act::Established(0, id, found()),
        Ask::Return(party) => Act::Return(party, Use::Ok),
        Ask::Time => Act::ClusterTime(ClusterTime(5)),
        Ask::Want(number) => Act::Want(number),
    })
}

/// The step that asks for this.
pub fn step_of(alloc: Global, moment: Moment, ask: Ask) -> Option<Step>
    ensures { IfSome result (λ step. IsDriverAct step.act) }
{
    let act = act_of(alloc, ask)?;
    Some(Step { moment, act })
}

/// What a reply tells.
pub fn told_by(reply: &Reply) -> Told {
    match reply {
        Reply::Pooled(pool, id) => Told::Pooled(*pool, *id),
        Reply::Establishing(pool, id) => Told::Establishing(*pool, *id),
        Reply::Waiting => Told::Waiting,
        Reply::Ended(End::Closed) => Told::Closed,
        Reply::Changed(is_changed) => Told::Changed(*is_changed),
        Reply::Count(count) => Told::Count(*count),
        Reply::Done => Told::Done,
        Reply::Refused(Refused::UnknownRequest) => Told::UnknownRequest,
        _ => Told::Other,
    }
}

fn told_by_answer(answer: &Result<Reply, OutOfMemory>) -> Told {
    match answer {
        Ok(reply) => told_by(reply),
        Err(_) => Told::NoMemory,
    }
}

/// What the answer to a step tells.
pub fn summary(answer: Result<Reply, OutOfMemory>) -> Told {
    let told = told_by_answer(&answer);
    drop(answer);
    told
}

fn told_by_try(answer: &Result<Reply, TryError>) -> Told {
    match answer {
        Ok(reply) => told_by(reply),
        Err(TryError::Busy(_, _)) => Told::Other,
        Err(TryError::OutOfMemory) => Told::NoMemory,
    }
}

fn summary_of_try(answer: Result<Reply, TryError>) -> Told {
    let told = told_by_try(&answer);
    drop(answer);
    told
}

/// What a check-in tells. A connection that came back is taken apart.
pub fn came_back(answer: Result<(), Back>) -> Told {
    match answer {
        Ok(()) => Told::Done,
        Err(back) => {
            let Back { connection, why } = back;
            let PooledConnection {
                pool: _,
                id,
                party: _,
            } = connection;
            match why {
                BackWhy::Refused(_) => Told::CameBack(id),
                BackWhy::OutOfMemory => Told::NoMemory,
            }
        }
    }
}

/// What a step of the seat tells.
pub fn steps<C: Core, R: Wait>(
    access: &Access<'_, C, R>,
    seat: &mut Seat<C>,
    moment: Moment,
    ask: Ask,
) -> Told
    requires own { seat.old.driver ≡ access.now.driver.now.id }
    ensures own { seat.new.driver ≡ seat.old.driver }
{
    match step_of(access.alloc, moment, ask) {
        Some(step) => summary(access.driver.step(access.rt, access.alloc, seat, step)),
        None => Told::NoMemory,
    }
}

fn tries<C: Core, R: Wait>(
    access: &Access<'_, C, R>,
    seat: &mut Seat<C>,
    moment: Moment,
    ask: Ask,
) -> Told
    requires own { seat.old.driver ≡ access.now.driver.now.id }
    ensures own { seat.new.driver ≡ seat.old.driver }
{
    match step_of(access.alloc, moment, ask) {
        Some(step) => summary_of_try(access.driver.try_step(access.alloc, seat, step)),
        None => Told::NoMemory,
    }
}

/// What a check-in of this connection tells.
pub fn checks_in<C: Core, R: Wait>(
    access: &Access<'_, C, R>,
    seat: &mut Seat<C>,
    connection: PooledConnection,
) -> Told
    requires own { seat.old.driver ≡ access.now.driver.now.id }
    ensures own { seat.new.driver ≡ seat.old.driver }
{
    came_back(
        access
            .driver
            .check_in(access.rt, access.alloc, seat, connection, Use::Ok),
    )
}

// What a poll tells. Its connection is checked in.
fn polled<C: Core, R: Wait>(access: &Access<'_, C, R>, seat: &mut Seat<C>, poll: Poll) -> Told
    requires own { seat.old.driver ≡ access.now.driver.now.id }
    ensures own { seat.new.driver ≡ seat.old.driver }
{
    match poll {
        Poll::Ready(connection) => {
            let told = Told::Pooled(connection.pool, connection.id);
            match checks_in(access, seat, connection) {
                Told::Done => told,
                other => other,
            }
        }
        Poll::NotYet(reply) => summary(Ok(reply)),
        Poll::Ended(end) => summary(Ok(Reply::Ended(end))),
        Poll::Refused(why) => summary(Ok(Reply::Refused(why))),
    }
}

fn polls<C: Core, R: Wait>(access: &Access<'_, C, R>, seat: &mut Seat<C>, request: u32) -> Told
    requires own { seat.old.driver ≡ access.now.driver.now.id }
    ensures own { seat.new.driver ≡ seat.old.driver }
{
    match access
        .driver
        .poll_check_out(access.rt, access.alloc, seat, request)
    {
        Ok(poll) => polled(access, seat, poll),
        Err(_) => Told::NoMemory,
    }
}

// What the call of the seat tells.
fn does<C: Core, R: Wait>(
    access: &Access<'_, C, R>,
    seat: &mut Seat<C>,
    moment: Moment,
    call: Call,
) -> Told
    requires own { seat.old.driver ≡ access.now.driver.now.id }
    ensures own { seat.new.driver ≡ seat.old.driver }
{
    match call {
        Call::Step(ask) => steps(access, seat, moment, ask),
        Call::Try(ask) => tries(access, seat, moment, ask),
        Call::Poll(request) => polls(access, seat, request),
        Call::CheckIn(party) => {
            let held = PooledConnection {
                pool: 0,
                id: party,
                party,
            };
            checks_in(access, seat, held)
        }
        Call::GiveUp(request) => summary(
            access
                .driver
                .give_up(access.rt, access.alloc, seat, request),
        ),
    }
}

/// Whether each call, one after another, tells what stands in its line. None where there was no memory for one.
pub fn follows<C: Core, R: Wait>(
    access: &Access<'_, C, R>,
    first: &mut Seat<C>,
    second: &mut Seat<C>,
    lines: &[Line],
) -> Option<bool>
    requires own { (first.old.driver ≡ access.now.driver.now.id) × (second.old.driver ≡ access.now.driver.now.id) }
    ensures own { (first.new.driver ≡ first.old.driver) × (second.new.driver ≡ second.old.driver) }
{
    for line in lines {
        let told = match line.0 {
            0 => does(access, first, line.1, line.2),
            _ => does(access, second, line.1, line.2),
        };
        if told == Told::NoMemory {
            return None;
        }
        if told != line.3 {
            return Some(false);
        }
    }
    Some(true)
}
