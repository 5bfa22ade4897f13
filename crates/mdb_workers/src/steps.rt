//! Single calls of a shared driver, with what each adds to the entries of its seat.

ghost use Rattle.std.specs.Prelude.{◌≡◌, [], IsTrue, IfOk, IfErr, OnOk, OnErr};
ghost use Rattle.mdb_log.specs.Acts.{IsDriverAct};
ghost use Rattle.mdb_log.specs.Driver.{is_reply_to};
ghost use Rattle.mdb_log.specs.declared.step.Act.TheVariants.{Collect, GiveUp, Return};
ghost use Rattle.mdb_log.specs.declared.reply.Reply.TheVariants.{Done};
ghost use Rattle.mdb_shared.specs.Checkout.{told_by, Names};
ghost use Rattle.mdb_shared.specs.Seats.{HasCore};
ghost use Rattle.mdb_workers.specs.Making.{Made, OneMore, OneMoreAt, StaysOut};

use crate::access::Access;
use mdb_base::OutOfMemory;
use mdb_log::{Core, PooledConnection, Reply, Step, Use};
use mdb_shared::{Back, Look, Poll, Seat};
use std::sync::Wait;
use std::time::Duration;

// How long one waits before one tries again what there was no memory for.
const PAUSE: u64 = 1;

/// One step.
pub fn add<C: Core, R: Wait>(
    access: &Access<'_, C, R>,
    seat: &mut Seat<C>,
    step: Step,
) -> Result<Reply, OutOfMemory>
    requires own { seat.old.driver ≡ access.now.driver.now.id }
    requires act { IsDriverAct step.act }
    ensures same { (seat.new.driver ≡ seat.old.driver) × (seat.new.number ≡ seat.old.number) }
    ensures ok { IfOk result (λ reply. OneMoreAt C.stands step.moment seat.old seat.new step.act reply) }
    ensures kind { IfOk result (λ reply. IsTrue (is_reply_to step.act reply)) }
    ensures err { OnErr result (Made C.stands seat.old seat.new []) }
{
    match access.driver.step(access.rt, access.alloc, seat, step) {
        Ok(reply) => Ok(reply),
        Err(OutOfMemory) => Err(OutOfMemory),
    }
}

/// One question how a request stands.
pub fn ask<C: Core, R: Wait>(
    access: &Access<'_, C, R>,
    seat: &mut Seat<C>,
    request: u32,
) -> Result<Poll, OutOfMemory>
    requires own { seat.old.driver ≡ access.now.driver.now.id }
    ensures same { (seat.new.driver ≡ seat.old.driver) × (seat.new.number ≡ seat.old.number) }
    ensures ok { IfOk result (λ poll. OneMore C.stands seat.old seat.new (Collect request) (told_by poll)) }
    ensures names { IfOk result (λ poll. Names request poll) }
    ensures err { OnErr result (Made C.stands seat.old seat.new []) }
{
    match access
        .driver
        .poll_check_out(access.rt, access.alloc, seat, request)
    {
        Ok(poll) => Ok(poll),
        Err(OutOfMemory) => Err(OutOfMemory),
    }
}

/// One request given up.
pub fn let_go<C: Core, R: Wait>(
    access: &Access<'_, C, R>,
    seat: &mut Seat<C>,
    request: u32,
) -> Result<Reply, OutOfMemory>
    requires own { seat.old.driver ≡ access.now.driver.now.id }
    ensures same { (seat.new.driver ≡ seat.old.driver) × (seat.new.number ≡ seat.old.number) }
    ensures ok { IfOk result (λ reply. OneMore C.stands seat.old seat.new (GiveUp request) reply) }
    ensures kind { IfOk result (λ reply. IsTrue (is_reply_to (GiveUp request) reply)) }
    ensures err { OnErr result (Made C.stands seat.old seat.new []) }
{
    match access
        .driver
        .give_up(access.rt, access.alloc, seat, request)
    {
        Ok(reply) => Ok(reply),
        Err(OutOfMemory) => Err(OutOfMemory),
    }
}

/// One connection given back. It comes back itself where the party doesn't hold it, and where there is no memory.
pub fn give_back<C: Core, R: Wait>(
    access: &Access<'_, C, R>,
    seat: &mut Seat<C>,
    connection: PooledConnection,
    used: Use,
) -> Result<(), Back>
    requires own { seat.old.driver ≡ access.now.driver.now.id }
    ensures same { (seat.new.driver ≡ seat.old.driver) × (seat.new.number ≡ seat.old.number) }
    ensures ok { OnOk result (OneMore C.stands seat.old seat.new (Return connection.party used) Done) }
    ensures connection { IfErr result (λ back. back.connection ≡ connection) }
    ensures why { IfErr result (λ back. StaysOut C.stands seat.old seat.new (Return connection.party used) back.why) }
{
    match access
        .driver
        .check_in(access.rt, access.alloc, seat, connection, used)
    {
        Ok(()) => Ok(()),
        Err(back) => Err(back),
    }
}

/// One look, in the turn and without an entry. A core stands for what the seat has seen then.
pub fn glance<C: Core, R: Wait, L: Look<C>>(
    access: &Access<'_, C, R>,
    seat: &mut Seat<C>,
    look: &L,
) -> L::Found
    requires own { seat.old.driver ≡ access.now.driver.now.id }
    ensures same { (seat.new.driver ≡ seat.old.driver) × (seat.new.number ≡ seat.old.number) }
    ensures saw { Made C.stands seat.old seat.new [] }
    ensures told { L.tells look.now seat.new.seen result }
    ensures fits { HasCore C.stands seat.new }
{
    access.driver.look(access.rt, seat, look)
}

/// Sleeps until an entry is news to others, for no longer than this time. It may also return for no reason.
pub fn rest<C: Core, R: Wait>(access: &Access<'_, C, R>, seat: &mut Seat<C>, most: Duration)
    requires own { seat.old.driver ≡ access.now.driver.now.id }
    ensures same { (seat.new.driver ≡ seat.old.driver) × (seat.new.number ≡ seat.old.number) }
    ensures saw { Made C.stands seat.old seat.new [] }
{
    let count = access.driver.seen_count(seat);
    access.driver.sleep_for(access.rt, count, most);
}

/// Waits a little, so that others may give memory back.
pub fn pause<C: Core, R: Wait>(access: &Access<'_, C, R>, seat: &mut Seat<C>)
    requires own { seat.old.driver ≡ access.now.driver.now.id }
    ensures { Made C.stands seat.old seat.new [] }
{
    rest(access, seat, Duration::from_millis(PAUSE));
}
