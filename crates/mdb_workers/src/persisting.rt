//! Calls that try again while there is no memory, with a short sleep between two tries. They end once there is, so that nothing that a seat was given is
//! lost: no connection stays claimed, no request stays open, no connection stays out, and the driver stops.

ghost use Rattle.std.specs.Prelude.{◌≡◌, ◌∷◌, [], codes, IfSome, IfOk, IfErr, OnOk};
ghost use Rattle.mdb_log.specs.Acts.{IsDriverAct};
ghost use Rattle.mdb_log.specs.declared.log.Entry.{Entry};
ghost use Rattle.mdb_log.specs.declared.step.Act.TheVariants.{GiveUp, Return, Stop};
ghost use Rattle.mdb_log.specs.declared.reply.Reply.TheVariants.{Done, Refused as IsRefused};
ghost use Rattle.mdb_workers.specs.Making.{Made, OneMore};
ghost use Rattle.mdb_workers.specs.Persisting.{IsTry, LeftAct, ReportsLeftIf, TriedBack, tried_by};
ghost use Rattle.mdb_workers.specs.Working.{Dealt, IsWant, ReportsLeft, TendedBy};

use crate::access::Access;
use crate::ends::Work;
use crate::establishing::{Establisher, Gate};
use crate::steps::{add, give_back, let_go, pause};
use crate::working::establish;
use mdb_base::{Error, ErrorKind, Items, OutOfMemory, Text};
use mdb_events::Boxed;
use mdb_log::{Act, Core, FailedAt, Job, PooledConnection, Refused, Reply, Step, Use};
use mdb_shared::{Back, BackWhy, Claimed, Seat};
use std::alloc::Global;
use std::sync::Wait;

/// A connection that wasn't checked in, since the return was refused: the party doesn't hold it.
pub struct Unreturned {
    pub connection: PooledConnection,
    pub why: Refused,
}

/// Gives the request up. It tries again while there is no memory.
pub fn abandon<C: Core, R: Wait>(
    access: &Access<'_, C, R>,
    seat: &mut Seat<C>,
    request: u32,
) -> Reply
    requires own { seat.old.driver ≡ access.now.driver.now.id }
    ensures same { (seat.new.driver ≡ seat.old.driver) × (seat.new.number ≡ seat.old.number) }
    ensures entry { OneMore C.stands seat.old seat.new (GiveUp request) result }
{
    for _ in access.rt.forever() {
        match let_go(access, seat, request) {
            Ok(reply) => return reply,
            Err(OutOfMemory) => pause(access, seat),
        }
    }
    unreachable!()
}

// What a try to check a connection in came to.
enum Tried {
    Back,
    Refused(Unreturned),
    // There was no memory.
    Again(PooledConnection),
}

fn tried_of(back: Back) -> Tried
    ensures { result ≡ tried_by back.connection back.why }
{
    let Back { connection, why } = back;
    match why {
        BackWhy::Refused(why) => Tried::Refused(Unreturned { connection, why }),
        BackWhy::OutOfMemory => Tried::Again(connection),
    }
}

// One try to check a connection in.
fn try_back<C: Core, R: Wait>(
    access: &Access<'_, C, R>,
    seat: &mut Seat<C>,
    connection: PooledConnection,
    used: Use,
) -> Tried
    requires own { seat.old.driver ≡ access.now.driver.now.id }
    ensures same { (seat.new.driver ≡ seat.old.driver) × (seat.new.number ≡ seat.old.number) }
    ensures tried { TriedBack C.stands seat.old seat.new connection used result }
{
    match give_back(access, seat, connection, used) {
        Ok(()) => Tried::Back,
        Err(back) => tried_of(back),
    }
}

/// Checks the connection in. It tries again while there is no memory.
pub fn hand_back<C: Core, R: Wait>(
    access: &Access<'_, C, R>,
    seat: &mut Seat<C>,
    mut connection: PooledConnection,
    used: Use,
) -> Result<(), Unreturned>
    requires own { seat.old.driver ≡ access.now.driver.now.id }
    ensures same { (seat.new.driver ≡ seat.old.driver) × (seat.new.number ≡ seat.old.number) }
    ensures ok { OnOk result (OneMore C.stands seat.old seat.new (Return connection.party used) Done) }
    ensures err { IfErr result (λ back. (back.connection ≡ connection) × OneMore C.stands seat.old seat.new (Return connection.party used) (IsRefused back.why)) }
{
    for _ in access.rt.forever() {
        match try_back(access, seat, connection, used) {
            Tried::Back => return Ok(()),
            Tried::Refused(unreturned) => return Err(unreturned),
            Tried::Again(held) => {
                connection = held;
                pause(access, seat);
            }
        }
    }
    unreachable!()
}

// One more try of a step.
fn try_once<C: Core, R: Wait>(access: &Access<'_, C, R>, seat: &mut Seat<C>, act: Act) -> bool
    requires own { seat.old.driver ≡ access.now.driver.now.id }
    requires act { IsDriverAct act }
    ensures same { (seat.new.driver ≡ seat.old.driver) × (seat.new.number ≡ seat.old.number) }
    ensures entry { IsTry C.stands seat.old seat.new act result }
{
    match add(access, seat, Step { moment: 0, act }) {
        Ok(reply) => {
            drop(reply);
            true
        }
        Err(OutOfMemory) => false,
    }
}

/// Stops the driver: its pools close, those who wait end, and those who sleep are woken. It tries again while there is no memory.
pub fn stop<C: Core, R: Wait>(access: &Access<'_, C, R>, seat: &mut Seat<C>)
    requires own { seat.old.driver ≡ access.now.driver.now.id }
    ensures same { (seat.new.driver ≡ seat.old.driver) × (seat.new.number ≡ seat.old.number) }
    ensures entry { (e : Entry) × (e.step.act ≡ Stop) × Made C.stands seat.old seat.new (e ∷ []) }
{
    for _ in access.rt.forever() {
        if try_once(access, seat, Act::Stop) {
            return;
        }
        pause(access, seat);
    }
    unreachable!()
}

// The label of an error for which the server isn't to blame (SDAM, "Error handling pseudocode").
fn overloaded(alloc: Global) -> Result<Items<Text>, OutOfMemory>
    ensures { IfOk result (λ labels. labels ≡ codes "SystemOverloadedError" ∷ []) }
{
    let label = Text::new(String::from_str(alloc, "SystemOverloadedError")?);
    let mut labels = Vec::new(alloc);
    labels.push(label)?;
    Ok(Items::new(labels))
}

fn no_memory(alloc: Global) -> Result<Error, OutOfMemory>
    ensures { IfOk result IsWant }
{
    let labels = overloaded(alloc)?;
    Ok(Error {
        kind: ErrorKind::Other,
        labels,
        topology_version: None,
        message: Text::new(String::new(alloc)),
    })
}

// The act that reports what was left: that of the step, or else that the connection failed.
fn left_act(alloc: Global, pool: u32, id: u32, step: &Option<Step>) -> Result<Act, OutOfMemory>
    requires { IfSome step.now (λ s. IsDriverAct s.act) }
    ensures { IfOk result (LeftAct pool id step.now) }
{
    match step {
        Some(step) => Ok(step.act.clone()?),
        None => {
            let error = Boxed::new(alloc, no_memory(alloc)?)?;
            Ok(Act::Failed(pool, id, FailedAt::Pre, error))
        }
    }
}

// One try to report what was left.
fn try_left<C: Core, R: Wait>(
    access: &Access<'_, C, R>,
    seat: &mut Seat<C>,
    pool: u32,
    id: u32,
    step: &Option<Step>,
) -> bool
    requires own { seat.old.driver ≡ access.now.driver.now.id }
    requires act { IfSome step.now (λ s. IsDriverAct s.act) }
    ensures same { (seat.new.driver ≡ seat.old.driver) × (seat.new.number ≡ seat.old.number) }
    ensures entry { ReportsLeftIf C.stands pool id step.now seat.old seat.new result }
{
    match left_act(access.alloc, pool, id, step) {
        Ok(act) => try_once(access, seat, act),
        Err(OutOfMemory) => false,
    }
}

fn keep_reporting<C: Core, R: Wait>(
    access: &Access<'_, C, R>,
    seat: &mut Seat<C>,
    pool: u32,
    id: u32,
    step: &Option<Step>,
)
    requires own { seat.old.driver ≡ access.now.driver.now.id }
    requires act { IfSome step.now (λ s. IsDriverAct s.act) }
    ensures same { (seat.new.driver ≡ seat.old.driver) × (seat.new.number ≡ seat.old.number) }
    ensures entry { (e : Entry) × ReportsLeft pool id step.now e × Made C.stands seat.old seat.new (e ∷ []) }
{
    for _ in access.rt.forever() {
        if try_left(access, seat, pool, id, step) {
            return;
        }
        pause(access, seat);
    }
    unreachable!()
}

/// Reports what `work` left where memory runs out, the pool and the number of the connection that was claimed with the step that wasn't reported. Where there
/// is none, the connection has failed before the hello, with an error of the label `SystemOverloadedError`: so its server stays as it is, and its pool isn't
/// cleared (SDAM, "Error handling pseudocode"). It tries again while there is no memory.
pub fn report_left<C: Core, R: Wait>(
    access: &Access<'_, C, R>,
    seat: &mut Seat<C>,
    pool: u32,
    id: u32,
    step: Option<Step>,
)
    requires own { seat.old.driver ≡ access.now.driver.now.id }
    requires act { IfSome step (λ s. IsDriverAct s.act) }
    ensures same { (seat.new.driver ≡ seat.old.driver) × (seat.new.number ≡ seat.old.number) }
    ensures entry { (e : Entry) × ReportsLeft pool id step e × Made C.stands seat.old seat.new (e ∷ []) }
{
    keep_reporting(access, seat, pool, id, &step);
}

// Establishes the connection of a job that was claimed, and reports it: as the establisher answers, or, where that has no memory, as failed.
fn deal<C: Core, R: Wait, E: Establisher, G: Gate>(
    access: &Access<'_, C, R>,
    seat: &mut Seat<C>,
    establisher: &mut E,
    gate: &mut G,
    connection: (u32, u32),
    job: &Job,
)
    requires own { seat.old.driver ≡ access.now.driver.now.id }
    ensures dealt { Dealt C.stands connection.0 connection.1 job.now seat.old seat.new (E.calls establisher.old) (E.calls establisher.new) (E.wants establisher.old) (E.wants establisher.new) }
{
    let (pool, id) = connection;
    let step = establish(access.alloc, establisher, gate, pool, id, job);
    report_left(access, seat, pool, id, step);
}

/// Establishes one connection, where there is one to establish: it is claimed, the establisher is called with its job, and its answer is reported. Where there is
/// no memory for that it is reported as failed, and where there is none for the report it tries again. `Idle` comes exactly where the claim found none.
pub fn tend<C: Core, R: Wait, E: Establisher, G: Gate>(
    access: &Access<'_, C, R>,
    seat: &mut Seat<C>,
    establisher: &mut E,
    gate: &mut G,
) -> Work
    requires own { seat.old.driver ≡ access.now.driver.now.id }
    ensures tended { TendedBy C.job_after C.stands seat.old seat.new (E.calls establisher.old) (E.calls establisher.new) result }
{
    match access.driver.claim(access.rt, access.alloc, seat) {
        Ok(Claimed::Job(pool, id, job)) => {
            deal(access, seat, establisher, gate, (pool, id), &job);
            Work::Spent
        }
        Ok(Claimed::NoJob) => Work::Idle,
        Ok(Claimed::Unread(pool, id)) => {
            report_left(access, seat, pool, id, None);
            Work::Spent
        }
        Err(OutOfMemory) => {
            pause(access, seat);
            Work::Spent
        }
    }
}
