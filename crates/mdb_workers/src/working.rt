//! Workers: they establish connections outside the driver (CMAP, "Establishing a Connection").

ghost use Rattle.std.specs.Prelude.{◌≡◌, ◌∷◌, [], Err, IfErr, IfSome, IfNone, OnOk};
ghost use Rattle.mdb_base.specs.Outside.{Rose};
ghost use Rattle.mdb_log.specs.Acts.{IsDriverAct};
ghost use Rattle.mdb_log.specs.declared.log.Entry.{Entry};
ghost use Rattle.mdb_workers.specs.declared.establishing.EstablishError.TheVariants.{OutOfMemory as NoMemory};
ghost use Rattle.mdb_workers.specs.Establishing.{failed_at, Reports};
ghost use Rattle.mdb_workers.specs.Making.{Made};
ghost use Rattle.mdb_workers.specs.Working.{CalledOnce, Reported, LeftOver, Worked};

use crate::access::Access;
use crate::ends::{Work, WorkError};
use crate::establishing::{EstablishError, Establisher, Gate};
use crate::steps::add;
use mdb_base::{ObjectId, OutOfMemory};
use mdb_log::{Act, Core, Established, FailedAt, Job, Step};
use mdb_shared::{Claimed, Seat};
use std::alloc::Global;
use std::sync::Wait;

fn failed_at(after_hello: bool, service: Option<ObjectId>) -> FailedAt
    ensures { result ≡ failed_at after_hello service }
{
    if after_hello {
        return FailedAt::Post(service);
    }
    FailedAt::Pre
}

// The act that reports the answer. There is none for lack of memory.
fn report_of(pool: u32, id: u32, answer: Result<Established, EstablishError>) -> Option<Act>
    ensures some { IfSome result (Reports pool id answer) }
    ensures act { IfSome result IsDriverAct }
    ensures none { IfNone result (answer ≡ Err NoMemory) }
{
    match answer {
        Ok(made) => Some(Act::Established(pool, id, made)),
        Err(EstablishError::Refused(after_hello, service, error)) => Some(Act::Failed(
            pool,
            id,
            failed_at(after_hello, service),
            error,
        )),
        Err(EstablishError::OutOfMemory) => None,
    }
}

// Establishes the connection of a job, with the gate told, and gives the step that reports it.
pub(crate) fn establish<E: Establisher, G: Gate>(
    alloc: Global,
    establisher: &mut E,
    gate: &mut G,
    pool: u32,
    id: u32,
    job: &Job,
) -> Option<Step>
    ensures some { IfSome result (λ step. CalledOnce pool id job.now (E.calls establisher.old) (E.calls establisher.new) step.act) }
    ensures act { IfSome result (λ step. (step.moment ≡ 0) × IsDriverAct step.act) }
    ensures none { IfNone result (E.calls establisher.new ≡ E.calls establisher.old) }
    ensures wanted { IfNone result (Rose (E.wants establisher.old) (E.wants establisher.new)) }
{
    gate.before(job);
    let answer = establisher.establish(alloc, job);
    gate.after(job);
    let act = report_of(pool, id, answer)?;
    Some(Step { moment: 0, act })
}

// Reports a job. The step comes back where there is no memory for it.
fn report<C: Core, R: Wait>(
    access: &Access<'_, C, R>,
    seat: &mut Seat<C>,
    step: Step,
) -> Result<(), Step>
    requires own { seat.old.driver ≡ access.now.driver.now.id }
    requires act { (step.moment ≡ 0) × IsDriverAct step.act }
    ensures same { (seat.new.driver ≡ seat.old.driver) × (seat.new.number ≡ seat.old.number) }
    ensures ok { OnOk result ((e : Entry) × (e.step.act ≡ step.act) × Made C.stands seat.old seat.new (e ∷ [])) }
    ensures err { IfErr result (λ back. (back ≡ step) × Made C.stands seat.old seat.new []) }
{
    let Ok(copy) = step.clone() else {
        return Err(step);
    };
    match add(access, seat, copy) {
        Ok(reply) => {
            drop(reply);
            drop(step);
            Ok(())
        }
        Err(OutOfMemory) => Err(step),
    }
}

// One job that was claimed, of the connection of this pool and number: it is established and reported.
fn one_job<C: Core, R: Wait, E: Establisher, G: Gate>(
    access: &Access<'_, C, R>,
    seat: &mut Seat<C>,
    establisher: &mut E,
    gate: &mut G,
    connection: (u32, u32),
    job: Job,
) -> Result<(), WorkError>
    requires own { seat.old.driver ≡ access.now.driver.now.id }
    ensures same { (seat.new.driver ≡ seat.old.driver) × (seat.new.number ≡ seat.old.number) }
    ensures ok { OnOk result (Reported C.stands connection.0 connection.1 job seat.old seat.new (E.calls establisher.old) (E.calls establisher.new)) }
    ensures err { IfErr result (LeftOver C.stands connection.0 connection.1 job seat.old seat.new (E.calls establisher.old) (E.calls establisher.new)) }
{
    let (pool, id) = connection;
    let named = Some((pool, id));
    let Some(step) = establish(access.alloc, establisher, gate, pool, id, &job) else {
        return Err(WorkError::OutOfMemory(named, None));
    };
    match report(access, seat, step) {
        Ok(()) => Ok(()),
        Err(step) => Err(WorkError::OutOfMemory(named, Some(step))),
    }
}

/// Claims connections, establishes them by the establisher, and reports its answers, until none is left to claim or `budget` jobs were done. The
/// gate is told before and after the establisher is called. It may wait for the turn, and has no turn while it establishes.
pub fn work<C: Core, R: Wait, E: Establisher, G: Gate>(
    access: &Access<'_, C, R>,
    seat: &mut Seat<C>,
    establisher: &mut E,
    gate: &mut G,
    budget: u32,
) -> Result<Work, WorkError>
    requires own { seat.old.driver ≡ access.now.driver.now.id }
    ensures same { (seat.new.driver ≡ seat.old.driver) × (seat.new.number ≡ seat.old.number) }
    ensures jobs { Worked C.job_after C.stands budget seat.old seat.new (E.calls establisher.old) (E.calls establisher.new) result }
{
    for _ in 0..budget {
        match access.driver.claim(access.rt, access.alloc, seat) {
            Ok(Claimed::Job(pool, id, job)) => {
                one_job(access, seat, establisher, gate, (pool, id), job)?;
            }
            Ok(Claimed::NoJob) => return Ok(Work::Idle),
            Ok(Claimed::Unread(pool, id)) => {
                return Err(WorkError::OutOfMemory(Some((pool, id)), None));
            }
            Err(OutOfMemory) => return Err(WorkError::OutOfMemory(None, None)),
        }
    }
    Ok(Work::Spent)
}
