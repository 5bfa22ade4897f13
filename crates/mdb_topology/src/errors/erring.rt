//! Steps that tell of an error.

ghost use Rattle.std.specs.Prelude.{◌≡◌, ◌≤◌, ◌<◌, ◌&&◌, IfOk, OnErr, List, Some, is_some, not, slice_get, true, false};
ghost use Rattle.mdb_log.specs.declared.step.Act.TheVariants.{Hello as HelloAct, Error as ErrorAct};
ghost use Rattle.mdb_log.specs.declared.checked.HelloResult.TheVariants.{Err as Erred};
ghost use Rattle.mdb_pool.specs.Core.{PoolCore as Core};
ghost use Rattle.mdb_pool.specs.Now.{is_live_now};
ghost use Rattle.mdb_driver_rules.specs.Current.{operating};
ghost use Rattle.mdb_driver_rules.specs.Errors.{case_of, for_service};
ghost use Rattle.mdb_driver_pools.specs.Living.{lives_at};

use crate::errors::complaining::{has_row, is_hard, service_cleared};
use crate::topology::TopologyCore;
use crate::transition::{Decision, Transition};
use mdb_base::{Error, ObjectId, OutOfMemory, ServerAddress};
use mdb_driver_pools::pool_queries::held_by;
use mdb_driver_pools::{Asked, PoolTrouble};
use mdb_log::{Refused, Reply, Step, What};
use mdb_pool::PoolCore;
use std::alloc::Global;

impl TopologyCore {
    ghost use Rattle.mdb_log.specs.History.{Item};
    ghost use Rattle.mdb_topology.specs.Complaining.{concerns_now, Complains};
    ghost use Rattle.mdb_driver_rules.specs.Errors.{Trouble};
    ghost use Rattle.mdb_topology.specs.Marking.{IsClearing};
    ghost use Rattle.mdb_topology.specs.Standing.{StandsFor, StandsForSome};
    ghost use Rattle.mdb_driver_pools.specs.Standing.{at_address};
    ghost use Rattle.mdb_topology.specs.Stepping.{BecomesOf, MayWant};

    // The hello of a server failed (SDAM, "Network error during server check").
    pub(crate) fn hello_error(
        &mut self,
        alloc: Global,
        step: &Step,
        address: &ServerAddress,
        pool: u32,
        error: &Error,
    ) -> Result<Decision, OutOfMemory>
        requires stands { StandsForSome self.old }
        requires in_time { self.old.pools.last ≤ step.now.moment }
        requires act { step.now.act ≡ HelloAct address.now pool (Erred error.now) }
        ensures same { self.new ≡ self.old }
        ensures becomes { IfOk result (λ stepped. (h : List Item) → StandsFor self.old h → BecomesOf self.old step.now stepped h) }
        ensures wants { OnErr result ((h : List Item) → StandsFor self.old h → MayWant self.old step.now h) }
    {
        if self.options.load_balanced {
            return Ok(Decision::Refused(Refused::WrongMode));
        }
        if self.leaves_reply(address, pool) {
            let reply = Reply::Changed(false);
            return Ok(Decision::Accepted(Transition::of_reply(alloc, reply)));
        }
        let index = pool as usize;
        self.mark(alloc, step, index, error, true, Asked::Nothing)
    }

    // Under load balancing no server is marked: the service of the pool at the index is cleared, where there is one.
    fn clear_service(
        &mut self,
        alloc: Global,
        step: &Step,
        index: usize,
        service: Option<ObjectId>,
        error: &Error,
    ) -> Result<Decision, OutOfMemory>
        requires stands { StandsForSome self.old }
        requires in_time { self.old.pools.last ≤ step.now.moment }
        requires balanced { self.old.options.load_balanced ≡ true }
        requires there { lives_at self.old.pools.cores.items index ≡ true }
        ensures same { self.new ≡ self.old }
        ensures becomes { IfOk result (λ stepped. (h : List Item) (s : Core) (x : Trouble) → StandsFor self.old h → slice_get self.old.pools.cores.items index ≡ Some s → at_address self.old.pools.cores.items s.address ≡ Some index → x.pool ≡ s.pool → x.address ≡ s.address → x.error ≡ error.now → IsClearing self.old h step.now x (for_service service) → BecomesOf self.old step.now stepped h) }
        ensures wants { OnErr result ((h : List Item) (s : Core) (x : Trouble) → StandsFor self.old h → slice_get self.old.pools.cores.items index ≡ Some s → at_address self.old.pools.cores.items s.address ≡ Some index → x.pool ≡ s.pool → x.address ≡ s.address → x.error ≡ error.now → IsClearing self.old h step.now x (for_service service) → MayWant self.old step.now h) }
    {
        if self.overspends_service(index, service) {
            return Ok(Decision::Refused(Refused::Exhausted(What::Generation)));
        }
        let cleared = service.is_some();
        let mut facts = Vec::new(alloc);
        let mut changes = Vec::new(alloc);
        let trouble = PoolTrouble {
            index,
            service,
            error,
            clears: cleared,
            asked: Asked::Nothing,
        };
        self.pools
            .plan_clear(alloc, step.moment, &trouble, &mut facts, &mut changes)?;
        Ok(Decision::Accepted(Transition {
            facts,
            changes,
            ..Transition::of_reply(alloc, Reply::Changed(cleared))
        }))
    }

    // The server is marked Unknown by the current error of the party, about the connection that it holds of the pool at the index.
    fn mark_complaint(
        &mut self,
        alloc: Global,
        step: &Step,
        index: usize,
        party: u32,
        id: u32,
        error: &Error,
    ) -> Result<Decision, OutOfMemory>
        requires stands { StandsForSome self.old }
        requires in_time { self.old.pools.last ≤ step.now.moment }
        requires there { lives_at self.old.pools.cores.items index ≡ true }
        requires act { step.now.act ≡ ErrorAct party error.now }
        requires normal { self.old.options.load_balanced ≡ false }
        requires complains { Complains self.old party index id error.now }
        ensures same { self.new ≡ self.old }
        ensures becomes { IfOk result (λ stepped. (h : List Item) → StandsFor self.old h → BecomesOf self.old step.now stepped h) }
        ensures wants { OnErr result ((h : List Item) → StandsFor self.old h → MayWant self.old step.now h) }
    {
        let hard = is_hard(self.pools.cores.at(index), id, error);
        if error.is_state_change_error() {
            return self.mark(alloc, step, index, error, hard, Asked::CheckNow);
        }
        self.mark(alloc, step, index, error, true, Asked::CancelIfCleared)
    }

    // An error about the connection of the pool tells nothing: it is not current, or it has no row.
    fn leaves_complaint(&self, pool: &PoolCore, id: u32, error: &Error) -> bool
        requires stands { StandsForSome self.now }
        ensures { is_live_now pool.now id ≡ true → result ≡ not (concerns_now self.now pool.now id error.now && is_some (case_of operating error.now)) }
    {
        !(self.is_current(pool, id, error) && has_row(error))
    }

    // An operation on the connection that the party holds met an error (SDAM, "Error handling pseudocode").
    pub(crate) fn operation_error(
        &mut self,
        alloc: Global,
        step: &Step,
        party: u32,
        error: &Error,
    ) -> Result<Decision, OutOfMemory>
        requires stands { StandsForSome self.old }
        requires in_time { self.old.pools.last ≤ step.now.moment }
        requires act { step.now.act ≡ ErrorAct party error.now }
        ensures same { self.new ≡ self.old }
        ensures becomes { IfOk result (λ stepped. (h : List Item) → StandsFor self.old h → BecomesOf self.old step.now stepped h) }
        ensures wants { OnErr result ((h : List Item) → StandsFor self.old h → MayWant self.old step.now h) }
    {
        let Some(index) = self.pools.holder(party) else {
            return Ok(Decision::Refused(Refused::NotHolder));
        };
        let Some(id) = held_by(self.pools.cores.at(index), party) else {
            return Ok(Decision::Refused(Refused::NotHolder));
        };
        if self.leaves_complaint(self.pools.cores.at(index), id, error) {
            let reply = Reply::Changed(false);
            return Ok(Decision::Accepted(Transition::of_reply(alloc, reply)));
        }
        if self.options.load_balanced {
            let service = service_cleared(self.pools.cores.at(index), id, error);
            return self.clear_service(alloc, step, index, service, error);
        }
        self.mark_complaint(alloc, step, index, party, id, error)
    }
}
