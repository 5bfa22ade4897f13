//! Steps by which a pending connection failed to be established.

ghost use Rattle.std.specs.Prelude.{◌≡◌, ◌≤◌, ◌<◌, ◌&&◌, nat_le, IfOk, OnErr, List, Some, None, is_some, not, slice_get, true, false};
ghost use Rattle.mdb_describe.specs.Descriptions.{failed};
ghost use Rattle.mdb_describe.specs.Differences.{difference};
ghost use Rattle.mdb_describe.specs.Update.{updated};
ghost use Rattle.mdb_log.specs.declared.step.Act.TheVariants.{Failed as FailedAct};
ghost use Rattle.mdb_log.specs.declared.step.FailedAt.{FailedAt as At};
ghost use Rattle.mdb_log.specs.declared.step.FailedAt.TheVariants.{Post as PostAt};
ghost use Rattle.mdb_pool.specs.Core.{PoolCore as Core};
ghost use Rattle.mdb_pool.specs.Now.{clears_before_now, clears_now, is_live_now};
ghost use Rattle.mdb_driver_rules.specs.Current.{establishing};
ghost use Rattle.mdb_driver_rules.specs.Errors.{case_of};
ghost use Rattle.mdb_topology.specs.Failing.{is_timely, is_uncleared, clears_after, service_after, asked_after};
ghost use Rattle.mdb_driver_pools.specs.Living.{lives_at};

use crate::errors::complaining::is_hard;
use crate::topology::TopologyCore;
use crate::transition::{Decision, Transition};
use mdb_base::{Error, ObjectId, OutOfMemory, ServerAddress};
use mdb_describe::TopologyDescription;
use mdb_driver_pools::pool_queries::{generation, generation_before, refusal_now};
use mdb_driver_pools::{Asked, PoolChange, PoolTrouble};
use mdb_events::Fact;
use mdb_log::{FailedAt, Refused, Reply, Step, What};
use mdb_pool::PoolCore;
use std::alloc::Global;

// The error has a row: it changes the state of the server, or the connection is lost.
fn has_failure_row(error: &Error) -> bool
    ensures { (at : At) → result ≡ is_some (case_of (establishing at) error.now) }
{
    error.is_state_change_error() || !error.contains_label("SystemOverloadedError")
}

// What the monitor is asked after the error.
fn asked_after(error: &Error) -> Asked
    ensures { result ≡ asked_after error.now }
{
    if error.is_state_change_error() {
        return Asked::CheckNow;
    }
    if error.is_auth_error() {
        return Asked::Nothing;
    }
    Asked::CancelIfCleared
}

// The error about the connection clears its pool, or its service.
fn clears_after(pool: &PoolCore, id: u32, error: &Error) -> bool
    ensures { result ≡ clears_after pool.now id error.now }
{
    let hard = is_hard(pool, id, error);
    !error.is_state_change_error() || hard
}

// The service that the error clears under load balancing.
fn service_after(pool: &PoolCore, id: u32, at: FailedAt, error: &Error) -> Option<ObjectId>
    ensures { result ≡ service_after pool.now id at error.now }
{
    if clears_after(pool, id, error) {
        return at.service_id();
    }
    None
}

// The pool was not cleared, or not for the service, since the connection was created.
fn is_uncleared(pool: &PoolCore, id: u32, service: Option<ObjectId>) -> bool
    ensures { is_live_now pool.now id ≡ true → result ≡ is_uncleared pool.now id service }
{
    match generation_before(pool, id, service) {
        Some(own) => own == generation(pool, service),
        None => false,
    }
}

// Under load balancing a connection without a service is never cleared.
fn is_kept(pool: &PoolCore, id: u32, service: Option<ObjectId>) -> bool
    ensures { is_live_now pool.now id ≡ true → result ≡ is_timely true pool.now id (PostAt service) }
{
    match service {
        Some(_) => is_uncleared(pool, id, service),
        None => true,
    }
}

// The generation of the connection is not below that of its pool.
fn is_not_below(pool: &PoolCore, id: u32) -> bool
    ensures { is_live_now pool.now id ≡ true → result ≡ nat_le (clears_now pool.now None) (clears_before_now pool.now id None) }
{
    match generation_before(pool, id, None) {
        Some(own) => generation(pool, None) <= own,
        None => false,
    }
}

impl TopologyCore {
    ghost use Rattle.mdb_log.specs.History.{Item};
    ghost use Rattle.mdb_driver_rules.specs.Description.{updates};
    ghost use Rattle.mdb_topology.specs.Failing.{is_timely, regards_now, TellsFailure, FailureTold};
    ghost use Rattle.mdb_driver_pools.specs.Failing.{IsFailing};
    ghost use Rattle.mdb_driver_pools.specs.Clearing.{AcceptsClear};
    ghost use Rattle.mdb_driver_pools.specs.declared.trouble.Asked.TheVariants.{Nothing};
    ghost use Rattle.mdb_topology.specs.Standing.{StandsFor, StandsForSome};
    ghost use Rattle.mdb_driver_pools.specs.Standing.{at_address};
    ghost use Rattle.mdb_topology.specs.Stepping.{BecomesOf, MayWant};

    // The connection is of the generation that its pool has.
    fn is_timely(&self, pool: &PoolCore, id: u32, at: FailedAt) -> bool
        ensures { is_live_now pool.now id ≡ true → result ≡ is_timely self.now.options.load_balanced pool.now id at }
    {
        match at {
            FailedAt::Pre => !self.options.load_balanced && is_not_below(pool, id),
            FailedAt::Post(service) if self.options.load_balanced => is_kept(pool, id, service),
            FailedAt::Post(_) => is_uncleared(pool, id, None),
        }
    }

    // The error about the pending connection of the pool is current.
    fn regards(&self, pool: &PoolCore, id: u32, at: FailedAt, error: &Error) -> bool
        requires stands { StandsForSome self.now }
        ensures { is_live_now pool.now id ≡ true → result ≡ regards_now self.now pool.now id at error.now }
    {
        if error.is_incompatible_server() {
            return false;
        }
        if !self.pools.is_here(pool.address(), pool.number()) {
            return false;
        }
        if !self.may_tell(pool.address(), error) {
            return false;
        }
        self.is_timely(pool, id, at)
    }

    // The error tells nothing: it is not current, or it has no row.
    fn leaves_failure(&self, pool: &PoolCore, id: u32, at: FailedAt, error: &Error) -> bool
        requires stands { StandsForSome self.now }
        ensures { is_live_now pool.now id ≡ true → result ≡ not (regards_now self.now pool.now id at error.now && is_some (case_of (establishing at) error.now)) }
    {
        !(self.regards(pool, id, at, error) && has_failure_row(error))
    }

    // No server is marked. The service is cleared, where there is one, and the connection fails.
    fn fail_unmarked(
        &mut self,
        alloc: Global,
        step: &Step,
        index: usize,
        service: Option<ObjectId>,
        error: &Error,
    ) -> Result<Decision, OutOfMemory>
        requires stands { StandsForSome self.old }
        requires in_time { self.old.pools.last ≤ step.now.moment }
        requires there { lives_at self.old.pools.cores.items index ≡ true }
        requires failing { (s : Core) → slice_get self.old.pools.cores.items index ≡ Some s → IsFailing s step.now error.now }
        requires balanced { is_some service ≡ true → self.old.options.load_balanced ≡ true }
        ensures same { self.new ≡ self.old }
        ensures becomes { IfOk result (λ stepped. (h : List Item) (s : Core) → StandsFor self.old h → slice_get self.old.pools.cores.items index ≡ Some s → TellsFailure self.old.options h step.now s None (is_some service) service error.now Nothing → BecomesOf self.old step.now stepped h) }
        ensures wants { OnErr result ((h : List Item) (s : Core) → StandsFor self.old h → slice_get self.old.pools.cores.items index ≡ Some s → TellsFailure self.old.options h step.now s None (is_some service) service error.now Nothing → MayWant self.old step.now h) }
    {
        if self.overspends_service(index, service) {
            return Ok(Decision::Refused(Refused::Exhausted(What::Generation)));
        }
        let cleared = service.is_some();
        let mut facts = Vec::new(alloc);
        let mut changes = Vec::new(alloc);
        let trouble = PoolTrouble {
            index,
            service,
            error,
            clears: cleared,
            asked: Asked::Nothing,
        };
        self.pools
            .plan_failure(alloc, step, &trouble, &mut facts, &mut changes)?;
        Ok(Decision::Accepted(Transition {
            facts,
            changes,
            ..Transition::of_reply(alloc, Reply::Done)
        }))
    }

    // The mark is told, and the connection fails, after a clear of its pool where something changed and the error clears.
    fn tell_failure(
        &mut self,
        alloc: Global,
        step: &Step,
        trouble: &PoolTrouble<'_>,
        address: &ServerAddress,
        later: &TopologyDescription,
    ) -> Result<(Vec<Fact>, Vec<PoolChange>), OutOfMemory>
        requires stands { StandsForSome self.old }
        requires in_time { self.old.pools.last ≤ step.now.moment }
        requires there { lives_at self.old.pools.cores.items trouble.now.index ≡ true }
        requires failing { (s : Core) → slice_get self.old.pools.cores.items trouble.now.index ≡ Some s → IsFailing s step.now trouble.now.error.now }
        requires here { at_address self.old.pools.cores.items address.now ≡ Some trouble.now.index }
        requires marked { later.now ≡ updated self.old.description (failed address.now trouble.now.error.now) }
        requires accepted { is_some (difference self.old.description.servers later.now.servers) && trouble.now.clears ≡ true → AcceptsClear self.old.pools.cores.items trouble.now.index step.now.moment None trouble.now.error.now }
        ensures same { self.new ≡ self.old }
        ensures told { IfOk result (λ (facts, changes). FailureTold self.old step.now trouble.now.index later.now trouble.now.error.now trouble.now.clears trouble.now.asked changes.items facts.items) }
    {
        let diff = self.description.diff(alloc, later)?;
        let mut facts = Vec::new(alloc);
        let moment = step.moment;
        let planned = self.publish_mark(alloc, moment, later, &diff, &mut facts)?;
        drop(planned);
        let changed = diff.is_some();
        drop(diff);
        let mut changes = Vec::new(alloc);
        let cleared = changed && trouble.clears;
        let failure = PoolTrouble {
            index: trouble.index,
            service: None,
            error: trouble.error,
            clears: cleared,
            asked: trouble.asked,
        };
        self.pools
            .plan_failure(alloc, step, &failure, &mut facts, &mut changes)?;
        Ok((facts, changes))
    }

    // The server is marked Unknown by the error, and the connection fails.
    fn fail_marked(
        &mut self,
        alloc: Global,
        step: &Step,
        index: usize,
        error: &Error,
        clears: bool,
    ) -> Result<Decision, OutOfMemory>
        requires stands { StandsForSome self.old }
        requires in_time { self.old.pools.last ≤ step.now.moment }
        requires normal { self.old.options.load_balanced ≡ false }
        requires there { lives_at self.old.pools.cores.items index ≡ true }
        requires failing { (s : Core) → slice_get self.old.pools.cores.items index ≡ Some s → IsFailing s step.now error.now }
        requires here { (s : Core) → slice_get self.old.pools.cores.items index ≡ Some s → at_address self.old.pools.cores.items s.address ≡ Some index }
        ensures same { self.new ≡ self.old }
        ensures becomes { IfOk result (λ stepped. (h : List Item) (s : Core) → StandsFor self.old h → slice_get self.old.pools.cores.items index ≡ Some s → TellsFailure self.old.options h step.now s (Some (updates (failed s.address error.now))) (is_some (difference self.old.description.servers (updated self.old.description (failed s.address error.now)).servers) && clears) None error.now (asked_after error.now) → BecomesOf self.old step.now stepped h) }
        ensures wants { OnErr result ((h : List Item) (s : Core) → StandsFor self.old h → slice_get self.old.pools.cores.items index ≡ Some s → TellsFailure self.old.options h step.now s (Some (updates (failed s.address error.now))) (is_some (difference self.old.description.servers (updated self.old.description (failed s.address error.now)).servers) && clears) None error.now (asked_after error.now) → MayWant self.old step.now h) }
    {
        if self.overspends(index, self.pools.cores.at(index).address(), error, clears) {
            return Ok(Decision::Refused(Refused::Exhausted(What::Generation)));
        }
        let address = self.pools.cores.at(index).address().clone()?;
        let later = self.after_error(alloc, &address, error)?;
        let asked = asked_after(error);
        let trouble = PoolTrouble {
            index,
            service: None,
            error,
            clears,
            asked,
        };
        let told = self.tell_failure(alloc, step, &trouble, &address, &later);
        match told {
            Ok((facts, changes)) => Ok(Decision::Accepted(Transition {
                facts,
                changes,
                description: Some(later),
                ..Transition::of_reply(alloc, Reply::Done)
            })),
            Err(e) => {
                drop(later);
                Err(e)
            }
        }
    }

    // A pending connection of the pool at the index fails.
    fn fail_at(
        &mut self,
        alloc: Global,
        step: &Step,
        index: usize,
        id: u32,
        at: FailedAt,
        error: &Error,
    ) -> Result<Decision, OutOfMemory>
        requires stands { StandsForSome self.old }
        requires in_time { self.old.pools.last ≤ step.now.moment }
        requires act { step.now.act ≡ FailedAct index id at error.now }
        requires there { lives_at self.old.pools.cores.items index ≡ true }
        requires failing { (s : Core) → slice_get self.old.pools.cores.items index ≡ Some s → IsFailing s step.now error.now }
        ensures same { self.new ≡ self.old }
        ensures becomes { IfOk result (λ stepped. (h : List Item) → StandsFor self.old h → BecomesOf self.old step.now stepped h) }
        ensures wants { OnErr result ((h : List Item) → StandsFor self.old h → MayWant self.old step.now h) }
    {
        if self.leaves_failure(self.pools.cores.at(index), id, at, error) {
            return self.fail_unmarked(alloc, step, index, None, error);
        }
        if self.options.load_balanced {
            let service = service_after(self.pools.cores.at(index), id, at, error);
            return self.fail_unmarked(alloc, step, index, service, error);
        }
        let clears = clears_after(self.pools.cores.at(index), id, error);
        self.fail_marked(alloc, step, index, error, clears)
    }

    /// A pending connection failed to be established (SDAM, "Error handling pseudocode").
    pub(crate) fn connection_failed(
        &mut self,
        alloc: Global,
        step: &Step,
        number: u32,
        id: u32,
        at: FailedAt,
        error: &Error,
    ) -> Result<Decision, OutOfMemory>
        requires stands { StandsForSome self.old }
        requires in_time { self.old.pools.last ≤ step.now.moment }
        requires act { step.now.act ≡ FailedAct number id at error.now }
        ensures same { self.new ≡ self.old }
        ensures becomes { IfOk result (λ stepped. (h : List Item) → StandsFor self.old h → BecomesOf self.old step.now stepped h) }
        ensures wants { OnErr result ((h : List Item) → StandsFor self.old h → MayWant self.old step.now h) }
    {
        let Some(index) = self.pools.numbered(number) else {
            return Ok(Decision::Refused(Refused::NotPending));
        };
        if let Some(why) = refusal_now(self.pools.cores.at(index), step) {
            return Ok(Decision::Refused(why));
        }
        self.fail_at(alloc, step, index, id, at, error)
    }
}
