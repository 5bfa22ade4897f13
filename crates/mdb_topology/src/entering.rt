//! A step of one pool is done in that pool, in place, and logged.

ghost use Rattle.std.specs.Prelude.{◌≡◌, ◌≤◌, ◌++◌, ◌∷◌, [], OnOk, OnErr, IfOk, List, Some, slice_get, true};
ghost use Rattle.mdb_log.specs.declared.reply.Reply.TheVariants.{Refused as RefusedBy};

use crate::topology::TopologyCore;
use crate::transition::Transition;
use mdb_base::OutOfMemory;
use mdb_driver_pools::PoolDecision;
use mdb_log::{Log, Refused, Reply, Step};
use std::alloc::{AllocError, Global};

/// The refused step gets its entry, and nothing else changes.
pub(crate) fn refuse(
    alloc: Global,
    log: &mut Log,
    seat: u32,
    step: &Step,
    why: Refused,
) -> Result<Reply, AllocError>
    ensures ok { OnOk result (log.new ≡ log.old ++ record { seat = seat; step = step.now; reply = RefusedBy why; facts = [] } ∷ []) }
    ensures reply { IfOk result (λ told. told ≡ RefusedBy why) }
    ensures err { OnErr result (log.new ≡ log.old) }
{
    log.answer(seat, step, Reply::Refused(why), Vec::new(alloc))
}

impl TopologyCore {
    ghost use Rattle.mdb_log.specs.History.{Item};
    ghost use Rattle.mdb_pool.specs.Core.{PoolCore};
    ghost use Rattle.mdb_driver_pools.specs.declared.pool_decision.PoolDecision.TheVariants.{Concerns};
    ghost use Rattle.mdb_driver_rules.specs.Answer.{answer};
    ghost use Rattle.mdb_topology.specs.Entering.{Enters};
    ghost use Rattle.mdb_driver_rules.specs.Acts.{is_pool_act};
    ghost use Rattle.mdb_topology.specs.Standing.{IsSame, StandsFor, StandsForSome};
    ghost use Rattle.mdb_topology.specs.Stepping.{Logs};
    ghost use Rattle.mdb_driver_pools.specs.Taking.{IsReady};

    // The step, which concerns the pool at the place alone, is done in it and logged.
    fn enter_at(
        &mut self,
        alloc: Global,
        log: &mut Log,
        seat: u32,
        step: &Step,
        place: usize,
    ) -> Result<Reply, OutOfMemory>
        requires act { is_pool_act step.now.act ≡ true }
        requires ready { IsReady self.old.pools.cores.items step.now (Concerns place) }
        ensures enters { IfOk result (λ reply. (s : PoolCore) → slice_get self.old.pools.cores.items place ≡ Some s → Enters s place self.old self.new log.old log.new seat step.now reply) }
        ensures options { self.new.options ≡ self.old.options }
        ensures err_core { OnErr result (IsSame self.old self.new) }
        ensures err_log { OnErr result (log.new ≡ log.old) }
    {
        self.pools.known.reserve(1)?;
        let reply = self.pools.cores.enter_step(alloc, log, seat, step, place)?;
        self.pools.last = step.moment;
        self.pools.note(&step.act);
        self.monitors.let_go_at(&self.pools.cores, place);
        Ok(reply)
    }

    /// One step of an act of one pool, at or after the last moment.
    pub(crate) fn enter_pool_step(
        &mut self,
        alloc: Global,
        log: &mut Log,
        seat: u32,
        step: &Step,
    ) -> Result<Reply, OutOfMemory>
        requires stands { StandsForSome self.old }
        requires in_time { self.old.pools.last ≤ step.now.moment }
        requires act { is_pool_act step.now.act ≡ true }
        ensures options { self.new.options ≡ self.old.options }
        ensures logs { OnOk result ((h : List Item) → StandsFor self.old h → Logs self.old self.new log.old log.new seat step.now h) }
        ensures reply { IfOk result (λ reply. (h : List Item) → StandsFor self.old h → reply ≡ (answer self.old.options h step.now).reply) }
        ensures err_core { OnErr result (IsSame self.old self.new) }
        ensures err_log { OnErr result (log.new ≡ log.old) }
    {
        match self.pools.act(step) {
            PoolDecision::Refused(why) => Ok(refuse(alloc, log, seat, step, why)?),
            PoolDecision::Idle => {
                let next = Transition::of_reply(alloc, Reply::NoJob);
                self.accept(alloc, log, seat, step, next, None)
            }
            PoolDecision::Concerns(place) => {
                let reply = self.enter_at(alloc, log, seat, step, place)?;
                Ok(reply)
            }
        }
    }
}
