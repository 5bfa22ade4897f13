//! A check of a monitor failed.

ghost use Rattle.std.specs.Prelude.{◌≡◌, ◌≤◌, ◌&&◌, IfOk, None, Some, is_some, true, false};
ghost use Rattle.mdb_describe.specs.Descriptions.{failed};
ghost use Rattle.mdb_describe.specs.Differences.{difference};
ghost use Rattle.mdb_describe.specs.Update.{updated};

use crate::monitors::monitoring::Monitoring;
use crate::topology::TopologyCore;
use crate::transition::Transition;
use mdb_base::{OutOfMemory, ServerAddress};
use mdb_driver_pools::PoolTrouble;
use mdb_events::SdamEvent;
use mdb_log::{Reply, Step};
use std::alloc::Global;

impl TopologyCore {
    ghost use Rattle.mdb_driver_rules.specs.Errors.{Trouble};
    ghost use Rattle.mdb_topology.specs.Marking.{IsOfPool, FailsTo, FailsAs};
    ghost use Rattle.mdb_driver_pools.specs.Clearing.{AcceptsClear};
    ghost use Rattle.mdb_topology.specs.Standing.{StandsForSome};
    ghost use Rattle.mdb_driver_pools.specs.Standing.{at_address};

    // The server whose check failed is marked Unknown, unless the driver was stopped.
    fn mark_failed(
        &mut self,
        alloc: Global,
        step: &Step,
        trouble: &PoolTrouble<'_>,
        address: &ServerAddress,
    ) -> Result<Transition, OutOfMemory>
        requires stands { StandsForSome self.old }
        requires in_time { self.old.pools.last ≤ step.now.moment }
        requires normal { self.old.options.load_balanced ≡ false }
        requires here { at_address self.old.pools.cores.items address.now ≡ Some trouble.now.index }
        requires accepted { self.old.stopped ≡ false → is_some (difference self.old.description.servers (updated self.old.description (failed address.now trouble.now.error.now)).servers) && trouble.now.clears ≡ true → AcceptsClear self.old.pools.cores.items trouble.now.index step.now.moment None trouble.now.error.now }
        ensures same { self.new ≡ self.old }
        ensures fails { IfOk result (λ next. (x : Trouble) → IsOfPool self.old.options x trouble.now.index address.now trouble.now.error.now trouble.now.clears trouble.now.asked → FailsTo self.old step.now.moment (updated self.old.description (failed address.now trouble.now.error.now)) x self.old.stopped next) }
    {
        if self.stopped {
            return Ok(Transition::of_reply(alloc, Reply::Changed(false)));
        }
        self.mark_at(alloc, step, trouble, address)
    }

    /// The mark with what the check does at the monitors, and its event first.
    pub(crate) fn fail(
        &mut self,
        alloc: Global,
        step: &Step,
        trouble: &PoolTrouble<'_>,
        address: &ServerAddress,
        monitoring: Monitoring,
        event: SdamEvent,
    ) -> Result<Transition, OutOfMemory>
        requires stands { StandsForSome self.old }
        requires in_time { self.old.pools.last ≤ step.now.moment }
        requires normal { self.old.options.load_balanced ≡ false }
        requires here { at_address self.old.pools.cores.items address.now ≡ Some trouble.now.index }
        requires accepted { self.old.stopped ≡ false → is_some (difference self.old.description.servers (updated self.old.description (failed address.now trouble.now.error.now)).servers) && trouble.now.clears ≡ true → AcceptsClear self.old.pools.cores.items trouble.now.index step.now.moment None trouble.now.error.now }
        ensures same { self.new ≡ self.old }
        ensures fails { IfOk result (λ next. (x : Trouble) → IsOfPool self.old.options x trouble.now.index address.now trouble.now.error.now trouble.now.clears trouble.now.asked → FailsAs self.old step.now.moment monitoring event (updated self.old.description (failed address.now trouble.now.error.now)) x next) }
    {
        match self.mark_failed(alloc, step, trouble, address) {
            Ok(next) => Ok(next.with_check(alloc, monitoring, event)?),
            Err(e) => {
                drop(monitoring);
                drop(event);
                Err(e)
            }
        }
    }
}
