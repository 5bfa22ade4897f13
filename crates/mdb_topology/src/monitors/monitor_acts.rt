//! The acts of monitors, and of watchers who ask for a check.

ghost use Rattle.std.specs.Prelude.{◌≡◌, ◌≤◌, IfOk, IfSome, OnErr, is_some, List, true};
ghost use Rattle.mdb_log.specs.declared.step.Act.TheVariants.{Rtt as RttAct, Want as WantAct, Unwant as UnwantAct};
ghost use Rattle.mdb_log.specs.Connections.{has};

use crate::monitors::monitoring::Monitoring;
use crate::topology::TopologyCore;
use crate::transition::{Decision, Transition};
use mdb_base::{Nanos, OutOfMemory, ServerAddress};
use mdb_log::{Refused, Reply, Step};
use mdb_monitor::MonitorCore;
use std::alloc::{AllocError, Global};

impl TopologyCore {
    ghost use Rattle.std.specs.Prelude.{slice_get, Some};
    ghost use Rattle.mdb_log.specs.History.{Item};
    ghost use Rattle.mdb_monitor.specs.declared.monitor.MonitorCore.{MonitorCore};
    ghost use Rattle.mdb_topology.specs.Standing.{StandsFor, StandsForSome};
    ghost use Rattle.mdb_topology.specs.Stepping.{BecomesOf, MayWant};
    ghost use Rattle.mdb_driver_pools.specs.Standing.{is_here_among};
    ghost use Rattle.mdb_topology.specs.Checking.{Measures};

    // The index of the monitor of the pool, where that is the open one of the address.
    pub(crate) fn monitored(&self, address: &ServerAddress, pool: u32) -> Option<usize>
        requires stands { StandsForSome self.now }
        ensures here { is_some result ≡ is_here_among self.now.pools.cores.items address.now pool }
        ensures index { IfSome result (λ i. i ≡ pool) }
        ensures kept { IfSome result (λ i. has i self.now.monitors.kept ≡ true) }
    {
        if self.pools.is_here(address, pool) {
            return Some(pool as usize);
        }
        None
    }

    // The monitor at the index with one more round trip, and the average afterwards.
    fn sampled(&self, index: usize, sample: Nanos) -> Result<(MonitorCore, Nanos), AllocError>
        requires kept { has index self.now.monitors.kept ≡ true }
        ensures { IfOk result (λ (monitor, average). (x : MonitorCore) → slice_get self.now.monitors.items index ≡ Some x → Measures x monitor sample average) }
    {
        let mut monitor = self.monitors.at(index).clone()?;
        let average = monitor.rtt_sample(sample);
        Ok((monitor, average))
    }

    // A round trip to a server was measured (SDAM, "Server Monitoring", "Measuring RTT").
    pub(crate) fn rtt(
        &self,
        alloc: Global,
        step: &Step,
        address: &ServerAddress,
        pool: u32,
        sample: Nanos,
    ) -> Result<Decision, OutOfMemory>
        requires stands { StandsForSome self.now }
        requires in_time { self.now.pools.last ≤ step.now.moment }
        requires act { step.now.act ≡ RttAct address.now pool sample }
        ensures becomes { IfOk result (λ stepped. (h : List Item) → StandsFor self.now h → BecomesOf self.now step.now stepped h) }
        ensures wants { OnErr result ((h : List Item) → StandsFor self.now h → MayWant self.now step.now h) }
    {
        if self.options.load_balanced {
            return Ok(Decision::Refused(Refused::WrongMode));
        }
        let Some(index) = self.monitored(address, pool) else {
            let reply = Reply::Changed(false);
            return Ok(Decision::Accepted(Transition::of_reply(alloc, reply)));
        };
        let (monitor, average) = self.sampled(index, sample)?;
        Ok(Decision::Accepted(Transition {
            monitoring: Monitoring::Checked(index, monitor, self.fresh),
            ..Transition::of_reply(alloc, Reply::Count(average))
        }))
    }

    // A watcher asks for a check.
    pub(crate) fn want(
        &self,
        alloc: Global,
        step: &Step,
        watcher: u32,
    ) -> Result<Decision, OutOfMemory>
        requires in_time { self.now.pools.last ≤ step.now.moment }
        requires act { step.now.act ≡ WantAct watcher }
        ensures becomes { IfOk result (λ stepped. (h : List Item) → StandsFor self.now h → BecomesOf self.now step.now stepped h) }
        ensures wants { OnErr result ((h : List Item) → StandsFor self.now h → MayWant self.now step.now h) }
    {
        let mut watchers = self.watchers.clone()?;
        match watchers.want(alloc, watcher) {
            Ok(count) => Ok(Decision::Accepted(Transition {
                monitoring: Monitoring::Asked(watchers),
                ..Transition::of_reply(alloc, Reply::Count(count))
            })),
            Err(e) => {
                drop(watchers);
                Err(e)
            }
        }
    }

    // A watcher asks for a check no longer.
    pub(crate) fn unwant(
        &self,
        alloc: Global,
        step: &Step,
        watcher: u32,
    ) -> Result<Decision, OutOfMemory>
        requires in_time { self.now.pools.last ≤ step.now.moment }
        requires act { step.now.act ≡ UnwantAct watcher }
        ensures becomes { IfOk result (λ stepped. (h : List Item) → StandsFor self.now h → BecomesOf self.now step.now stepped h) }
        ensures wants { OnErr result ((h : List Item) → StandsFor self.now h → MayWant self.now step.now h) }
    {
        let mut watchers = self.watchers.clone()?;
        let count = watchers.unwant(watcher);
        Ok(Decision::Accepted(Transition {
            monitoring: Monitoring::Asked(watchers),
            ..Transition::of_reply(alloc, Reply::Count(count))
        }))
    }
}
