//! A check of a monitor begins.

ghost use Rattle.std.specs.Prelude.{◌≡◌, ◌≤◌, ◌<◌, ◌^◌, ◌+◌, ◌∷◌, [], not, IfOk, OnErr, List, nat_lt, true, false};
ghost use Rattle.mdb_log.specs.declared.step.Act.TheVariants.{Beat as BeatAct};
ghost use Rattle.mdb_events.specs.declared.fact.Fact.TheVariants.{Sdam};
ghost use Rattle.mdb_log.specs.Connections.{has, one_if};
ghost use Rattle.mdb_topology.specs.Checking.{number_limit};

use crate::monitors::monitoring::Monitoring;
use crate::topology::TopologyCore;
use crate::transition::{Decision, Transition};
use mdb_base::{OutOfMemory, ServerAddress};
use mdb_driver_pools::sdam_fact;
use mdb_events::{Fact, SdamEvent};
use mdb_log::{Refused, Reply, Step, What};
use mdb_monitor::{Begin, MonitorCore};
use std::alloc::{AllocError, Global};

// One fact.
fn told_once(alloc: Global, event: SdamEvent) -> Result<Vec<Fact>, AllocError>
    ensures { IfOk result (λ facts. facts.items ≡ Sdam event ∷ []) }
{
    let fact = sdam_fact(alloc, event)?;
    let mut facts = Vec::new(alloc);
    facts.push(fact)?;
    Ok(facts)
}

impl TopologyCore {
    ghost use Rattle.std.specs.Prelude.{slice_get, Some};
    ghost use Rattle.mdb_log.specs.History.{Item};
    ghost use Rattle.mdb_monitor.specs.declared.monitor.MonitorCore.{MonitorCore};
    ghost use Rattle.mdb_monitor.specs.Standing.{runs};
    ghost use Rattle.mdb_driver_rules.specs.Monitors.{fresh_for, is_connected};
    ghost use Rattle.mdb_topology.specs.Standing.{StandsFor, StandsForSome};
    ghost use Rattle.mdb_topology.specs.Stepping.{BecomesOf, MayWant};
    ghost use Rattle.mdb_topology.specs.Checking.{Begins};

    // The number of the connection that the next check of the monitor makes; one over a connection needs none.
    fn number_for(&self, index: usize) -> u64
        requires kept { has index self.now.monitors.kept ≡ true }
        ensures { (h : List Item) → StandsFor self.now h → result ≡ fresh_for h index }
    {
        if self.monitors.at(index).connected() {
            return 0;
        }
        self.fresh
    }

    // The number of a connection is past the limit.
    fn is_past_limit(&self, number: u64) -> bool
        ensures past { result ≡ nat_lt (number_limit self.now.options) number }
        ensures small { result ≡ false → number < 2 ^ 32 }
    {
        (self.options.limit_monitor.unwrap_or(u32::MAX) as u64) < number
    }

    // The monitor at the index with a check that begins.
    fn with_check(
        &self,
        alloc: Global,
        index: usize,
        number: u32,
    ) -> Result<(MonitorCore, Begin), OutOfMemory>
        requires kept { has index self.now.monitors.kept ≡ true }
        requires idle { (x : MonitorCore) → slice_get self.now.monitors.items index ≡ Some x → runs x ≡ false }
        ensures { IfOk result (λ (monitor, begin). (x : MonitorCore) → slice_get self.now.monitors.items index ≡ Some x → Begins x monitor number begin) }
    {
        let mut monitor = self.monitors.at(index).clone()?;
        let begin = monitor.begin(alloc, number)?;
        Ok((monitor, begin))
    }

    // How many checks began that connected, with the next one of the monitor.
    fn drawn(&self, index: usize) -> Result<u64, OutOfMemory>
        requires kept { has index self.now.monitors.kept ≡ true }
        ensures { IfOk result (λ numbers. (h : List Item) → StandsFor self.now h → numbers ≡ self.now.fresh + one_if (not (is_connected h index))) }
    {
        if self.monitors.at(index).connected() {
            return Ok(self.fresh);
        }
        match self.fresh.checked_add(1) {
            Some(numbers) => Ok(numbers),
            None => Err(OutOfMemory),
        }
    }

    // The monitor of a server begins a check (SDAM, "Server Monitoring").
    pub(crate) fn beat(
        &self,
        alloc: Global,
        step: &Step,
        address: &ServerAddress,
        pool: u32,
    ) -> Result<Decision, OutOfMemory>
        requires stands { StandsForSome self.now }
        requires in_time { self.now.pools.last ≤ step.now.moment }
        requires act { step.now.act ≡ BeatAct address.now pool }
        ensures becomes { IfOk result (λ stepped. (h : List Item) → StandsFor self.now h → BecomesOf self.now step.now stepped h) }
        ensures wants { OnErr result ((h : List Item) → StandsFor self.now h → MayWant self.now step.now h) }
    {
        let Some(index) = self.monitored(address, pool) else {
            return Ok(Decision::Refused(Refused::UnknownServer));
        };
        if self.monitors.at(index).running() {
            return Ok(Decision::Refused(Refused::CheckRunning));
        }
        if self.options.load_balanced {
            return Ok(Decision::Refused(Refused::WrongMode));
        }
        let number = self.number_for(index);
        if self.is_past_limit(number) {
            return Ok(Decision::Refused(Refused::Exhausted(What::Monitor)));
        }
        let numbers = self.drawn(index)?;
        let (monitor, begin) = self.with_check(alloc, index, number as u32)?;
        if self.is_past_limit(begin.driver_connection_id as u64) {
            drop(monitor);
            drop(begin);
            return Ok(Decision::Refused(Refused::Exhausted(What::Monitor)));
        }
        match told_once(alloc, begin.event) {
            Ok(facts) => Ok(Decision::Accepted(Transition {
                facts,
                monitoring: Monitoring::Checked(index, monitor, numbers),
                ..Transition::of_reply(alloc, Reply::Done)
            })),
            Err(e) => {
                drop(monitor);
                Err(e.into())
            }
        }
    }
}
