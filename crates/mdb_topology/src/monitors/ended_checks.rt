//! A check of a monitor ends.

ghost use Rattle.std.specs.Prelude.{◌≡◌, ◌≤◌, IfOk, OnErr, List, slice_get, Some, true};
ghost use Rattle.mdb_log.specs.declared.step.Act.TheVariants.{Beaten as BeatenAct};
ghost use Rattle.mdb_driver_rules.specs.Monitors.{check_result};
ghost use Rattle.mdb_log.specs.Connections.{has};

use crate::known::rules::{described, hello_reply};
use crate::monitors::monitoring::Monitoring;
use crate::topology::TopologyCore;
use crate::transition::{Decision, Transition};
use mdb_base::{Moment, Nanos, OutOfMemory, ServerAddress};
use mdb_describe::ServerDescription;
use mdb_driver_pools::{Asked, PoolTrouble};
use mdb_events::SdamEvent;
use mdb_log::{BeatenResult, Refused, Reply, Step, What};
use mdb_monitor::{CheckResult, Finish, MonitorCore, Report};
use std::alloc::{AllocError, Global};

// What the check came to, for its monitor.
pub(crate) fn check_result(
    alloc: Global,
    address: &ServerAddress,
    came: &BeatenResult,
) -> Result<CheckResult, AllocError>
    ensures { IfOk result (λ made. made ≡ check_result address.now came.now) }
{
    Ok(match came {
        BeatenResult::Ok(reply, more) => {
            CheckResult::Ok(hello_reply(alloc, address, reply.get())?, *more)
        }
        BeatenResult::Err(error) => CheckResult::Err(error.get().clone()?),
        BeatenResult::Cancelled(error) => CheckResult::Cancelled(error.get().clone()?),
    })
}

impl TopologyCore {
    ghost use Rattle.mdb_monitor.specs.Standing.{runs};
    ghost use Rattle.mdb_log.specs.History.{Item};
    ghost use Rattle.mdb_topology.specs.Standing.{StandsFor, StandsForSome};
    ghost use Rattle.mdb_topology.specs.Stepping.{BecomesOf, MayWant};
    ghost use Rattle.mdb_topology.specs.Checking.{Ends};
    ghost use Rattle.mdb_topology.specs.Changing.{known_with, reply_known, ChangesIf, ConcludesAs};
    ghost use Rattle.mdb_monitor.specs.declared.monitor.MonitorCore.{MonitorCore};

    // The monitor at the index with the end of its check, and what follows from it.
    fn with_end(
        &self,
        alloc: Global,
        index: usize,
        address: &ServerAddress,
        duration: Nanos,
        came: &BeatenResult,
    ) -> Result<(MonitorCore, Finish), OutOfMemory>
        requires kept { has index self.now.monitors.kept ≡ true }
        requires running { (x : MonitorCore) → slice_get self.now.monitors.items index ≡ Some x → runs x ≡ true }
        ensures { IfOk result (λ (monitor, finish). (x : MonitorCore) → slice_get self.now.monitors.items index ≡ Some x → Ends x monitor duration (check_result address.now came.now) finish) }
    {
        let result = check_result(alloc, address, came)?;
        match self.monitors.at(index).clone() {
            Ok(mut monitor) => match monitor.finish(alloc, duration, result, false) {
                Ok(finish) => Ok((monitor, finish)),
                Err(e) => {
                    drop(monitor);
                    Err(e)
                }
            },
            Err(_) => {
                drop(result);
                Err(OutOfMemory)
            }
        }
    }

    // The server as a check describes it, where it has a reply and the driver was not stopped.
    fn after_check(
        &self,
        alloc: Global,
        address: &ServerAddress,
        came: &BeatenResult,
        report: &Report,
        at: Moment,
    ) -> Result<Option<ServerDescription>, OutOfMemory>
        ensures { IfOk result (λ server. known_with self.now server ≡ reply_known self.now address.now at came.now report.now) }
    {
        let BeatenResult::Ok(reply, _) = came else {
            return Ok(None);
        };
        let Report::Update(_, average) = report else {
            return Ok(None);
        };
        if self.stopped {
            return Ok(None);
        }
        Ok(Some(described(alloc, address, *average, reply.get(), at)?))
    }

    // The change that a description makes, or none.
    fn change_to(
        &mut self,
        alloc: Global,
        step: &Step,
        server: Option<ServerDescription>,
    ) -> Result<Decision, OutOfMemory>
        requires stands { StandsForSome self.old }
        requires in_time { self.old.pools.last ≤ step.now.moment }
        ensures same { self.new ≡ self.old }
        ensures changes { IfOk result (λ stepped. ChangesIf self.old step.now.moment (known_with self.old server) stepped) }
    {
        match server {
            Some(server) => self.change_server(alloc, step, server),
            None => {
                let reply = Reply::Changed(false);
                Ok(Decision::Accepted(Transition::of_reply(alloc, reply)))
            }
        }
    }

    // The change with what is done at the monitors, and the event of the check first.
    fn conclude(
        &mut self,
        alloc: Global,
        step: &Step,
        monitoring: Monitoring,
        event: SdamEvent,
        server: Option<ServerDescription>,
    ) -> Result<Decision, OutOfMemory>
        requires stands { StandsForSome self.old }
        requires in_time { self.old.pools.last ≤ step.now.moment }
        ensures same { self.new ≡ self.old }
        ensures concludes { IfOk result (λ stepped. ConcludesAs self.old step.now.moment monitoring event (known_with self.old server) stepped) }
    {
        match self.change_to(alloc, step, server) {
            Ok(Decision::Accepted(next)) => {
                Ok(Decision::Accepted(next.with_check(alloc, monitoring, event)?))
            }
            Ok(Decision::Repeated(next, server)) => {
                let next = next.with_check(alloc, monitoring, event)?;
                Ok(Decision::Repeated(next, server))
            }
            Ok(Decision::Refused(why)) => {
                drop(monitoring);
                drop(event);
                Ok(Decision::Refused(why))
            }
            Err(e) => {
                drop(monitoring);
                drop(event);
                Err(e)
            }
        }
    }

    // The check of a monitor ended (SDAM, "Server Monitoring"). Where the pool is not the open one of the address, it tells nothing.
    pub(crate) fn beaten(
        &mut self,
        alloc: Global,
        step: &Step,
        address: &ServerAddress,
        pool: u32,
        duration: Nanos,
        came: &BeatenResult,
    ) -> Result<Decision, OutOfMemory>
        requires stands { StandsForSome self.old }
        requires in_time { self.old.pools.last ≤ step.now.moment }
        requires act { step.now.act ≡ BeatenAct address.now pool duration came.now }
        ensures same { self.new ≡ self.old }
        ensures becomes { IfOk result (λ stepped. (h : List Item) → StandsFor self.old h → BecomesOf self.old step.now stepped h) }
        ensures wants { OnErr result ((h : List Item) → StandsFor self.old h → MayWant self.old step.now h) }
    {
        let Some(index) = self.monitored(address, pool) else {
            if self.options.load_balanced {
                return Ok(Decision::Refused(Refused::WrongMode));
            }
            let reply = Reply::Changed(false);
            return Ok(Decision::Accepted(Transition::of_reply(alloc, reply)));
        };
        if !self.monitors.at(index).running() {
            return Ok(Decision::Refused(Refused::NotChecking));
        }
        if self.options.load_balanced {
            return Ok(Decision::Refused(Refused::WrongMode));
        }
        if self.overspends_by_check(index, address, came) {
            return Ok(Decision::Refused(Refused::Exhausted(What::Generation)));
        }
        let (monitor, finish) = self.with_end(alloc, index, address, duration, came)?;
        let monitoring = Monitoring::Checked(index, monitor, self.fresh);
        if let BeatenResult::Err(error) = came {
            let trouble = PoolTrouble {
                index,
                service: None,
                error: error.get(),
                clears: true,
                asked: Asked::Nothing,
            };
            let next = self.fail(alloc, step, &trouble, address, monitoring, finish.event)?;
            return Ok(Decision::Accepted(next));
        }
        match self.after_check(alloc, address, came, &finish.report, step.moment) {
            Ok(server) => self.conclude(alloc, step, monitoring, finish.event, server),
            Err(e) => {
                drop(monitoring);
                drop(finish);
                Err(e)
            }
        }
    }
}
