//! The acts that concern the topology as a whole.

ghost use Rattle.std.specs.Prelude.{◌≡◌, ◌≤◌, ◌++◌, ◌∷◌, ◌||◌, not, [], IfOk, OnOk, OnErr, List};
ghost use Rattle.mdb_driver_rules.specs.Publishing.{topology_closed_fact};
ghost use Rattle.mdb_log.specs.declared.step.Act.TheVariants.{Hello as HelloAct, Hosts as HostsAct, ClusterTime as TimeAct, Stop as StopAct};
ghost use Rattle.mdb_log.specs.declared.checked.HelloResult.TheVariants.{Ok as Replied};

use crate::known::rules::described;
use crate::topology::TopologyCore;
use crate::transition::{Decision, Transition};
use mdb_base::{ClusterTime, Nanos, OutOfMemory, ServerAddress};
use mdb_driver_pools::tell_event;
use mdb_events::{Fact, SdamEvent, TopologyClosedEvent};
use mdb_hello::HelloCommandResponse;
use mdb_log::{Refused, Reply, Step};
use mdb_srv::should_poll;
use std::alloc::{AllocError, Global};

impl TopologyCore {
    ghost use Rattle.mdb_log.specs.History.{Item};
    ghost use Rattle.mdb_topology.specs.Standing.{StandsFor, StandsForSome};
    ghost use Rattle.mdb_srv.specs.Polling.{is_polled};
    ghost use Rattle.mdb_topology.specs.Stepping.{BecomesOf, MayWant};
    ghost use Rattle.mdb_driver_pools.specs.Standing.{is_here_among};

    // A reply for the pool makes nothing known: the driver was stopped, or the pool is not the open one of the address.
    pub(crate) fn leaves_reply(&self, address: &ServerAddress, pool: u32) -> bool
        requires stands { StandsForSome self.now }
        ensures { result ≡ self.now.stopped || not (is_here_among self.now.pools.cores.items address.now pool) }
    {
        self.stopped || !self.pools.is_here(address, pool)
    }

    // Hosts that were named make nothing known: the driver was stopped, or its topology does not poll.
    fn leaves_hosts(&self) -> bool
        ensures { result ≡ self.now.stopped || not (is_polled self.now.description.topology_type) }
    {
        self.stopped || !should_poll(self.description.topology_type())
    }

    // The hello of a server came back (SDAM, "Updating the TopologyDescription").
    pub(crate) fn hello(
        &mut self,
        alloc: Global,
        step: &Step,
        address: &ServerAddress,
        pool: u32,
        rtt: Nanos,
        reply: &HelloCommandResponse,
    ) -> Result<Decision, OutOfMemory>
        requires stands { StandsForSome self.old }
        requires in_time { self.old.pools.last ≤ step.now.moment }
        requires act { step.now.act ≡ HelloAct address.now pool (Replied rtt reply.now) }
        ensures same { self.new ≡ self.old }
        ensures becomes { IfOk result (λ stepped. (h : List Item) → StandsFor self.old h → BecomesOf self.old step.now stepped h) }
        ensures wants { OnErr result ((h : List Item) → StandsFor self.old h → MayWant self.old step.now h) }
    {
        if self.options.load_balanced {
            return Ok(Decision::Refused(Refused::WrongMode));
        }
        if self.leaves_reply(address, pool) {
            let reply = Reply::Changed(false);
            return Ok(Decision::Accepted(Transition::of_reply(alloc, reply)));
        }
        let server = described(alloc, address, rtt, reply, step.moment)?;
        self.change_server(alloc, step, server)
    }

    // SRV records named these hosts ("Polling SRV Records").
    pub(crate) fn hosts(
        &mut self,
        alloc: Global,
        step: &Step,
        hosts: &[ServerAddress],
    ) -> Result<Decision, OutOfMemory>
        requires stands { StandsForSome self.old }
        requires in_time { self.old.pools.last ≤ step.now.moment }
        requires act { step.now.act ≡ HostsAct hosts.now }
        ensures same { self.new ≡ self.old }
        ensures becomes { IfOk result (λ stepped. (h : List Item) → StandsFor self.old h → BecomesOf self.old step.now stepped h) }
        ensures wants { OnErr result ((h : List Item) → StandsFor self.old h → MayWant self.old step.now h) }
    {
        if self.leaves_hosts() {
            let reply = Reply::Changed(false);
            return Ok(Decision::Accepted(Transition::of_reply(alloc, reply)));
        }
        if let Some(what) = self.exhausted_by(hosts) {
            return Ok(Decision::Refused(Refused::Exhausted(what)));
        }
        let later = self.after_hosts(alloc, hosts)?;
        self.change(alloc, step, later)
    }

    // A reply told a time of the cluster, which is told to nobody.
    pub(crate) fn cluster_time(
        &self,
        alloc: Global,
        step: &Step,
        time: ClusterTime,
    ) -> Result<Decision, OutOfMemory>
        requires in_time { self.now.pools.last ≤ step.now.moment }
        requires act { step.now.act ≡ TimeAct time }
        ensures becomes { IfOk result (λ stepped. (h : List Item) → StandsFor self.now h → BecomesOf self.now step.now stepped h) }
        ensures wants { OnErr result ((h : List Item) → StandsFor self.now h → MayWant self.now step.now h) }
    {
        if self.stopped {
            return Ok(Decision::Accepted(Transition::of_reply(alloc, Reply::Done)));
        }
        let later = self.after_time(time)?;
        Ok(Decision::Accepted(Transition {
            description: Some(later),
            ..Transition::of_reply(alloc, Reply::Done)
        }))
    }

    // One more fact: the topology is closed.
    fn tell_closed(&self, alloc: Global, facts: &mut Vec<Fact>) -> Result<(), AllocError>
        ensures { OnOk result (facts.new.items ≡ facts.old.items ++ topology_closed_fact self.now.options ∷ []) }
    {
        let event = TopologyClosedEvent {
            topology_id: self.options.topology_id,
        };
        tell_event(alloc, facts, SdamEvent::TopologyClosed(event))
    }

    // The driver is stopped: all servers go, and at last the topology.
    pub(crate) fn stop_all(&mut self, alloc: Global, step: &Step) -> Result<Decision, OutOfMemory>
        requires stands { StandsForSome self.old }
        requires in_time { self.old.pools.last ≤ step.now.moment }
        requires act { step.now.act ≡ StopAct }
        ensures same { self.new ≡ self.old }
        ensures becomes { IfOk result (λ stepped. (h : List Item) → StandsFor self.old h → BecomesOf self.old step.now stepped h) }
        ensures wants { OnErr result ((h : List Item) → StandsFor self.old h → MayWant self.old step.now h) }
    {
        if self.stopped {
            return Ok(Decision::Accepted(Transition {
                stops: true,
                ..Transition::of_reply(alloc, Reply::Done)
            }));
        }
        let later = self.after_stop()?;
        let diff = self.description.diff(alloc, &later)?;
        let mut told = self.tell(alloc, step.moment, &later, &diff)?;
        drop(diff);
        self.tell_closed(alloc, &mut told.facts)?;
        Ok(Decision::Accepted(told.into_next(Reply::Done, later, true)))
    }
}
