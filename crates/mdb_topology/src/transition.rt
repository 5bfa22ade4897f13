//! What becomes of a step of a driver.

ghost use Rattle.std.specs.Prelude.{◌≡◌, [], IfOk, false, None};
ghost use Rattle.mdb_topology.specs.declared.monitors.monitoring.Monitoring.TheVariants.{Same};

use crate::monitors::monitoring::Monitoring;
use mdb_describe::{ServerDescription, TopologyDescription};
use mdb_driver_pools::{PoolChange, sdam_fact};
use mdb_events::{Fact, SdamEvent};
use mdb_log::{Refused, Reply};
use mdb_monitor::MonitorCore;
use std::alloc::{AllocError, Global};

/// What an accepted step makes of a driver, with all memory that it needs.
#[derive(Drop)]
pub struct Transition {
    pub reply: Reply,
    pub facts: Vec<Fact>,
    pub changes: Vec<PoolChange>,
    /// What is known of the topology afterwards, where the step applies a rule.
    pub description: Option<TopologyDescription>,
    /// The monitors of the pools that it opens.
    pub monitors: Vec<MonitorCore>,
    /// What it does at the monitors that there are.
    pub monitoring: Monitoring,
    /// The driver is stopped.
    pub stops: bool,
}

impl Transition {
    /// Nothing but a reply.
    pub(crate) fn of_reply(alloc: Global, reply: Reply) -> Transition
        ensures reply { result.reply ≡ reply }
        ensures facts { result.facts.items ≡ [] }
        ensures changes { result.changes.items ≡ [] }
        ensures description { result.description ≡ None }
        ensures monitors { result.monitors.items ≡ [] }
        ensures monitoring { result.monitoring ≡ Same }
        ensures stops { result.stops ≡ false }
    {
        Transition {
            reply,
            facts: Vec::new(alloc),
            changes: Vec::new(alloc),
            description: None,
            monitors: Vec::new(alloc),
            monitoring: Monitoring::Same,
            stops: false,
        }
    }
}

impl Transition {
    ghost use Rattle.mdb_topology.specs.Changing.{IsWithCheck};

    /// What an accepted step makes, with what is done at the monitors, and the event of a check before its facts.
    pub(crate) fn with_check(
        self,
        alloc: Global,
        monitoring: Monitoring,
        event: SdamEvent,
    ) -> Result<Transition, AllocError>
        ensures { IfOk result (λ next. IsWithCheck self next monitoring event) }
    {
        match sdam_fact(alloc, event) {
            Ok(fact) => {
                let mut next = self;
                next.facts.insert(0, fact)?;
                next.monitoring = monitoring;
                Ok(next)
            }
            Err(e) => {
                drop(self);
                drop(monitoring);
                Err(e)
            }
        }
    }
}

/// What becomes of a step of a driver.
#[derive(Drop)]
pub enum Decision {
    /// The step is refused, and nothing changes.
    Refused(Refused),
    Accepted(Transition),
    /// The step is accepted, and a description that says again what is known of its server takes the place of the one before it.
    Repeated(Transition, ServerDescription),
}
