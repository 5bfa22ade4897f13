//! What a change of the topology comes to: its facts, the changes of pools, and the monitors of new ones.

ghost use Rattle.std.specs.Prelude.{◌≡◌, ◌≤◌, ◌+◌, ◌^◌, ◌++◌, ◌∷◌, IfOk, OnOk, All, [], length, map, is_some, Some, false};
ghost use Rattle.mdb_monitor.specs.Standing.{StandsFor as MonitorStands};
ghost use Rattle.mdb_driver_rules.specs.Limits.{past_last};
ghost use Rattle.mdb_driver_rules.specs.Monitors.{setting};
ghost use Rattle.mdb_driver_pools.specs.Planned.{opened_by};
ghost use Rattle.mdb_topology.specs.declared.monitors.monitoring.Monitoring.TheVariants.{Same};

use crate::known::naming::is_below_sum;
use crate::monitors::monitoring::Monitoring;
use crate::topology::TopologyCore;
use crate::transition::Transition;
use mdb_base::{Options, ServerAddress};
use mdb_describe::TopologyDescription;
use mdb_driver_pools::PoolChange;
use mdb_events::Fact;
use mdb_log::Reply;
use mdb_monitor::{DEFAULT_HEARTBEAT_FREQUENCY, MonitorCore};
use std::alloc::{AllocError, Global};

/// What a change of the topology comes to.
#[derive(Drop)]
pub struct Publication {
    pub facts: Vec<Fact>,
    pub changes: Vec<PoolChange>,
    /// Of the pools that are opened, in their order.
    pub monitors: Vec<MonitorCore>,
}

impl Publication {
    /// Nothing is told.
    pub(crate) fn nothing(alloc: Global) -> Publication
        ensures facts { result.facts.items ≡ [] }
        ensures changes { result.changes.items ≡ [] }
        ensures monitors { result.monitors.items ≡ [] }
    {
        Publication {
            facts: Vec::new(alloc),
            changes: Vec::new(alloc),
            monitors: Vec::new(alloc),
        }
    }

    /// What an accepted step makes that comes to this, with its reply and with what is known then.
    pub(crate) fn into_next(
        self,
        reply: Reply,
        known: TopologyDescription,
        stops: bool,
    ) -> Transition
        ensures reply { result.reply ≡ reply }
        ensures facts { result.facts ≡ self.facts }
        ensures changes { result.changes ≡ self.changes }
        ensures description { result.description ≡ Some known }
        ensures monitors { result.monitors ≡ self.monitors }
        ensures monitoring { result.monitoring ≡ Same }
        ensures stops { result.stops ≡ stops }
    {
        Transition {
            reply,
            facts: self.facts,
            changes: self.changes,
            description: Some(known),
            monitors: self.monitors,
            monitoring: Monitoring::Same,
            stops,
        }
    }
}

// The monitor of a server, as the options say: by default it is checked every 10 seconds, a connection to it is made within 10 seconds, and it is asked to
// answer when something changes.
pub(crate) fn monitor_of(address: ServerAddress, options: &Options) -> MonitorCore
    ensures setting { result.setting ≡ setting options.now address }
    ensures stands { MonitorStands result [] }
{
    MonitorCore::new(
        address,
        options.streaming.unwrap_or(true),
        options.heartbeat.unwrap_or(DEFAULT_HEARTBEAT_FREQUENCY),
        options.connect.unwrap_or(10_000),
    )
}

// A monitor for one server more.
pub(crate) fn push_monitor(
    made: &mut Vec<MonitorCore>,
    options: &Options,
    address: &ServerAddress,
) -> Result<(), AllocError>
    ensures settings { OnOk result (map (λ m. m.setting) made.new.items ≡ map (λ m. m.setting) made.old.items ++ setting options.now address.now ∷ []) }
    ensures stand { OnOk result (All (λ m. MonitorStands m []) made.old.items → All (λ m. MonitorStands m []) made.new.items) }
{
    let address = address.clone()?;
    made.push(monitor_of(address, options))?;
    Ok(())
}

// A monitor for the pool that the change opens, if it opens one.
fn add_monitor(
    made: &mut Vec<MonitorCore>,
    options: &Options,
    change: &PoolChange,
) -> Result<(), AllocError>
    ensures settings { OnOk result (map (λ m. m.setting) made.new.items ≡ map (λ m. m.setting) made.old.items ++ map (λ x. setting options.now x.address) (opened_by (change.now ∷ []))) }
    ensures stand { OnOk result (All (λ m. MonitorStands m []) made.old.items → All (λ m. MonitorStands m []) made.new.items) }
{
    if let PoolChange::Open(pool) = change {
        push_monitor(made, options, pool.address())?;
    }
    Ok(())
}

// The monitors of the pools that are opened.
pub(crate) fn new_monitors(
    alloc: Global,
    options: &Options,
    changes: &[PoolChange],
) -> Result<Vec<MonitorCore>, AllocError>
    ensures settings { IfOk result (λ made. map (λ m. m.setting) made.items ≡ map (λ x. setting options.now x.address) (opened_by changes.now)) }
    ensures stand { IfOk result (λ made. All (λ m. MonitorStands m []) made.items) }
{
    let mut made = Vec::new(alloc);
    for change in changes {
        add_monitor(&mut made, options, change)?;
    }
    Ok(made)
}

impl TopologyCore {
    // The last of the pools that come at the addresses has a number past the limit.
    pub(crate) fn is_past_last(&self, added: &[ServerAddress]) -> bool
        ensures past { result ≡ is_some (past_last self.now.options (length self.now.pools.cores.items) added.now) }
        ensures few { length self.now.pools.cores.items ≤ 2 ^ 32 → result ≡ false → length self.now.pools.cores.items + length added.now ≤ 2 ^ 32 }
    {
        let count = added.len();
        if count == 0 {
            return false;
        }
        let limit = self.options.limit_pool.unwrap_or(u32::MAX) as usize;
        is_below_sum(limit, self.pools.cores.len(), count - 1)
    }
}
