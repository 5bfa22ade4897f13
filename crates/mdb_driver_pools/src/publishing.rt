//! What a change of the topology comes to: the facts that tell it, and the changes of the pools.

ghost use Rattle.std.specs.Prelude.{◌≡◌, ◌≤◌, ◌+◌, ◌++◌, ◌∷◌, ◌^◌, [], IfOk, OnOk, All, Some, is_some, length, true};
ghost use Rattle.mdb_describe.specs.Differences.{difference, AreInOrder, are_in_both};
ghost use Rattle.mdb_describe.specs.Servers.{is_known};
ghost use Rattle.mdb_driver_rules.specs.Events.{topology_fact};
ghost use Rattle.mdb_pool.specs.Now.{last_now};

use crate::opening_server::plan_all_opened;
use crate::pool_change::PoolChange;
use crate::pools::Pools;
use crate::sdam_facts::tell_event;
use crate::topology_change::TopologyChange;
use mdb_base::{Options, OutOfMemory};
use mdb_describe::{Diff, TopologyDescription};
use mdb_events::{Fact, SdamEvent, TopologyDescriptionChangedEvent};
use std::alloc::{AllocError, Global};

// What is known of the topology changed.
fn tell_topology(
    alloc: Global,
    facts: &mut Vec<Fact>,
    options: &Options,
    earlier: &TopologyDescription,
    later: &TopologyDescription,
) -> Result<(), AllocError>
    ensures { OnOk result (facts.new.items ≡ facts.old.items ++ topology_fact options.now earlier.now later.now ∷ []) }
{
    let event = TopologyDescriptionChangedEvent {
        topology_id: options.topology_id,
        previous_description: earlier.clone()?,
        new_description: later.clone()?,
    };
    tell_event(alloc, facts, SdamEvent::TopologyDescriptionChanged(event))
}

impl Pools {
    ghost use Rattle.mdb_base.specs.declared.address.ServerAddress.{ServerAddress};
    ghost use Rattle.mdb_driver_pools.specs.Planned.{PlansMore};
    ghost use Rattle.mdb_driver_rules.specs.Publishing.{publication};
    ghost use Rattle.mdb_driver_pools.specs.Standing.{at_address};
    ghost use Rattle.mdb_driver_rules.specs.Touching.{touches};

    /// What is known of the topology changes by the difference, where exactly the earlier servers have an open pool.
    pub fn plan_publication(
        &mut self,
        alloc: Global,
        change: &TopologyChange<'_>,
        diff: &Diff,
        facts: &mut Vec<Fact>,
    ) -> Result<Vec<PoolChange>, OutOfMemory>
        requires early { All (λ s. last_now s ≤ change.now.moment) self.old.cores.items }
        requires open_for { (a : ServerAddress) → is_some (at_address self.old.cores.items a) ≡ is_known a change.now.earlier.now.servers }
        requires few { length self.old.cores.items + length diff.now.added ≤ 2 ^ 32 }
        requires difference { difference change.now.earlier.now.servers change.now.later.now.servers ≡ Some diff.now }
        requires ordered { AreInOrder diff.now }
        requires in_both { are_in_both change.now.earlier.now.servers change.now.later.now.servers diff.now.changed ≡ true }
        ensures same { self.new ≡ self.old }
        ensures planned { IfOk result (λ changes. PlansMore change.now.options.now change.now.moment self.old.cores.items (length self.old.cores.items) (touches change.now.later.now diff.now) (publication change.now.options.now change.now.moment change.now.earlier.now change.now.later.now) diff.now.removed diff.now.added [] changes.items facts.old.items facts.new.items) }
    {
        let mut changes = Vec::new(alloc);
        let changed = diff.changed.as_slice();
        self.plan_all_changed(alloc, change, changed, facts, &mut changes)?;
        let removed = diff.removed.as_slice();
        self.plan_all_closed(
            alloc,
            change.options,
            change.moment,
            removed,
            facts,
            &mut changes,
        )?;
        tell_topology(alloc, facts, change.options, change.earlier, change.later)?;
        let count = self.cores.len();
        let added = diff.added.as_slice();
        plan_all_opened(alloc, change.options, added, count, facts, &mut changes)?;
        Ok(changes)
    }
}
