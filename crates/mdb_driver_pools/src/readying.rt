//! A server that changed: its pool is marked ready where its new type says so, and then what is known of it is told.

ghost use Rattle.std.specs.Prelude.{◌≡◌, ◌≤◌, ◌++◌, ◌∷◌, [], OnOk, All, None, if◌then◌else◌, length, map, true};
ghost use Rattle.mdb_base.specs.OptionRules.{all_different};
ghost use Rattle.mdb_driver_pools.specs.Acting.{readying};
ghost use Rattle.mdb_driver_rules.specs.Events.{changed_fact};
ghost use Rattle.mdb_pool.specs.Now.{last_now};

use crate::pool_change::PoolChange;
use crate::pools::Pools;
use crate::readiness::is_ready_type;
use crate::sdam_facts::tell_event;
use crate::topology_change::TopologyChange;
use mdb_base::{Moment, Options, OutOfMemory, ServerAddress};
use mdb_describe::ServerDescription;
use mdb_events::{Fact, SdamEvent, ServerDescriptionChangedEvent};
use mdb_log::{Act, Step};
use std::alloc::{AllocError, Global};

// What is known of the server changed.
fn tell_changed(
    alloc: Global,
    facts: &mut Vec<Fact>,
    options: &Options,
    address: &ServerAddress,
    old: &ServerDescription,
    new: &ServerDescription,
) -> Result<(), AllocError>
    ensures { OnOk result (facts.new.items ≡ facts.old.items ++ changed_fact options.now address.now old.now new.now ∷ []) }
{
    let event = ServerDescriptionChangedEvent {
        address: address.clone()?,
        topology_id: options.topology_id,
        previous_description: old.clone()?,
        new_description: new.clone()?,
    };
    tell_event(alloc, facts, SdamEvent::ServerDescriptionChanged(event))
}

impl Pools {
    ghost use Rattle.mdb_driver_pools.specs.Acting.{PlansAt};
    ghost use Rattle.mdb_driver_pools.specs.Planned.{PlansMore};
    ghost use Rattle.mdb_driver_rules.specs.Publishing.{server_changed};
    ghost use Rattle.mdb_driver_pools.specs.Standing.{at_address};
    ghost use Rattle.mdb_driver_rules.specs.Touching.{readies, readies_one};

    // The pool that is open at the address is to be marked ready, where that is wanted.
    fn plan_ready(
        &mut self,
        alloc: Global,
        moment: Moment,
        wanted: bool,
        address: &ServerAddress,
        facts: &mut Vec<Fact>,
        changes: &mut Vec<PoolChange>,
    ) -> Result<(), OutOfMemory>
        requires early { All (λ s. last_now s ≤ moment) self.old.cores.items }
        ensures same { self.new ≡ self.old }
        ensures planned { OnOk result (PlansAt self.old.cores.items (if wanted then at_address self.old.cores.items address.now else None) moment readying changes.old.items changes.new.items facts.old.items facts.new.items) }
    {
        if !wanted {
            return Ok(());
        }
        let Some(index) = self.at_address(address) else {
            return Ok(());
        };
        let act = Act::Ready(self.cores.at(index).number());
        self.plan_act(alloc, index, Step { moment, act }, facts, changes)
    }

    // What a server that changed comes to.
    fn plan_changed(
        &mut self,
        alloc: Global,
        change: &TopologyChange<'_>,
        address: &ServerAddress,
        facts: &mut Vec<Fact>,
        changes: &mut Vec<PoolChange>,
    ) -> Result<(), OutOfMemory>
        requires early { All (λ s. last_now s ≤ change.now.moment) self.old.cores.items }
        ensures same { self.new ≡ self.old }
        ensures planned { OnOk result (PlansMore change.now.options.now change.now.moment self.old.cores.items (length self.old.cores.items) (readies_one change.now.later.now address.now) (server_changed change.now.options.now change.now.moment change.now.earlier.now change.now.later.now address.now ∷ []) [] [] changes.old.items changes.new.items facts.old.items facts.new.items) }
    {
        let Some(old) = change.earlier.server(address) else {
            return Ok(());
        };
        let Some(new) = change.later.server(address) else {
            return Ok(());
        };
        let wanted = is_ready_type(change.later.topology_type(), new);
        self.plan_ready(alloc, change.moment, wanted, address, facts, changes)?;
        tell_changed(alloc, facts, change.options, address, old, new)?;
        Ok(())
    }

    /// What servers that changed come to, which are all different.
    pub(crate) fn plan_all_changed(
        &mut self,
        alloc: Global,
        change: &TopologyChange<'_>,
        addresses: &[ServerAddress],
        facts: &mut Vec<Fact>,
        changes: &mut Vec<PoolChange>,
    ) -> Result<(), OutOfMemory>
        requires early { All (λ s. last_now s ≤ change.now.moment) self.old.cores.items }
        requires different { all_different addresses.now ≡ true }
        ensures same { self.new ≡ self.old }
        ensures planned { OnOk result (PlansMore change.now.options.now change.now.moment self.old.cores.items (length self.old.cores.items) (readies change.now.later.now addresses.now) (map (server_changed change.now.options.now change.now.moment change.now.earlier.now change.now.later.now) addresses.now) [] [] changes.old.items changes.new.items facts.old.items facts.new.items) }
    {
        for address in addresses {
            self.plan_changed(alloc, change, address, facts, changes)?;
        }
        Ok(())
    }
}
