//! A server that goes: it is closed, and then its pool.

ghost use Rattle.std.specs.Prelude.{◌≡◌, ◌≤◌, ◌++◌, ◌∷◌, [], OnOk, All, length, map, true};
ghost use Rattle.mdb_base.specs.OptionRules.{all_different};
ghost use Rattle.mdb_base.specs.Equality.{same_address};
ghost use Rattle.mdb_describe.specs.Servers.{is_listed};
ghost use Rattle.mdb_driver_pools.specs.Acting.{closing};
ghost use Rattle.mdb_driver_rules.specs.Events.{gone_fact};
ghost use Rattle.mdb_pool.specs.Now.{last_now};

use crate::pool_change::PoolChange;
use crate::pools::Pools;
use crate::sdam_facts::tell_event;
use mdb_base::{Moment, Options, OutOfMemory, ServerAddress};
use mdb_events::{Fact, SdamEvent, ServerClosedEvent};
use mdb_log::{Act, Step};
use std::alloc::{AllocError, Global};

// The server is closed.
fn tell_closed(
    alloc: Global,
    facts: &mut Vec<Fact>,
    options: &Options,
    address: &ServerAddress,
) -> Result<(), AllocError>
    ensures { OnOk result (facts.new.items ≡ facts.old.items ++ gone_fact options.now address.now ∷ []) }
{
    let event = ServerClosedEvent {
        address: address.clone()?,
        topology_id: options.topology_id,
    };
    tell_event(alloc, facts, SdamEvent::ServerClosed(event))
}

impl Pools {
    ghost use Rattle.mdb_driver_pools.specs.Acting.{PlansAt};
    ghost use Rattle.mdb_driver_pools.specs.Planned.{PlansMore};
    ghost use Rattle.mdb_driver_rules.specs.Publishing.{server_closed};
    ghost use Rattle.mdb_driver_pools.specs.Standing.{at_address};

    // The pool that is open at the address is to be closed.
    fn plan_close(
        &mut self,
        alloc: Global,
        moment: Moment,
        address: &ServerAddress,
        facts: &mut Vec<Fact>,
        changes: &mut Vec<PoolChange>,
    ) -> Result<(), OutOfMemory>
        requires early { All (λ s. last_now s ≤ moment) self.old.cores.items }
        ensures same { self.new ≡ self.old }
        ensures planned { OnOk result (PlansAt self.old.cores.items (at_address self.old.cores.items address.now) moment closing changes.old.items changes.new.items facts.old.items facts.new.items) }
    {
        let Some(index) = self.at_address(address) else {
            return Ok(());
        };
        let act = Act::Close(self.cores.at(index).number());
        self.plan_act(alloc, index, Step { moment, act }, facts, changes)
    }

    // What a server that goes comes to.
    fn plan_closed(
        &mut self,
        alloc: Global,
        options: &Options,
        moment: Moment,
        address: &ServerAddress,
        facts: &mut Vec<Fact>,
        changes: &mut Vec<PoolChange>,
    ) -> Result<(), OutOfMemory>
        requires early { All (λ s. last_now s ≤ moment) self.old.cores.items }
        ensures same { self.new ≡ self.old }
        ensures planned { OnOk result (PlansMore options.now moment self.old.cores.items (length self.old.cores.items) (same_address address.now) (server_closed options.now moment address.now ∷ []) (address.now ∷ []) [] changes.old.items changes.new.items facts.old.items facts.new.items) }
    {
        tell_closed(alloc, facts, options, address)?;
        self.plan_close(alloc, moment, address, facts, changes)
    }

    /// What servers that go come to, which are all different.
    pub(crate) fn plan_all_closed(
        &mut self,
        alloc: Global,
        options: &Options,
        moment: Moment,
        addresses: &[ServerAddress],
        facts: &mut Vec<Fact>,
        changes: &mut Vec<PoolChange>,
    ) -> Result<(), OutOfMemory>
        requires early { All (λ s. last_now s ≤ moment) self.old.cores.items }
        requires different { all_different addresses.now ≡ true }
        ensures same { self.new ≡ self.old }
        ensures planned { OnOk result (PlansMore options.now moment self.old.cores.items (length self.old.cores.items) (is_listed addresses.now) (map (server_closed options.now moment) addresses.now) addresses.now [] changes.old.items changes.new.items facts.old.items facts.new.items) }
    {
        for address in addresses {
            self.plan_closed(alloc, options, moment, address, facts, changes)?;
        }
        Ok(())
    }
}
