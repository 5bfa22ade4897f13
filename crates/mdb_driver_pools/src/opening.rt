//! The opening of a driver: what is known of its seeds, and a pool for each.

ghost use Rattle.std.specs.Prelude.{◌≡◌, ◌≤◌, ◌+◌, ◌++◌, ◌∷◌, ◌^◌, [], IfOk, OnOk, All, None, Some, is_some, length, true};
ghost use Rattle.mdb_base.specs.OptionRules.{broken_rule};
ghost use Rattle.mdb_describe.specs.Differences.{difference, AreInOrder, are_in_both};
ghost use Rattle.mdb_describe.specs.Servers.{is_known};
ghost use Rattle.mdb_describe.specs.Topology.{opened, stopped};
ghost use Rattle.mdb_driver_rules.specs.Description.{with_balancers, begins_with, unopened};
ghost use Rattle.mdb_driver_rules.specs.Events.{opening_fact};
ghost use Rattle.mdb_driver_pools.specs.Opening.{IsOpened, Publishes};
ghost use Rattle.mdb_pool.specs.Now.{last_now};

use crate::cores::Cores;
use crate::pools::Pools;
use crate::sdam_facts::tell_event;
use crate::topology_change::TopologyChange;
use mdb_base::{Moment, Options, OutOfMemory, ServerAddress};
use mdb_describe::{Diff, ServerDescription, TopologyDescription};
use mdb_events::{Fact, SdamEvent, TopologyOpeningEvent};
use mdb_intervals::Spans;
use std::alloc::{AllocError, Global};

/// The parts of a driver that was just opened.
#[derive(Drop)]
pub struct Opening {
    pub pools: Pools,
    pub description: TopologyDescription,
    pub facts: Vec<Fact>,
}

// The topology is monitored from now on.
fn tell_opening(alloc: Global, facts: &mut Vec<Fact>, options: &Options) -> Result<(), AllocError>
    ensures { OnOk result (facts.new.items ≡ facts.old.items ++ opening_fact options.now ∷ []) }
{
    let event = TopologyOpeningEvent {
        topology_id: options.topology_id,
    };
    tell_event(alloc, facts, SdamEvent::TopologyOpening(event))
}

// Before the opening there is no server.
fn unopened(seeded: &TopologyDescription) -> Result<TopologyDescription, AllocError>
    ensures { IfOk result (λ t. t ≡ stopped seeded.now) }
{
    let mut before = seeded.clone()?;
    before.stop();
    Ok(before)
}

// Each of the addresses is a load balancer's.
fn add_balancers(
    alloc: Global,
    description: &mut TopologyDescription,
    seeds: &[ServerAddress],
) -> Result<(), OutOfMemory>
    ensures { OnOk result (description.new ≡ with_balancers seeds.now description.old) }
{
    for seed in seeds {
        let server = ServerDescription::new_load_balancer(seed.clone()?);
        description.update(alloc, server)?;
    }
    Ok(())
}

// What is known as the driver begins.
fn begins_with(
    alloc: Global,
    options: &Options,
    seeded: &TopologyDescription,
) -> Result<TopologyDescription, OutOfMemory>
    requires { seeded.now ≡ opened options.now }
    ensures { IfOk result (λ t. t ≡ begins_with options.now) }
{
    let mut description = seeded.clone()?;
    if options.load_balanced {
        add_balancers(alloc, &mut description, options.seeds.as_slice())?;
    }
    Ok(description)
}

impl Pools {
    ghost use Rattle.mdb_base.specs.declared.address.ServerAddress.{ServerAddress};
    ghost use Rattle.mdb_driver_pools.specs.Standing.{at_address};

    // What is known changes by the difference, at once.
    fn publish_difference(
        &mut self,
        alloc: Global,
        change: &TopologyChange<'_>,
        diff: &Diff,
        facts: &mut Vec<Fact>,
    ) -> Result<(), OutOfMemory>
        requires early { All (λ s. last_now s ≤ change.now.moment) self.old.cores.items }
        requires open_for { (a : ServerAddress) → is_some (at_address self.old.cores.items a) ≡ is_known a change.now.earlier.now.servers }
        requires few { length self.old.cores.items + length change.now.later.now.servers ≤ 2 ^ 32 }
        requires difference { difference change.now.earlier.now.servers change.now.later.now.servers ≡ Some diff.now }
        requires ordered { AreInOrder diff.now }
        requires in_both { are_in_both change.now.earlier.now.servers change.now.later.now.servers diff.now.changed ≡ true }
        ensures last { self.new.last ≡ self.old.last }
        ensures known { self.new.known ≡ self.old.known }
        ensures published { OnOk result (Publishes change.now.options.now change.now.moment change.now.earlier.now change.now.later.now self.old.cores.items self.new.cores.items facts.old.items facts.new.items) }
    {
        let changes = self.plan_publication(alloc, change, diff, facts)?;
        match self.reserve(diff.added.as_slice().len()) {
            Ok(()) => {
                self.apply_all(changes);
                Ok(())
            }
            Err(e) => {
                drop(changes);
                Err(e)
            }
        }
    }

    // What is known changes, at once.
    fn publish(
        &mut self,
        alloc: Global,
        change: &TopologyChange<'_>,
        facts: &mut Vec<Fact>,
    ) -> Result<(), OutOfMemory>
        requires early { All (λ s. last_now s ≤ change.now.moment) self.old.cores.items }
        requires open_for { (a : ServerAddress) → is_some (at_address self.old.cores.items a) ≡ is_known a change.now.earlier.now.servers }
        requires few { length self.old.cores.items + length change.now.later.now.servers ≤ 2 ^ 32 }
        ensures last { self.new.last ≡ self.old.last }
        ensures known { self.new.known ≡ self.old.known }
        ensures published { OnOk result (Publishes change.now.options.now change.now.moment change.now.earlier.now change.now.later.now self.old.cores.items self.new.cores.items facts.old.items facts.new.items) }
    {
        match change.earlier.diff(alloc, change.later)? {
            Some(diff) => self.publish_difference(alloc, change, &diff, facts),
            None => Ok(()),
        }
    }
}

// The seeds come, of which nothing is known yet.
fn publish_opened(
    alloc: Global,
    options: &Options,
    moment: Moment,
    seeded: &TopologyDescription,
    pools: &mut Pools,
    facts: &mut Vec<Fact>,
) -> Result<(), OutOfMemory>
    requires seeded { seeded.now ≡ opened options.now }
    requires seeds { length options.now.seeds ≤ 128 }
    requires empty { pools.old.cores.items ≡ [] }
    ensures last { pools.new.last ≡ pools.old.last }
    ensures known { pools.new.known ≡ pools.old.known }
    ensures published { OnOk result (Publishes options.now moment (unopened options.now) seeded.now [] pools.new.cores.items facts.old.items facts.new.items) }
{
    let before = unopened(seeded)?;
    let change = TopologyChange {
        options,
        moment,
        earlier: &before,
        later: seeded,
    };
    pools.publish(alloc, &change, facts)
}

/// A driver is opened at the moment, with options that keep the rules.
pub fn open(alloc: Global, options: &Options, moment: Moment) -> Result<Opening, OutOfMemory>
    requires { broken_rule options.now ≡ None }
    ensures last { IfOk result (λ made. made.pools.last ≡ moment) }
    ensures known { IfOk result (λ made. made.pools.known.spans ≡ []) }
    ensures opened { IfOk result (λ made. IsOpened options.now moment made.pools.cores.items made.description made.facts.items) }
{
    let mut facts = Vec::new(alloc);
    tell_opening(alloc, &mut facts, options)?;
    let seeded = TopologyDescription::initialize(alloc, options)?;
    let mut pools = Pools {
        cores: Cores::new(alloc),
        known: Spans::new(alloc),
        last: moment,
    };
    publish_opened(alloc, options, moment, &seeded, &mut pools, &mut facts)?;
    let description = begins_with(alloc, options, &seeded)?;
    let change = TopologyChange {
        options,
        moment,
        earlier: &seeded,
        later: &description,
    };
    pools.publish(alloc, &change, &mut facts)?;
    Ok(Opening {
        pools,
        description,
        facts,
    })
}
