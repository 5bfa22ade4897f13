//! A server that comes: a pool with the next number is opened and created for it, and then it is opened.

ghost use Rattle.std.specs.Prelude.{◌≡◌, ◌≤◌, ◌<◌, ◌+◌, ◌++◌, ◌∷◌, ◌^◌, [], OnOk, IfOk, None, List, ℕ, length, map, true};
ghost use Rattle.mdb_base.specs.Equality.{same_address};
ghost use Rattle.mdb_base.specs.OptionRules.{all_different};
ghost use Rattle.mdb_describe.specs.Servers.{is_listed};
ghost use Rattle.mdb_log.specs.Opening.{created, pool_options};
ghost use Rattle.mdb_pool.specs.Core.{PoolCore as Core};
ghost use Rattle.mdb_driver_pools.specs.Planned.{PlansMore};
ghost use Rattle.mdb_driver_rules.specs.Publishing.{opened_at, server_opened};
ghost use Rattle.mdb_driver_pools.specs.Standing.{at_address, are_absent};

use crate::pool_change::PoolChange;
use crate::pool_options::pool_options;
use crate::sdam_facts::tell_event;
use mdb_base::{Options, OutOfMemory, ServerAddress};
use mdb_events::{
    Boxed, CmapEvent, ConnectionPoolOptions, Fact, PoolCreatedEvent, SdamEvent, ServerOpeningEvent,
};
use mdb_pool::PoolCore;
use std::alloc::{AllocError, Global};

// A pool was created.
fn created(
    alloc: Global,
    address: ServerAddress,
    options: &Options,
) -> Result<CmapEvent, AllocError>
    ensures { IfOk result (λ event. event ≡ created (pool_options options.now) address) }
{
    let sizes = ConnectionPoolOptions {
        max_idle_time: options.max_idle_time,
        max_pool_size: options.max_pool_size,
        min_pool_size: options.min_pool_size,
    };
    let options = Some(Boxed::new(alloc, sizes)?);
    Ok(CmapEvent::PoolCreated(PoolCreatedEvent { address, options }))
}

// The facts of a server that comes, for which the pool is opened.
fn tell_opened(
    alloc: Global,
    facts: &mut Vec<Fact>,
    options: &Options,
    address: &ServerAddress,
    number: u32,
) -> Result<(), AllocError>
    ensures { OnOk result (facts.new.items ≡ facts.old.items ++ opened_at options.now address.now number) }
{
    facts.push(Fact::Opened(number, address.clone()?))?;
    let event = created(alloc, address.clone()?, options)?;
    facts.push(Fact::Pool(number, event))?;
    let address = address.clone()?;
    let event = ServerOpeningEvent {
        address,
        topology_id: options.topology_id,
    };
    tell_event(alloc, facts, SdamEvent::ServerOpening(event))
}

// What a server that comes comes to, at an address where no pool is open.
fn plan_opened(
    alloc: Global,
    options: &Options,
    address: &ServerAddress,
    number: u32,
    facts: &mut Vec<Fact>,
    changes: &mut Vec<PoolChange>,
) -> Result<(), OutOfMemory>
    ensures { OnOk result ((m : ℕ) (pools : List Core) → at_address pools address.now ≡ None → PlansMore options.now m pools number (same_address address.now) (server_opened options.now address.now ∷ []) [] (address.now ∷ []) changes.old.items changes.new.items facts.old.items facts.new.items) }
{
    tell_opened(alloc, facts, options, address, number)?;
    let copy = address.clone()?;
    let core = PoolCore::new_in_driver(alloc, number, copy, pool_options(options));
    changes.push(PoolChange::Open(core))?;
    Ok(())
}

/// What servers that come come to: their pools are numbered from so many on.
pub(crate) fn plan_all_opened(
    alloc: Global,
    options: &Options,
    addresses: &[ServerAddress],
    count: usize,
    facts: &mut Vec<Fact>,
    changes: &mut Vec<PoolChange>,
) -> Result<(), OutOfMemory>
    requires few { count + length addresses.now ≤ 2 ^ 32 }
    requires different { all_different addresses.now ≡ true }
    ensures { OnOk result ((m : ℕ) (pools : List Core) → are_absent pools addresses.now ≡ true → PlansMore options.now m pools count (is_listed addresses.now) (map (server_opened options.now) addresses.now) [] addresses.now changes.old.items changes.new.items facts.old.items facts.new.items) }
{
    let mut number = count;
    for address in addresses {
        plan_opened(alloc, options, address, number as u32, facts, changes)?;
        number += 1;
    }
    Ok(())
}
