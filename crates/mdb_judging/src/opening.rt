//! The rule of the first entry.

ghost use Rattle.std.specs.Prelude.{◌≡◌, List, map};
ghost use Rattle.std.specs.List.{list_all};
ghost use Rattle.mdb_log.specs.History.{Item};
ghost use Rattle.mdb_log.specs.Opening.{pool_options};
ghost use Rattle.mdb_log.specs.PlainLegal.{counts_from, is_ascending, has_address, opens_seeds};
ghost use Rattle.mdb_tallies.specs.Kept.{Stands};
ghost use Rattle.mdb_judging.specs.Opens.{HomesStand, home_of, address_of, is_ready_now, is_opened_at, opens_now};

use crate::homes::{Homes, OpenedPool};
use mdb_base::{Options, ServerAddress};
use mdb_log::PoolOptions;
use mdb_tallies::Tables;

/// The options of each pool that these options open.
pub fn pool_options(o: &Options) -> PoolOptions
    ensures { result ≡ pool_options o.now }
{
    PoolOptions {
        max_pool_size: o.max_pool_size,
        min_pool_size: o.min_pool_size,
        max_idle_time: o.max_idle_time,
        max_wait: o.max_wait,
        max_connecting: o.max_connecting,
        load_balanced: o.load_balanced,
        limit_id: o.limit_id.unwrap_or(4_294_967_295),
        limit_generation: o.limit_generation.unwrap_or(18_446_744_073_709_551_615),
    }
}

fn has(addresses: &[ServerAddress], address: &ServerAddress) -> bool
    ensures { result ≡ has_address addresses.now address.now }
{
    addresses.iter().any(|a| address.is(a))
}

fn is_opened_at(pools: &[OpenedPool], address: &ServerAddress) -> bool
    ensures { result ≡ is_opened_at pools.now address.now }
{
    pools.iter().any(|p| address.is(&p.address))
}

fn count_up(pools: &[OpenedPool]) -> bool
    ensures { result ≡ counts_from 0 (map home_of pools.now) }
{
    let mut next = 0u64;
    for pool in pools {
        if u64::from(pool.number) != next {
            return false;
        }
        next += 1;
    }
    true
}

fn ascend(pools: &[OpenedPool]) -> bool
    ensures { result ≡ is_ascending (map address_of pools.now) }
{
    let last = pools.len().saturating_sub(1);
    for index in 0..last {
        if !pools[index].address.is_before(&pools[index + 1].address) {
            return false;
        }
    }
    true
}

fn is_ready(tables: &Tables, pool: &OpenedPool) -> bool
    ensures { result ≡ is_ready_now tables.now pool.now }
{
    let known = tables.pools.get((pool.number, 0, 0));
    known.is_opened && known.is_ready
}

fn opens_each(seeds: &[ServerAddress], pools: &[OpenedPool]) -> bool
    ensures { result ≡ list_all (is_opened_at pools.now) seeds.now }
{
    seeds.iter().all(|s| is_opened_at(pools, s))
}

fn opens_no_other(seeds: &[ServerAddress], pools: &[OpenedPool]) -> bool
    ensures { result ≡ list_all (λ x. has_address seeds.now x.address) pools.now }
{
    pools.iter().all(|p| has(seeds, &p.address))
}

fn are_ready(tables: &Tables, pools: &[OpenedPool]) -> bool
    ensures { result ≡ list_all (is_ready_now tables.now) pools.now }
{
    pools.iter().all(|p| is_ready(tables, p))
}

fn opens_now(o: &Options, pools: &[OpenedPool], tables: &Tables) -> bool
    ensures { result ≡ opens_now o.now pools.now tables.now }
{
    let seeds = o.seeds.as_slice();
    count_up(pools)
        && (ascend(pools)
            && (opens_each(seeds, pools)
                && (opens_no_other(seeds, pools)
                    && (!o.load_balanced || are_ready(tables, pools)))))
}

/// The history opens exactly the seeds, in the order of their addresses, with numbers from 0, and ready where load balanced.
pub fn opens_seeds(o: &Options, homes: &Homes, tables: &Tables) -> bool
    ensures { (h : List Item) → HomesStand h homes.now → Stands (pool_options o.now) h tables.now → result ≡ opens_seeds o.now h }
{
    opens_now(o, homes.all.as_slice(), tables)
}
