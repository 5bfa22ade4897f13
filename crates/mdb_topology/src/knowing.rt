//! What a driver knows, as its log tells it.

ghost use Rattle.std.specs.Prelude.{◌≡◌, IfOk, IfSome, List, None, Some, is_some, length, nat_lt, option_copied, slice_get, true, false};

use crate::topology::TopologyCore;
use mdb_base::{Moment, OutOfMemory, ServerAddress};
use mdb_describe::TopologyDescription;
use mdb_log::Job;
use mdb_pool::PoolCore;
use std::alloc::Global;

impl TopologyCore {
    ghost use Rattle.mdb_log.specs.declared.log.Entry.{Entry};
    ghost use Rattle.mdb_log.specs.History.{Item, last_moment, open_pool};
    ghost use Rattle.mdb_log.specs.Homes.{homes};
    ghost use Rattle.mdb_log.specs.Opening.{pool_options};
    ghost use Rattle.mdb_pool.specs.Core.{PoolCore as Core};
    ghost use Rattle.mdb_pool.specs.Now.{is_spent};
    ghost use Rattle.mdb_pool.specs.Standing.{StandsIn};
    ghost use Rattle.mdb_driver_rules.specs.Description.{description_of, published};
    ghost use Rattle.mdb_driver_rules.specs.Jobs.{job_after};
    ghost use Rattle.mdb_driver_pools.specs.Living.{living_at};
    ghost use Rattle.mdb_topology.specs.Logging.{IsDriverOf};
    ghost use Rattle.mdb_driver_rules.specs.Monitors.{check_count};
    ghost use Rattle.mdb_topology.specs.Standing.{StandsFor};
    ghost use Rattle.mdb_driver_pools.specs.Standing.{IsGone, PoolFits, home};

    /// What is known of the topology.
    pub fn description(&self) -> &TopologyDescription
        ensures { (h : List Item) → StandsFor self.now h → result.now ≡ description_of self.now.options h }
    {
        &self.description
    }

    // The pool with the number, where something lives in it.
    fn pool_at(&self, number: u32) -> Option<&PoolCore>
        ensures { option_copied result ≡ living_at self.now.pools.cores.items number }
    {
        self.pools.pool(number)
    }

    /// The pool with the number: what its calls answer that only look at it is what the driver's history says of the pool's items. A pool that was closed keeps its number. `None` where no pool of this
    /// number was opened, or the pool was closed and nothing of it lives: no connection, and no request that is open.
    pub fn pool(&self, number: u32) -> Option<&PoolCore>
        ensures opened { (h : List Item) → StandsFor self.now h → is_some (option_copied result) ≡ true → nat_lt number (length (homes h)) ≡ true }
        ensures lives { IfSome (option_copied result) (λ s. is_spent s ≡ false) }
        ensures missing { (h : List Item) → StandsFor self.now h → option_copied result ≡ None → IsGone h number }
        ensures fits { (h : List Item) (s : Core) → StandsFor self.now h → option_copied result ≡ Some s → PoolFits (pool_options self.now.options) h number s }
        ensures stands { (h : List Item) (s : Core) → StandsFor self.now h → option_copied result ≡ Some s → StandsIn s h }
        ensures index { (h : List Item) (s : Core) → StandsFor self.now h → option_copied result ≡ Some s → slice_get (homes h) number ≡ Some (home s) }
    {
        self.pool_at(number)
    }

    /// The number of the pool that is open at the address.
    pub fn open_pool(&self, address: &ServerAddress) -> Option<u32>
        ensures { (h : List Item) → StandsFor self.now h → result ≡ open_pool h address.now }
    {
        match self.pools.at_address(address) {
            Some(index) => u32::try_from(index).ok(),
            None => None,
        }
    }

    /// The moment of the last step that was accepted.
    pub fn last_moment(&self) -> Moment
        ensures { (h : List Item) → StandsFor self.now h → result ≡ last_moment h }
    {
        self.pools.last
    }

    /// How often an accepted step told of the topology, its opening included.
    pub fn published(&self) -> u64
        ensures { (h : List Item) → StandsFor self.now h → result ≡ published self.now.options h }
    {
        self.published
    }

    /// How many watchers want the servers checked at once.
    pub fn check_count(&self) -> u64
        ensures { (h : List Item) → StandsFor self.now h → result ≡ check_count h }
    {
        self.watchers.count()
    }

    /// What a worker needs that establishes the connection of the pool (CMAP, "Establishing a Connection"). `None` where there is no such pool or the
    /// connection isn't pending.
    pub fn job(&self, alloc: Global, pool: u32, id: u32) -> Result<Option<Job>, OutOfMemory>
        ensures { IfOk result (λ job. (log : List Entry) → IsDriverOf self.now log → job ≡ job_after log pool id) }
    {
        match self.pool_at(pool) {
            Some(known) => known.job(alloc, id),
            None => Ok(None),
        }
    }
}
