//! Planned changes are made, without memory.

ghost use Rattle.std.specs.Prelude.{◌≡◌, ◌≤◌, ◌+◌, List, length, OnOk};

use crate::pool_change::PoolChange;
use crate::pools::Pools;
use mdb_base::OutOfMemory;

impl Pools {
    ghost use Rattle.mdb_pool.specs.Core.{PoolCore};
    ghost use Rattle.mdb_driver_pools.specs.Planned.{Leads, LeadsAll, pools_opened, opened_by};

    /// Room for so many more pools, so that opening them takes no memory.
    pub fn reserve(&mut self, more: usize) -> Result<(), OutOfMemory>
        ensures last { self.new.last ≡ self.old.last }
        ensures known { self.new.known ≡ self.old.known }
        ensures cores { self.new.cores.items ≡ self.old.cores.items }
        ensures room { OnOk result (length self.new.cores.items + more ≤ self.new.cores.room) }
    {
        self.cores.reserve(more)
    }

    // One planned change is made.
    fn make(&mut self, change: PoolChange)
        requires leads { (later : List PoolCore) × Leads change self.old.cores.items later }
        requires room { length self.old.cores.items + pools_opened change ≤ self.old.cores.room }
        ensures last { self.new.last ≡ self.old.last }
        ensures known { self.new.known ≡ self.old.known }
        ensures led { (later : List PoolCore) → Leads change self.old.cores.items later → later ≡ self.new.cores.items }
        ensures len { length self.new.cores.items ≡ length self.old.cores.items + pools_opened change }
        ensures capacity { self.new.cores.room ≡ self.old.cores.room }
    {
        match change {
            PoolChange::Alter(index, plan) => self.cores.apply(index, plan),
            PoolChange::Open(core) => self.cores.push_reserved(core),
        }
    }

    /// Planned changes are made one after another.
    pub fn apply_all(&mut self, changes: Vec<PoolChange>)
        requires leads { (later : List PoolCore) × LeadsAll changes.items self.old.cores.items later }
        requires room { length self.old.cores.items + length (opened_by changes.items) ≤ self.old.cores.room }
        ensures last { self.new.last ≡ self.old.last }
        ensures known { self.new.known ≡ self.old.known }
        ensures led { (later : List PoolCore) → LeadsAll changes.items self.old.cores.items later → later ≡ self.new.cores.items }
    {
        for change in changes {
            self.make(change);
        }
    }
}
