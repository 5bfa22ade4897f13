//! The clear of a pool.

ghost use Rattle.std.specs.Prelude.{◌≡◌, OnOk, true};
ghost use Rattle.mdb_driver_pools.specs.Living.{lives_at};

use crate::pool_change::PoolChange;
use crate::pools::Pools;
use crate::trouble::PoolTrouble;
use mdb_base::{Moment, OutOfMemory};
use mdb_events::{Boxed, Fact};
use mdb_log::{Act, Step};
use std::alloc::Global;

impl Pools {
    ghost use Rattle.mdb_driver_pools.specs.Clearing.{AcceptsClear, Clears};

    /// The pool at the index is to be cleared, or a service of it, where that is wanted.
    pub fn plan_clear(
        &mut self,
        alloc: Global,
        moment: Moment,
        trouble: &PoolTrouble<'_>,
        facts: &mut Vec<Fact>,
        changes: &mut Vec<PoolChange>,
    ) -> Result<(), OutOfMemory>
        requires there { lives_at self.old.cores.items trouble.now.index ≡ true }
        requires accepted { trouble.now.clears ≡ true → AcceptsClear self.old.cores.items trouble.now.index moment trouble.now.service trouble.now.error.now }
        ensures same { self.new ≡ self.old }
        ensures clears { OnOk result (Clears trouble.now.clears self.old.cores.items trouble.now.index moment trouble.now.service trouble.now.error.now changes.old.items changes.new.items facts.old.items facts.new.items) }
    {
        let wanted = trouble.clears;
        if !wanted {
            return Ok(());
        }
        let error = Boxed::copy_of(alloc, trouble.error)?;
        let act = Act::Clear(
            self.cores.at(trouble.index).number(),
            trouble.service,
            error,
        );
        self.plan_act(alloc, trouble.index, Step { moment, act }, facts, changes)
    }
}
